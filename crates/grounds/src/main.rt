// Prints the first breach of the text on standard input and its grounds, none, or the refusal.
#![tactic(auto)]

ghost use Rattle.std.specs.Prelude.{◌≤◌, length, IfOk};
ghost use Rattle.meaning.specs.Text.{narrow};
ghost use Rattle.meaning.specs.Replies.{FindPrints};
ghost use Rattle.grounds_steps.specs.Steps.{most_steps};
ghost use Rattle.grounds_lines.specs.Filling.{frames_from};
ghost use Rattle.channels.specs.Taking.{Read};
ghost use Rattle.channels.specs.Sending.{Carries, Delivers};
ghost use Rattle.grounds.specs.Giving.{Ready, GroundsPrints, Comes, Gives};

use channels::input::{Unread, input_space, take_input};
use channels::output::{Sent, Taken, Untaken, put};
use channels::telling::{FAILED, report, tell};
use grounds_lines::opening::{Opened, open};
use grounds_steps::{STEPS, WORDS};

// How many bytes a piece of the lines has room for.
const PIECE: usize = 8192;

// What was taken of a piece, and which item comes next.
#[derive(Clone, Copy)]
struct Given {
    taken: Taken,
    next: usize,
}

// Hands over the line of an input.
// Not shared with other programs: each says in its contract what its own run hands over.
fn hand_line<'a>(rt: &(impl Print + Eprint), input: &'a [u8], line: &'a [u8]) -> Sent
    requires { FindPrints narrow input.now line.now }
    ensures { Carries line.now result }
{
    put(rt, line)
}

// Hands over the lines of the items from one to before the next.
fn hand(
    rt: &(impl Print + Eprint),
    o: Opened,
    steps: &[[u64; WORDS]],
    from: usize,
    next: usize,
    bytes: &[u8],
) -> Sent
    requires { Comes steps.now o.steps o.conclusions o.literals from next bytes.now }
    ensures { IfOk result (Gives steps.now o.steps o.conclusions o.literals from next) }
{
    put(rt, bytes)
}

fn piece(
    rt: &(impl Print + Eprint),
    o: Opened,
    steps: &[[u64; WORDS]],
    from: usize,
) -> Result<Given, Untaken>
    ensures { IfOk result (λ given. Gives steps.now o.steps o.conclusions o.literals from given.next given.taken) }
{
    let mut space = [0u8; PIECE];
    let filled = grounds_lines::fill(steps, o.steps, o.conclusions, o.literals, from, &mut space);
    let next = filled.next;
    let taken = hand(rt, o, steps, from, next, &space[..filled.used])?;
    Ok(Given { taken, next })
}

// Hands over all lines, piece by piece, as long as each is taken.
fn list(rt: &(impl Print + Eprint), o: Opened, steps: &[[u64; WORDS]]) -> Sent
    ensures { Carries (frames_from steps.now o.steps o.conclusions o.literals 0) result }
{
    let end = grounds_lines::items(steps, o.steps, o.literals);
    let mut taken = Taken::nothing();
    let mut at = 0;
    while at < end {
        let given = piece(rt, o, steps, at)?;
        taken = taken.and(given.taken);
        at = given.next;
    }
    Ok(taken)
}

// Hands over the line and the lines of the grounds.
fn deliver(rt: &(impl Print + Eprint), input: &[u8], o: Opened, steps: &[[u64; WORDS]]) -> Sent
    requires { Ready input.now o steps.now }
    ensures { Delivers (GroundsPrints input.now) result }
{
    let head = hand_line(rt, input, o.line.as_bytes())?;
    let rest = list(rt, o, steps)?;
    Ok(head.and(rest))
}

fn answer(
    rt: &(impl Print + Eprint),
    got: Result<usize, Unread>,
    input: &[u8],
    steps: &mut [[u64; WORDS]],
) -> Sent
    requires read { Read got input.now }
    requires most_steps_in_bounds { most_steps ≤ length steps.old }
    ensures { Delivers (GroundsPrints input.now) result }
{
    let opened = open(input, steps);
    deliver(rt, input, opened, steps)
}

fn main(rt: HostRuntime) {
    let mut input = input_space();
    let got = take_input(&rt, &mut input);
    let mut steps = [[0u64; WORDS]; STEPS];
    match got {
        Ok(n) => report(&rt, answer(&rt, got, &input[..n], &mut steps)),
        Err(_) => tell(&rt, FAILED),
    }
}
