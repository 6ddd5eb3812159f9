// Prints every breach made of representatives of the text on standard input and then the last line, or the refusal.
#![tactic(auto)]

ghost use Rattle.std.specs.Prelude.{IfOk};
ghost use Rattle.meaning.specs.Text.{narrow};
ghost use Rattle.meaning.specs.Listing.{BreachesPrints};
ghost use Rattle.hunting.specs.Laid.{context_in, rule_in};
ghost use Rattle.listing.specs.Filling.{Lent, Runs};
ghost use Rattle.channels.specs.Taking.{Read};
ghost use Rattle.channels.specs.Sending.{Carries, Delivers};
ghost use Rattle.breaches.specs.Giving.{piece_room, Heads, Gives, ListedFrom};

use channels::input::{Unread, input_space, take_input};
use channels::output::{Sent, Taken, Untaken, put};
use channels::telling::{FAILED, report, tell};
use hunting::{Laid, PAIRS, unknown};
use listing::State;

// How many bytes a piece of the list has room for.
const PIECE: usize = 8192;

// What was taken of a piece, and where the list goes on.
#[derive(Clone, Copy)]
struct Given {
    taken: Taken,
    next: State,
}

// Hands over what comes before the list.
// Not shared with other programs: each says in its contract what its own run hands over.
fn hand_head<'a>(rt: &(impl Print + Eprint), input: &'a [u8], line: &'a [u8]) -> Sent
    requires { Heads input.now line.now }
    ensures { Carries line.now result }
{
    put(rt, line)
}

// Hands over the lines from a state to the next.
fn hand(rt: &(impl Print + Eprint), l: Laid, state: State, next: State, bytes: &[u8]) -> Sent
    requires { Runs (context_in l) l.table (rule_in l) piece_room state bytes.now next }
    ensures { IfOk result (λ taken. Gives (context_in l) l.table (rule_in l) state taken next) }
{
    put(rt, bytes)
}

fn piece(
    rt: &(impl Print + Eprint),
    l: Laid,
    known: &mut [u8; PAIRS],
    state: State,
) -> Result<Given, Untaken>
    requires { Lent l known.old }
    ensures gives { IfOk result (λ given. Gives (context_in l) l.table (rule_in l) state given.taken given.next) }
    ensures lent { Lent l known.new }
{
    let mut space = [0u8; PIECE];
    let filled = listing::fill(l, known, state, &mut space);
    let next = filled.next;
    let taken = hand(rt, l, state, next, &space[..filled.used])?;
    Ok(Given { taken, next })
}

// Hands over the list from a state on, piece by piece, as long as each is taken.
fn list(rt: &(impl Print + Eprint), l: Laid, known: &mut [u8; PAIRS], from: State) -> Sent
    requires { Lent l known.old }
    ensures { Delivers (ListedFrom (context_in l) l.table (rule_in l) from) result }
{
    let mut taken = Taken::nothing();
    let mut state = from;
    while !state.is_done() {
        let given = piece(rt, l, known, state)?;
        taken = taken.and(given.taken);
        state = given.next;
    }
    Ok(taken)
}

fn answer(rt: &(impl Print + Eprint), got: Result<usize, Unread>, input: &[u8]) -> Sent
    requires { Read got input.now }
    ensures { Delivers (BreachesPrints narrow input.now) result }
{
    let opened = listing::opening::open(input);
    let head = hand_head(rt, input, opened.line.as_bytes())?;
    let mut known = unknown();
    let rest = list(rt, opened.laid, &mut known, opened.state)?;
    Ok(head.and(rest))
}

// Each program has its own: what it asks of its own run stands in its contract.
fn main(rt: HostRuntime) {
    let mut input = input_space();
    let got = take_input(&rt, &mut input);
    match got {
        Ok(n) => report(&rt, answer(&rt, got, &input[..n])),
        Err(_) => tell(&rt, FAILED),
    }
}
