// Prints the first breach of the text on standard input, none, or the refusal.
#![tactic(auto)]

ghost use Rattle.meaning.specs.Text.{narrow};
ghost use Rattle.meaning.specs.Replies.{FindPrints};
ghost use Rattle.channels.specs.Taking.{Read};
ghost use Rattle.channels.specs.Sending.{Delivers};

use channels::input::{Unread, input_space, take_input};
use channels::output::{Sent, put};
use channels::telling::{FAILED, report, tell};

// Hands over what has to be printed for an input.
// Not shared with other programs: each says in its contract what its own run hands over.
fn hand<'a>(rt: &(impl Print + Eprint), input: &'a [u8], line: &'a [u8]) -> Sent
    requires { FindPrints narrow input.now line.now }
    ensures { Delivers (FindPrints narrow input.now) result }
{
    put(rt, line)
}

fn answer(rt: &(impl Print + Eprint), got: Result<usize, Unread>, input: &[u8]) -> Sent
    requires { Read got input.now }
    ensures { Delivers (FindPrints narrow input.now) result }
{
    hand(rt, input, outputs::find_prints(input).as_bytes())
}

// Each program has its own: what it asks of its own run stands in its contract.
fn main(rt: HostRuntime) {
    let mut input = input_space();
    let got = take_input(&rt, &mut input);
    match got {
        Ok(n) => report(&rt, answer(&rt, got, &input[..n])),
        Err(_) => tell(&rt, FAILED),
    }
}
