// Prints the normal text of the text on standard input, or the refusal.
#![tactic(auto)]

ghost use Rattle.std.specs.Prelude.{◌++◌};
ghost use Rattle.meaning.specs.Text.{narrow};
ghost use Rattle.meaning.specs.Replies.{NormalisePrints};
ghost use Rattle.channels.specs.Taking.{Read};
ghost use Rattle.channels.specs.Sending.{Delivers};

use channels::input::{Unread, input_space, take_input};
use channels::output::{Sent, put};
use channels::telling::{FAILED, report, tell};

// Hands over what has to be printed for an input, in two parts.
fn hand<'a>(rt: &(impl Print + Eprint), input: &'a [u8], text: &'a [u8], line: &'a [u8]) -> Sent
    requires { NormalisePrints narrow input.now (text.now ++ line.now) }
    ensures { Delivers (NormalisePrints narrow input.now) result }
{
    let first = put(rt, text)?;
    let then = put(rt, line)?;
    Ok(first.and(then))
}

fn answer(rt: &(impl Print + Eprint), got: Result<usize, Unread>, input: &[u8]) -> Sent
    requires { Read got input.now }
    ensures { Delivers (NormalisePrints narrow input.now) result }
{
    let mut space = outputs::normal_space();
    let parts = outputs::normalise_prints(input, &mut space);
    hand(rt, input, &space[..parts.text], parts.line.as_bytes())
}

// Each program has its own: what it asks of its own run stands in its contract.
fn main(rt: HostRuntime) {
    let mut input = input_space();
    let got = take_input(&rt, &mut input);
    match got {
        Ok(n) => report(&rt, answer(&rt, got, &input[..n])),
        Err(_) => tell(&rt, FAILED),
    }
}
