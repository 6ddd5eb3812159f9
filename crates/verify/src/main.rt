// Prints what the checker says of the text and the grounds on standard input.
#![tactic(auto)]

ghost use Rattle.std.specs.Prelude.{◌≡◌, IfOk};
ghost use Rattle.grounds_intake.specs.Machine.{memory, fresh};
ghost use Rattle.channels.specs.Taking.{Read};
ghost use Rattle.channels.specs.Sending.{Delivers};
ghost use Rattle.verify.specs.Runs.{taken_by, parser_of, TakesPiece, TakesAll, Spaces, Ready, Verified, Verifies};

use channels::input::{PIECE_SPACE, Unread, piece_space, say_endless, take_piece};
use channels::output::{Sent, put};
use channels::telling::{FAILED, report, tell};
use grounds_intake::Parser;
use grounds_steps::{STEPS, WORDS};
use replies::INPUT_LIMIT;
use reply_lines::Line;
use std::rt::{Env, Files};

// What was taken in so far: there may be more, or the input ended.
// No Option: what was taken in stands in either case.
#[derive(Clone, Copy)]
enum Taken {
    More(Parser),
    Ended(Parser),
}

impl Taken {
    // A piece that is not full is the last.
    fn after(parser: Parser, length: usize) -> Taken
        ensures { result ≡ taken_by parser length }
    {
        if length < PIECE_SPACE {
            Taken::Ended(parser)
        } else {
            Taken::More(parser)
        }
    }

    // The parser behind what was taken in.
    fn parser(self) -> Parser
        ensures { result ≡ parser_of self }
    {
        match self {
            Taken::More(p) | Taken::Ended(p) => p,
        }
    }
}

// Takes in a piece that was read.
fn take_in(
    p: Parser,
    got: Result<usize, Unread>,
    piece: &[u8],
    text: &mut [u8],
    steps: &mut [[u64; WORDS]],
) -> Taken
    requires { Read got piece.now }
    ensures { TakesPiece (memory p text.old steps.old) result text.new steps.new }
{
    let parser = grounds_intake::feed(p, piece, text, steps);
    Taken::after(parser, piece.len())
}

// Takes what comes next of standard input.
fn take_next(
    rt: &(impl Input + Eprint),
    p: Parser,
    text: &mut [u8],
    steps: &mut [[u64; WORDS]],
) -> Result<Taken, Unread>
    ensures { IfOk result (λ taken. TakesPiece (memory p text.old steps.old) taken text.new steps.new) }
{
    let mut piece = piece_space();
    let got = take_piece(rt, &mut piece);
    let n = got?;
    Ok(take_in(p, got, &piece[..n], text, steps))
}

// Takes all of standard input. Nothing says that it ends, so the turns are counted by a number that no run uses up; where one does, there
// may still be more.
fn take_all(
    rt: &(impl Input + Eprint),
    text: &mut [u8],
    steps: &mut [[u64; WORDS]],
) -> Result<Taken, Unread>
    ensures { IfOk result (λ taken. TakesAll (memory fresh text.old steps.old) taken text.new steps.new) }
{
    let mut parser = grounds_intake::start();
    for _ in 0..usize::MAX {
        match take_next(rt, parser, text, steps)? {
            Taken::More(p) => parser = p,
            Taken::Ended(p) => return Ok(Taken::Ended(p)),
        }
    }
    Ok(Taken::More(parser))
}

// The line for an input that was taken in to its end.
fn answer(taken: Taken, text: &mut [u8], steps: &mut [[u64; WORDS]]) -> Line
    requires { Ready taken text.old steps.old }
    ensures { Verifies result }
{
    let q = grounds_intake::finish(taken.parser(), steps);
    grounds_replies::reply(q, text, steps)
}

// Hands over a line that some input asks for.
fn hand(rt: &(impl Print + Eprint), line: &[u8]) -> Sent
    requires { Verified line.now }
    ensures { Delivers Verified result }
{
    put(rt, line)
}

fn deliver(rt: &(impl Print + Eprint), line: Line) -> Sent
    requires { Verifies line }
    ensures { Delivers Verified result }
{
    hand(rt, line.as_bytes())
}

// Where the input ended, its line is handed over; else there is no reply.
fn run(
    rt: &(impl Input + Print + Eprint + Env + Files),
    text: &mut [u8],
    steps: &mut [[u64; WORDS]],
)
    requires { Spaces text.old steps.old }
{
    let Ok(taken) = take_all(rt, text, steps) else {
        tell(rt, FAILED);
        return;
    };
    match taken {
        Taken::Ended(_) => report(rt, deliver(rt, answer(taken, text, steps))),
        Taken::More(_) => {
            say_endless(rt);
            tell(rt, FAILED);
        }
    }
}

fn main(rt: HostRuntime) {
    let mut text = [0u8; INPUT_LIMIT];
    let mut steps = [[0u64; WORDS]; STEPS];
    run(&rt, &mut text, &mut steps);
}
