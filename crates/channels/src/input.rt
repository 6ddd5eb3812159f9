// Standard input.
ghost use Rattle.std.specs.Prelude.{◌≡◌, ◌≢◌, suc, ◌<◌, ◌≤◌, length, take, replicate, Ok, IfOk, IfErr};
ghost use Rattle.std.specs.IoError.{error_kind};
ghost use Rattle.std.specs.Io.KnownBytes.{Consumes, IsAtEnd};
ghost use Rattle.meaning.specs.Replies.{input_limit};
ghost use Rattle.channels.specs.Taking.{piece_space, taken_of, Takes};

use crate::saying::{is_interrupted, say, say_failure};
use replies::INPUT_LIMIT;
use std::io;
use std::io::{ErrorKind, Read};

// One byte more than a program takes, so that an input that is too long is known.
pub const INPUT_SPACE: usize = INPUT_LIMIT + 1;

// What an input without a limit is taken in by.
pub const PIECE_SPACE: usize = 8192;

// The input could not be read, which was said on standard error.
#[derive(Clone, Copy, PartialEq, Eq, Debug)]
pub struct Unread;

pub fn input_space() -> [u8; INPUT_SPACE]
    ensures zeros { result ≡ replicate (suc input_limit) 0 }
{
    [0; INPUT_SPACE]
}

pub fn piece_space() -> [u8; PIECE_SPACE]
    ensures zeros { result ≡ replicate piece_space 0 }
{
    [0; PIECE_SPACE]
}

// What a read that gives nothing is: the end of the input, after so many bytes, and no failure.
fn ended(done: usize) -> io::Result<usize>
    ensures { result ≡ Ok done }
{
    Ok(done)
}

// Reads until the space is full or the input ends, and answers how many bytes were read. A read that a signal interrupted is tried again; nothing
// says that this ends, so the turns are counted by a number that no run uses up.
fn fill<R: Read>(reader: &mut R, space: &mut [u8]) -> io::Result<usize>
    ensures within { IfOk result (λ n. n ≤ length space.new) }
    ensures bytes { IfOk result (λ n. Consumes (R.remaining reader.old) (R.remaining reader.new) (take n space.new)) }
    ensures end { IfOk result (λ n. n < length space.new → IsAtEnd (R.remaining reader.new)) }
    ensures retried { IfErr result (λ e. error_kind e ≢ ErrorKind.Interrupted) }
{
    let mut done = 0;
    for _ in 0..u64::MAX {
        if done == space.len() {
            return Ok(done);
        }
        match reader.read(&mut space[done..]) {
            Ok(0) => return ended(done),
            Ok(n) => done += n,
            Err(e) if is_interrupted(&e) => {}
            Err(e) => return Err(e),
        }
    }
    Err(ErrorKind::TimedOut.into())
}

// Hands on what became of a read. A failure is said on standard error.
fn told(rt: &impl Eprint, read: io::Result<usize>) -> Result<usize, Unread>
    ensures { result ≡ taken_of read }
{
    match read {
        Ok(n) => Ok(n),
        Err(e) => {
            say_failure(rt, "standard input", &e);
            Err(Unread)
        }
    }
}

fn take(rt: &(impl Input + Eprint), space: &mut [u8]) -> Result<usize, Unread>
    ensures { Takes result space.new }
{
    told(rt, fill(&mut rt.reader(), space))
}

// Reads the input, as far as there is space.
// Beside take_piece: programs and pages name both, and each names its space.
pub fn take_input(
    rt: &(impl Input + Eprint),
    space: &mut [u8; INPUT_SPACE],
) -> Result<usize, Unread>
    ensures takes { Takes result space.new }
{
    take(rt, space)
}

// Reads what comes next of the input, as far as there is space.
pub fn take_piece(
    rt: &(impl Input + Eprint),
    space: &mut [u8; PIECE_SPACE],
) -> Result<usize, Unread>
    ensures takes { Takes result space.new }
{
    take(rt, space)
}

// Says on standard error that an input came to no end in as many pieces as can be counted.
pub fn say_endless(rt: &impl Eprint) {
    say(rt, "standard input: there is no end to it");
}
