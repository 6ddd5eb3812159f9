// Standard output.
ghost use Rattle.std.specs.Prelude.{◌≡◌, ◌≢◌, length, IfOk, OnOk, IfErr};
ghost use Rattle.std.specs.IoError.{error_kind};
ghost use Rattle.std.specs.Io.KnownBytes.{Appends};
ghost use Rattle.channels.specs.Sending.{stop_of, none_taken, both_of, sent_of, Carries};

use crate::saying::{is_interrupted, say_failure};
use std::io;
use std::io::{ErrorKind, Write};

// How many bytes were taken, by 64 bits. Only this crate makes one.
#[derive(Clone, Copy, PartialEq, Eq, Debug)]
pub struct Taken {
    pub(crate) count: usize,
}

// Nobody reads any more, or it failed, which was said on standard error.
#[derive(Clone, Copy, PartialEq, Eq, Debug)]
pub(crate) enum Stop {
    Left,
    Failed,
}

// Why not every byte was taken. Only this crate makes one.
#[derive(Clone, Copy, PartialEq, Eq, Debug)]
pub struct Untaken {
    pub(crate) why: Stop,
}

// What became of bytes that were handed over.
pub type Sent = Result<Taken, Untaken>;

impl Taken {
    // Nothing was handed over yet.
    pub fn nothing() -> Taken
        ensures none { result ≡ none_taken }
    {
        Taken { count: 0 }
    }

    // What was taken first, and what was taken then.
    pub fn and(self, then: Taken) -> Taken
        ensures both { result ≡ both_of self then }
    {
        Taken {
            count: self.count.wrapping_add(then.count),
        }
    }
}

impl Stop {
    // What an error says of bytes that were not taken: that nobody reads any more, or that they could not be written.
    fn behind(e: &io::Error) -> Stop
        ensures { result ≡ stop_of (error_kind e.now) }
    {
        match e.kind() {
            ErrorKind::BrokenPipe => Stop::Left,
            _ => Stop::Failed,
        }
    }
}

// What a write that takes nothing is: a failure, and none to be tried again.
fn stuck() -> io::Error
    ensures failed { stop_of (error_kind result) ≡ Stop.Failed }
    ensures retried { error_kind result ≢ ErrorKind.Interrupted }
{
    io::Error::from_raw_os_error(0)
}

// Writes until every byte is taken, and answers how many were. A write that a signal interrupted is tried again, as a read is; one that takes
// nothing has failed. The last error is kept: it is what can be said of a failure that comes without one.
// No `write_all`: it does not promise that an interrupted write is tried again.
pub(crate) fn send<W: Write>(
    writer: &mut W,
    bytes: &[u8],
    last: &mut io::Error,
) -> io::Result<usize>
    ensures counted { IfOk result (λ n. n ≡ length bytes.now) }
    ensures bytes { OnOk result (Appends (W.contents writer.old) (W.contents writer.new) bytes.now) }
    ensures retried { IfErr result (λ e. error_kind e ≢ ErrorKind.Interrupted) }
{
    let mut done = 0;
    let mut rest = bytes;
    for _ in 0..u64::MAX {
        if rest.is_empty() {
            return Ok(done);
        }
        match writer.write(rest) {
            Ok(0) => return Err(stuck()),
            Ok(n) => {
                done += n;
                rest = &rest[n..];
            }
            Err(e) => {
                *last = e;
                if !is_interrupted(&e) {
                    return Err(e);
                }
            }
        }
    }
    Err(ErrorKind::TimedOut.into())
}

// Hands on what became of bytes. A failure is said on standard error, by the last error.
fn told(rt: &impl Eprint, sent: io::Result<usize>, last: &io::Error) -> Sent
    ensures { result ≡ sent_of sent }
{
    match sent {
        Ok(count) => Ok(Taken { count }),
        Err(e) => {
            let why = Stop::behind(&e);
            if why == Stop::Failed {
                say_failure(rt, "standard output", last);
            }
            Err(Untaken { why })
        }
    }
}

// Hands bytes over to standard output.
pub fn put(rt: &(impl Print + Eprint), bytes: &[u8]) -> Sent
    ensures carries { Carries bytes.now result }
{
    let mut last = io::Error::from_raw_os_error(0);
    let sent = send(&mut io::writer(rt), bytes, &mut last);
    told(rt, sent, &last)
}
