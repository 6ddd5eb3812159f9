// Lines that are written: the line that a program prints for a reply.
#![tactic(auto)]

pub mod hex;

ghost use Rattle.std.specs.Prelude.{◌≡◌, ◌≤◌, [], length, map, take};
ghost use Rattle.meaning.specs.Writing.{frame};
ghost use Rattle.meaning.specs.Replies.{breach, none, refused, refusal, printed};
ghost use Rattle.replies.specs.Told.{meant};
ghost use Rattle.reply_lines.specs.Pieces.{low8};
ghost use Rattle.reply_lines.specs.Prints.{Prints, line_by};

use hex::{FIELDS, high, low, put_frame};
use replies::{Outcome, Refusal};

// Bytes enough for the line of any reply.
pub const LINE_SPACE: usize = 32;

// The first `len` bytes are the line, and the others are 0. The bytes are an array, since nothing is allocated.
#[derive(Clone, Copy)]
pub struct Line {
    pub bytes: [u8; LINE_SPACE],
    pub len: usize,
    pub ghost within: { len ≤ length bytes },
}

impl Line {
    // The line alone.
    pub fn as_bytes(&self) -> &[u8]
        ensures { result.now ≡ take self.now.len self.now.bytes }
    {
        &self.bytes[..self.len]
    }
}

// The line of some fields, of which there are eight at most.
pub fn line_of(fields: [u8; FIELDS], n: usize) -> Line
    ensures { Prints (frame (take n fields)) result.bytes result.len }
{
    let mut bytes = [0; LINE_SPACE];
    let len = put_frame(fields, n.min(FIELDS), &mut bytes, 0);
    Line { bytes, len }
}

// A breach: the rows of n variables, of which there are four at most, each as its low byte.
pub fn breach_line(n: usize, rows: [u16; 4]) -> Line
    ensures { Prints (printed (breach (map low8 (take n rows)))) result.bytes result.len }
{
    let m = n.min(4);
    let fields = [
        8,
        m as u8,
        low(rows[0]),
        low(rows[1]),
        low(rows[2]),
        low(rows[3]),
        0,
        0,
    ];
    line_of(fields, m + 2)
}

pub fn none_line() -> Line
    ensures { Prints (printed none) result.bytes result.len }
{
    line_of([9, 0, 0, 0, 0, 0, 0, 0], 1)
}

// A refusal: its number, and two bytes each for the place and the offset.
pub fn refusal_line(x: Refusal) -> Line
    ensures { Prints (printed (refused (meant x))) result.bytes result.len }
{
    let fields = [
        10,
        x.number,
        high(x.line),
        low(x.line),
        high(x.offset),
        low(x.offset),
        0,
        0,
    ];
    line_of(fields, 6)
}

// Refusal 11, which the programs have.
pub fn over_line() -> Line
    ensures { Prints (printed (refused (refusal 11 0))) result.bytes result.len }
{
    refusal_line(Refusal {
        number: 11,
        line: 0,
        offset: 0,
    })
}

// No line at all.
pub fn no_line() -> Line
    ensures { Prints [] result.bytes result.len }
{
    Line {
        bytes: [0; LINE_SPACE],
        len: 0,
    }
}

// A reply.
pub fn reply_line(outcome: Outcome, places: [u16; 4]) -> Line
    ensures { Prints (line_by outcome places) result.bytes result.len }
{
    match outcome {
        Outcome::Breach(n) => breach_line(usize::from(n), places),
        Outcome::Clear => none_line(),
        Outcome::Refused(x) => refusal_line(x),
    }
}
