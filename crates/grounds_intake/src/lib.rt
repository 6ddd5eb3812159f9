// An input taken in pieces: a text, an assignment, and the steps and conclusions of its grounds.
#![tactic(auto)]

mod bytes;
mod lines;
mod notes;
mod opening;
mod spaces;

ghost use Rattle.std.specs.Prelude.{◌≡◌};
ghost use Rattle.grounds_intake.specs.Machine.{with_places, fresh, memory, after_step, after_line, taken, fed, finished, Becomes, EndsBy};

use grounds_steps::{STEPS, WORDS, put_step};
use grounds_verdict::Conclusions;
use runs::limits::{LITERALS, UNUSED, VARIABLES};
use spaces::{grow, put};

// Where the parser stands: in the text at a line's start, after a digit 0 there, or further on; in the 08 line; or in a line after it.
// No bytes lead to `Beyond`: there lines are taken as in the grounds, and a last line without its feed is not.
#[derive(Clone, Copy, Debug, PartialEq, Eq)]
pub enum Phase {
    Start,
    Zero,
    Inside,
    Assignment,
    Grounds,
    Beyond,
}

// The text: how many bytes it has, and where its last line begins.
#[derive(Clone, Copy)]
pub struct Head {
    pub phase: Phase,
    pub size: usize,
    pub start: usize,
}

// A line: the values of its digits, how many there are, and whether all are digits.
// No slice: the bytes come in pieces, and the parser keeps what it has of a line.
#[derive(Clone, Copy)]
pub struct Buffer {
    pub values: [u8; LINE],
    pub size: usize,
    pub good: bool,
}

// The conclusions, and for which literals there was one: any number but 0.
// No bools: a parser may be handed in with any number.
#[derive(Clone, Copy)]
pub struct Noted {
    pub conclusions: Conclusions,
    pub given: [u8; LITERALS],
}

#[derive(Clone, Copy)]
pub struct Parser {
    pub head: Head,
    pub line: Buffer,
    pub places: [u16; VARIABLES],
    pub steps: usize,
    pub noted: Noted,
}

// The first byte of a step's line and of a conclusion's, and how many digits such a line has.
const STEP: u8 = 176;

const STEP_DIGITS: usize = 50;

const CONCLUSION: u8 = 177;

const CONCLUSION_DIGITS: usize = 26;

// The most digits of a line that are kept: those of a step, and one more.
const LINE: usize = STEP_DIGITS + 1;

// The most steps that are taken, and one more.
const PAST_STEPS: usize = STEPS + 1;

// Nothing is taken yet.
pub fn start() -> Parser
    ensures starts { result ≡ fresh }
{
    Parser {
        head: Head {
            phase: Phase::Start,
            size: 0,
            start: 0,
        },
        line: Buffer::open(),
        places: [UNUSED; VARIABLES],
        steps: 0,
        noted: Noted::none(),
    }
}

impl Parser {
    // The 08 line ends.
    fn assign(&mut self)
        ensures { self.new ≡ with_places self.old }
    {
        self.places = self.line.places();
        self.line = Buffer::empty();
        self.head.phase = Phase::Grounds;
    }

    // A line that is no conclusion is a step.
    fn add_step(&mut self, steps: &mut [[u64; WORDS]])
        ensures { EndsBy after_step self.old steps.old self.new steps.new }
    {
        let x = self.line.word(0);
        let y = self.line.word(1);
        let z = self.line.word(2);
        put_step(steps, self.steps, x, y, z);
        self.steps = grow(self.steps, PAST_STEPS);
        self.line = Buffer::empty();
    }

    // A later line ends.
    fn end_line(&mut self, steps: &mut [[u64; WORDS]])
        ensures { EndsBy after_line self.old steps.old self.new steps.new }
    {
        if self.line.formed(CONCLUSION, CONCLUSION_DIGITS) {
            self.noted = self.noted.note(&self.line);
            self.line = Buffer::empty();
        } else {
            self.add_step(steps);
        }
    }

    fn take(&mut self, b: u8, text: &mut [u8], steps: &mut [[u64; WORDS]])
        ensures { Becomes (taken b (memory self.old text.old steps.old)) self.new text.new steps.new }
    {
        match (self.head.phase, b) {
            (Phase::Assignment, b'\n') => self.assign(),
            (Phase::Grounds | Phase::Beyond, b'\n') => self.end_line(steps),
            (Phase::Assignment | Phase::Grounds | Phase::Beyond, _) => self.line.push(b),
            _ => {
                put(text, self.head.size, b);
                self.head = self.head.after(b);
            }
        }
    }
}

// Takes one piece more.
pub fn feed(p: Parser, piece: &[u8], text: &mut [u8], steps: &mut [[u64; WORDS]]) -> Parser
    ensures feeds { Becomes (fed piece.now (memory p text.old steps.old)) result text.new steps.new }
{
    let mut q = p;
    for b in piece {
        q.take(*b, text, steps);
    }
    q
}

// Nothing follows: a line without its feed is a step.
pub fn finish(p: Parser, steps: &mut [[u64; WORDS]]) -> Parser
    ensures finishes { EndsBy finished p steps.old result steps.new }
{
    let mut q = p;
    if matches!(q.head.phase, Phase::Grounds) && q.line.size != 0 {
        q.line.good = false;
        q.add_step(steps);
    }
    q
}
