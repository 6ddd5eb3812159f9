// What reading a text tells: that it is taken, or its refusal; and the runs that say its context and its rule.
#![tactic(auto)]

ghost use Rattle.std.specs.Prelude.{◌≡◌, ◌≤◌, length, take};

use replies::Refusal;
use runs::limits::{LITERAL_RUN, PATTERN_RUN, ROW_RUN, SAID_RUN};

// How many numbers of each run are filled.
#[derive(Clone, Copy)]
pub struct Filled {
    pub rows: usize,
    pub said: usize,
    pub patterns: usize,
    pub literals: usize,
}

// The places past those that are filled are 0.
// The runs are told of a refused text too (those of the empty text), so the answer is no Result around them. Fixed memory: arrays.
#[derive(Clone, Copy)]
pub struct Told {
    pub answer: Result<(), Refusal>,
    pub filled: Filled,
    pub rows: [u16; ROW_RUN],
    pub said: [u16; SAID_RUN],
    pub patterns: [u16; PATTERN_RUN],
    pub literals: [u16; LITERAL_RUN],
}

impl Told {
    // The rows that were read.
    // A method for each run, since the name says which it is.
    pub fn rows(&self) -> &[u16]
        requires { self.now.filled.rows ≤ length self.now.rows }
        ensures { result.now ≡ take self.now.filled.rows self.now.rows }
    {
        &self.rows[..self.filled.rows]
    }

    // The statements that were read.
    pub fn said(&self) -> &[u16]
        requires { self.now.filled.said ≤ length self.now.said }
        ensures { result.now ≡ take self.now.filled.said self.now.said }
    {
        &self.said[..self.filled.said]
    }

    // The pattern rows that were read.
    pub fn patterns(&self) -> &[u16]
        requires { self.now.filled.patterns ≤ length self.now.patterns }
        ensures { result.now ≡ take self.now.filled.patterns self.now.patterns }
    {
        &self.patterns[..self.filled.patterns]
    }

    // The literals that were read.
    pub fn literals(&self) -> &[u16]
        requires { self.now.filled.literals ≤ length self.now.literals }
        ensures { result.now ≡ take self.now.filled.literals self.now.literals }
    {
        &self.literals[..self.filled.literals]
    }
}
