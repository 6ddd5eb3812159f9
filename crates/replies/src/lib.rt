// What is answered to a text: a refusal, or a reply with the rows of its variables.
#![tactic(auto)]

// The most bytes that a program takes; refusal 11 is for more.
pub const INPUT_LIMIT: usize = 16384;

// Which refusal, the line that it names, counted from 1, and the byte within that line, counted from 0.
// No enum for the number: a line is written for any number that a caller gives.
#[derive(Clone, Copy, PartialEq, Eq, Debug)]
pub struct Refusal {
    pub number: u8,
    pub line: u16,
    pub offset: u16,
}

// A breach of so many variables, none, or a refusal.
#[derive(Clone, Copy, PartialEq, Eq, Debug)]
pub enum Outcome {
    Breach(u8),
    Clear,
    Refused(Refusal),
}

// The rows of the variables stand beside the outcome, unused places 255: all four are handed over with every outcome.
// The places are told with every outcome, to programs in other languages too, so they stand beside it.
#[derive(Clone, Copy, PartialEq, Eq, Debug)]
pub struct Reply {
    pub outcome: Outcome,
    pub places: [u16; 4],
}
