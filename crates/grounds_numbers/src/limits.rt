// How many entries and pairs there may be, and how many numbers a run has for them. Their twins for contracts stand in specs/Limits.
use runs::limits::{PATTERNS, ROW, ROWS, STATEMENTS};

// The context's rows, and then the pattern rows.
pub const ENTRIES: usize = ROWS + PATTERNS;

// The numbers of a pair.
pub const PAIR: usize = 2;

// The numbers of the longest runs.
pub const ENTRY_RUN: usize = ENTRIES * ROW;

pub const PAIR_RUN: usize = STATEMENTS * PAIR;
