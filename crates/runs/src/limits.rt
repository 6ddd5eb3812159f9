// How much a text may hold, and how many numbers a run has for each piece of it. Their twins for contracts stand in specs/Limits.

pub const ROWS: usize = 255;

pub const EQUATIONS: usize = 255;

pub const DIFFERENCES: usize = 255;

pub const STATEMENTS: usize = EQUATIONS + DIFFERENCES;

pub const PATTERNS: usize = 64;

pub const LITERALS: usize = 16;

pub const VARIABLES: usize = 4;

// The numbers of a row, a statement, a pattern row and a literal, and the places for arguments.
pub const ROW: usize = 6;

pub const SAID: usize = 3;

pub const PATTERN: usize = 7;

pub const LITERAL: usize = 3;

pub const PLACES: usize = 4;

// The kinds as the runs hold them: of a statement, an equation and any other number a difference; of a pattern row, a variable and any other a
// symbol; of a literal, equal and any other unequal.
pub const EQUATION: u16 = 2;

pub const VARIABLE: u16 = 4;

pub const EQUAL: u16 = 6;

// The numbers of the longest runs.
pub const ROW_RUN: usize = ROWS * ROW;

pub const SAID_RUN: usize = STATEMENTS * SAID;

pub const PATTERN_RUN: usize = PATTERNS * PATTERN;

pub const LITERAL_RUN: usize = LITERALS * LITERAL;

// What stands for no row.
pub const UNUSED: u16 = 255;
