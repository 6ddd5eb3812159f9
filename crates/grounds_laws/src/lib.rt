// How long the runs are in which steps are made and numbered anew. Their twins for contracts stand in specs/Limits.
#![tactic(auto)]

use grounds_numbers::limits::ENTRIES;
use grounds_steps::EACH;

// The numbers of a step on the way.
pub const DRAFT: usize = 7;

// A column of steps on the way: how many there are, and their numbers.
pub const DRAFT_RUN: usize = EACH * DRAFT + 1;

// A place for the number of each step, and one for 0, which is no step's.
pub const NUMBER_RUN: usize = EACH + 1;

// The numbers of an entry's class: its label, and the step that says so.
pub const CLASS: usize = 2;

pub const CLASS_RUN: usize = ENTRIES * CLASS;

// How many numbers of 16 bits there are.
pub const NUMBERS: usize = 65536;
