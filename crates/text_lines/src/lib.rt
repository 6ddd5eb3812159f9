// The lines of a text: digits, fields, and what the fields name.
#![tactic(auto)]

pub mod digits;
pub mod entries;
pub mod lines;
