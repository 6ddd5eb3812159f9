// Standard input and standard output, whole or not at all: a failure is told apart from the end of the input and from a reader that left.
#![tactic(auto)]

pub mod input;
pub mod output;
mod saying;
pub mod telling;
