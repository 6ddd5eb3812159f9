// The values of pattern rows under a choice of rows, over chains of the context rows.
// Beside search_values, over runs: the search walks columns.
#![tactic(auto)]

pub mod chain;
pub mod value;
