// One number for each term: the context's rows, and then the pattern rows under an assignment. Keys, numbers and pairs are lent as runs of any
// length. A key is six numbers, like a row, with the numbers of the arguments in the places for arguments.
// Flat numbers: the laws speak of a run.
#![tactic(auto)]

mod keys;
pub mod limits;
pub mod numbers;
pub mod pairs;
pub mod table;
