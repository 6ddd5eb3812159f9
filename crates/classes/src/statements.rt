// The statements: equations joined, and differences read under a table.
ghost use Rattle.std.specs.Prelude.{◌≡◌, ◌<◌, ◌≤◌};
ghost use Rattle.meaning.specs.Closing.{upto};
ghost use Rattle.runs.specs.Runs.{said_count};
ghost use Rattle.classes.specs.Steps.{state_step, difference_at, clash_at, either_same, apart_at};

use super::table::{at_row, unite};
use runs::{is_equation, left_in, right_in, said_count};

// The rows of statement k get one representative, where it is an equation.
fn state(said: &[u16], table: &mut [u16], k: usize)
    requires { k < said_count said.now }
    ensures { table.new ≡ state_step said.now k table.old }
{
    if is_equation(said, k) {
        unite(table, left_in(said, k), right_in(said, k));
    }
}

// The rows of each stated equation get one representative.
pub(crate) fn join_stated(said: &[u16], table: &mut [u16])
    ensures { table.new ≡ upto (said_count said.now) (state_step said.now) table.old }
{
    for k in 0..said_count(said) {
        state(said, table, k);
    }
}

// 1 where statement k is a difference, and 0 where it is an equation.
pub(crate) fn difference_at(said: &[u16], k: usize) -> usize
    requires { k < said_count said.now }
    ensures { (result ≡ difference_at said.now k) × (result ≤ 1) }
{
    // No usize::from: the proof goes by the two kinds.
    if is_equation(said, k) { 0 } else { 1 }
}

// Whether statement k is a difference whose sides have one representative.
pub(crate) fn clash_at(said: &[u16], table: &[u16], k: usize) -> bool
    requires { k < said_count said.now }
    ensures { result ≡ clash_at said.now table.now k }
{
    !is_equation(said, k) && at_row(table, left_in(said, k)) == at_row(table, right_in(said, k))
}

fn either(a: u16, b: u16, p: u16, q: u16) -> bool
    ensures { result ≡ either_same a b p q }
{
    (a == p && b == q) || (b == p && a == q)
}

// Whether statement k is a difference whose sides have the representatives a and b, in either orientation.
pub(crate) fn apart_at(said: &[u16], table: &[u16], k: usize, a: u16, b: u16) -> bool
    requires { k < said_count said.now }
    ensures { result ≡ apart_at said.now table.now k a b }
{
    !is_equation(said, k)
        && either(
            a,
            b,
            at_row(table, left_in(said, k)),
            at_row(table, right_in(said, k)),
        )
}
