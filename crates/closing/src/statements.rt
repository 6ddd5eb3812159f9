// The statements: equations joined, and differences read under a table.
ghost use Rattle.std.specs.Prelude.{◌≡◌, ◌<◌, ◌≤◌};
ghost use Rattle.meaning.specs.Closing.{upto};
ghost use Rattle.closing.specs.Steps.{state_step, Read, SideClass, difference_at, ClashAt, both_same, either_same, apart_at};

use super::table::{at_row, unite};
use columns::Statements;

// The rows of statement k get one representative, where it is an equation.
fn state(statements: &Statements, table: &mut [u16; 255], k: usize)
    requires { k < 510 }
    ensures { table.new ≡ state_step statements.now.kinds.now statements.now.lefts.now statements.now.rights.now k table.old }
{
    if statements.is_equation(k) {
        unite(
            table,
            usize::from(statements.lefts[k]),
            usize::from(statements.rights[k]),
        );
    }
}

// The rows of each stated equation get one representative.
pub(crate) fn join_stated(statements: &Statements, table: &mut [u16; 255])
    requires { statements.now.count ≤ 510 }
    ensures { table.new ≡ upto statements.now.count (state_step statements.now.kinds.now statements.now.lefts.now statements.now.rights.now) table.old }
{
    for k in 0..statements.count {
        state(statements, table, k);
    }
}

// What a column holds for a side of statement k, and 0 past its end.
// Beside at_row: arrays of two sizes, and the one line is the contract.
fn side_at(sides: &[u16; 510], k: usize) -> u16
    ensures { Read sides.now k result }
{
    if k < sides.len() { sides[k] } else { 0 }
}

// The representative of a side of statement k.
fn side_class(sides: &[u16; 510], table: &[u16; 255], k: usize) -> u16
    ensures { SideClass sides.now table.now k result }
{
    at_row(table, usize::from(side_at(sides, k)))
}

// 1 where statement k is a difference, and 0 where it is an equation.
pub(crate) fn difference_at(statements: &Statements, k: usize) -> u16
    ensures { (result ≡ difference_at statements.now.kinds.now k) × (result ≤ 1) }
{
    if statements.is_equation(k) { 0 } else { 1 }
}

// Whether statement k is a difference whose sides have one representative.
pub(crate) fn clash_at(statements: &Statements, table: &[u16; 255], k: usize) -> bool
    ensures { ClashAt statements.now.kinds.now statements.now.lefts.now statements.now.rights.now table.now k result }
{
    !statements.is_equation(k)
        && side_class(statements.lefts, table, k) == side_class(statements.rights, table, k)
}

fn both(a: u16, b: u16, p: u16, q: u16) -> bool
    ensures { result ≡ both_same a b p q }
{
    a == p && b == q
}

fn either(a: u16, b: u16, p: u16, q: u16) -> bool
    ensures { result ≡ either_same a b p q }
{
    both(a, b, p, q) || both(b, a, p, q)
}

// Whether statement k is a difference whose sides have the representatives a and b, in either orientation.
pub(crate) fn apart_at(
    statements: &Statements,
    table: &[u16; 255],
    k: usize,
    a: u16,
    b: u16,
) -> bool
    ensures { result ≡ apart_at statements.now.kinds.now statements.now.lefts.now statements.now.rights.now table.now k a b }
{
    !statements.is_equation(k)
        && either(
            a,
            b,
            side_class(statements.lefts, table, k),
            side_class(statements.rights, table, k),
        )
}
