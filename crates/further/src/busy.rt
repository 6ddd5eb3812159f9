// Which classes are busy: an argument of some row or a side of some stated difference has that class.
ghost use Rattle.std.specs.Prelude.{not, ◌≡◌, ◌*◌, ◌<◌, ◌≤◌, eqb, length, get_or, take, drop, replicate};
ghost use Rattle.meaning.specs.Context.{differences_of};
ghost use Rattle.meaning.specs.Equality.{rep_at};
ghost use Rattle.columns.specs.Lent.{statements_in};
ghost use Rattle.meaning.specs.Following.{among_by, side_by};
ghost use Rattle.closing.specs.Steps.{Roomy, Seated};
ghost use Rattle.further.specs.Marks.{Raised, Argued, sides_at};

use closing::mates::arg_class;
use closing::table::at_row;
use columns::{Statements, Terms};

// Whether class a is marked; past the last place none is.
pub(crate) fn marked(marks: &[u8; 255], a: usize) -> bool
    ensures { result ≡ not (eqb (get_or marks.now a 0) 0) }
{
    a < marks.len() && marks[a] != 0
}

// A class is marked.
fn mark(marks: &mut [u8; 255], class: usize)
    ensures { Raised (eqb class) marks.old marks.new }
{
    if class < marks.len() {
        marks[class] = 1;
    }
}

// The classes of the first count arguments of row i are marked.
fn mark_args(args: &[u16; 1020], table: &[u16; 255], marks: &mut [u8; 255], i: usize, count: usize)
    requires { Seated args.now i count }
    ensures { Raised (among_by (rep_at table.now) (take count (drop (i * 4) args.now))) marks.old marks.new }
{
    for k in 0..count {
        let class = arg_class(args, table, i * 4 + k);
        mark(marks, usize::from(class));
    }
}

pub(crate) fn mark_rows(terms: &Terms, table: &[u16; 255], marks: &mut [u8; 255])
    requires { Roomy terms.now }
    ensures { Argued terms.now.counts.now terms.now.args.now terms.now.rows table.now marks.old marks.new }
{
    for i in 0..terms.rows {
        mark_args(terms.args, table, marks, i, usize::from(terms.counts[i]));
    }
}

// The classes of the two sides are marked, where statement k is a difference.
fn mark_statement(statements: &Statements, table: &[u16; 255], marks: &mut [u8; 255], k: usize)
    requires { k < 510 }
    ensures { Raised (sides_at statements.now.kinds.now statements.now.lefts.now statements.now.rights.now table.now k) marks.old marks.new }
{
    if statements.is_equation(k) {
        return;
    }
    mark(
        marks,
        usize::from(at_row(table, usize::from(statements.lefts[k]))),
    );
    mark(
        marks,
        usize::from(at_row(table, usize::from(statements.rights[k]))),
    );
}

pub(crate) fn mark_sides(statements: &Statements, table: &[u16; 255], marks: &mut [u8; 255])
    requires { statements.now.count ≤ 510 }
    ensures { Raised (side_by (rep_at table.now) (differences_of (statements_in statements.now))) marks.old marks.new }
{
    for k in 0..statements.count {
        mark_statement(statements, table, marks, k);
    }
}
