// A closed table closed further, with the equation of two rows more, and whether the two sides of a stated difference become equal by it.
// The equation is two rows that are handed over, and no entry of the columns.
#![tactic(auto)]

mod busy;
mod orderly;
mod passes;

ghost use Rattle.std.specs.Prelude.{false, ◌≡◌};
ghost use Rattle.meaning.specs.Context.{differences_of};
ghost use Rattle.meaning.specs.Equality.{rep_at};
ghost use Rattle.meaning.specs.Following.{follows_by};
ghost use Rattle.columns.specs.Lent.{statements_in, Fits};
ghost use Rattle.further.specs.Claims.{FitsRows, Orderly, ClosesFrom, ClashesIn};
ghost use Rattle.further.specs.Marks.{MarksIn};

use busy::{mark_rows, mark_sides, marked};
use closing::table::at_row;
use closing::{Answer, Classes, apart, clash};
use columns::{Context, Statements, fit_context};
use orderly::{orderly, startable};
use passes::settle_with;

// The representatives of the rows by a table and the equation of rows x and y, or the table as it is where it is not orderly, or the columns
// are not fit, or x or y is no row.
pub fn close_with(context: &Context, table: [u16; 255], x: usize, y: usize) -> Classes
    ensures closes { ClosesFrom context.now table x y result }
{
    let mut classes = table;
    if !fit_context(context) {
        return Classes {
            answer: Answer::Unfit,
            table: classes,
        };
    }
    if !startable(&classes, context.terms.rows, x, y) {
        return Classes {
            answer: Answer::Unfit,
            table: classes,
        };
    }
    settle_with(&context.terms, &mut classes, x, y);
    Classes {
        answer: Answer::Closed,
        table: classes,
    }
}

// Whether the two sides of some stated difference have one representative.
fn follows(statements: &Statements, table: &[u16; 255]) -> bool
    ensures { result ≡ follows_by (rep_at table.now) (differences_of (statements_in statements.now)) }
{
    clash(statements, table).is_some()
}

// For each class 1 where it is busy, and else 0. Where the columns are not fit, or the sides of some difference have one representative, all
// are.
// Bytes and no bools: callers lend these marks.
pub fn busy_classes(context: &Context, table: &[u16; 255]) -> [u8; 255]
    ensures marks { MarksIn context.now table.now result }
{
    if !fit_context(context) {
        return [1; 255];
    }
    if follows(&context.statements, table) {
        return [1; 255];
    }
    let mut marks = [0; 255];
    mark_rows(&context.terms, table, &mut marks);
    mark_sides(&context.statements, table, &mut marks);
    marks
}

// Whether the equation of rows x and y would make the two sides of some stated difference equal. What is known of the classes settles most:
// a class that is not busy makes nothing equal but its rows and those of the other, and classes that are stated apart are such sides.
pub fn clashes_ready(
    context: &Context,
    table: &[u16; 255],
    busy: &[u8; 255],
    x: usize,
    y: usize,
) -> bool
    requires fit_rows { FitsRows context.now.terms }
    requires orderly { Orderly context.now.terms.rows table.now }
    ensures clashes { ClashesIn context.now table.now busy.now x y result }
{
    let rows = context.terms.rows;
    if rows <= x || rows <= y {
        return false;
    }
    let a = at_row(table, x);
    let b = at_row(table, y);
    if !marked(busy, usize::from(a)) {
        return false;
    }
    if !marked(busy, usize::from(b)) {
        return false;
    }
    if apart(&context.statements, table, a, b) {
        return true;
    }
    let mut further = *table;
    settle_with(&context.terms, &mut further, x, y);
    follows(&context.statements, &further)
}

// The same of any columns and any table: no where the columns are not fit or the table is not orderly.
pub fn clashes_with(
    context: &Context,
    table: &[u16; 255],
    busy: &[u8; 255],
    x: usize,
    y: usize,
) -> bool
    ensures clashes { ClashesIn context.now table.now busy.now x y result }
    ensures unfit { (Fits context.now → Orderly context.now.terms.rows table.now → ⊥) → result ≡ false }
{
    if !fit_context(context) {
        return false;
    }
    if !orderly(table, context.terms.rows) {
        return false;
    }
    clashes_ready(context, table, busy, x, y)
}
