// The closing of a context that is handed over in columns: each row's representative, the lowest row that is equal to it. Nothing here
// knows of texts.
// Beside classes, over runs: the search walks columns.
#![tactic(auto)]

pub mod mates;
mod statements;
pub mod table;
pub mod wake;

ghost use Rattle.std.specs.Prelude.{◌≡◌, ◌*◌, ◌≤◌, length};
ghost use Rattle.meaning.specs.Context.{differences_of};
ghost use Rattle.meaning.specs.Equality.{rep_at, Promise};
ghost use Rattle.meaning.specs.ByTable.{clash_of, apart_by};
ghost use Rattle.meaning.specs.Closing.{count as numbers};
ghost use Rattle.columns.specs.Lent.{statements_in, context_in, Fits};
ghost use Rattle.closing.specs.Claims.{ClosesIn, clashing};

use columns::{Context, Statements, fit_context};
use mates::join_rows;
use statements::{apart_at, clash_at, difference_at, join_stated};
use table::{own, sum};
use wake::follow;

#[derive(Clone, Copy)]
pub enum Answer {
    Closed,
    Unfit,
}

// No Option: the table says something of each place where the columns are unfit, too.
#[derive(Clone, Copy)]
pub struct Classes {
    pub answer: Answer,
    pub table: [u16; 255],
}

// The stated equations, and then passes over the rows till the sum of the representatives stays. Rows that have one representative keep it
// in common, so the equations are joined once. Most ledgers are done after a pass or two; where they are not, each further pass comes after
// one that follows up its merges.
// No `for`: the passes go on until one changes nothing.
fn settle(context: &Context, table: &mut [u16; 255])
    requires fit_context { Fits context.now }
    requires rows_in_bounds { context.now.terms.rows * 4 ≤ length context.now.terms.args.now }
    requires table_value { table.old ≡ numbers 255 0 }
    ensures { Promise (context_in context.now) 255 table.new }
{
    join_stated(&context.statements, table);
    let start = sum(table, context.terms.rows);
    join_rows(&context.terms, table);
    let mut old = sum(table, context.terms.rows);
    if old == start {
        return;
    }
    loop {
        join_rows(&context.terms, table);
        let fresh = sum(table, context.terms.rows);
        if fresh == old {
            return;
        }
        follow(&context.terms, table);
        old = sum(table, context.terms.rows);
    }
}

// The representatives of the rows, or each place's own number where the columns are not fit.
pub fn close(context: &Context) -> Classes
    ensures closes { ClosesIn context.now result }
{
    let mut table = own();
    if fit_context(context) {
        settle(context, &mut table);
        Classes {
            answer: Answer::Closed,
            table,
        }
    } else {
        Classes {
            answer: Answer::Unfit,
            table,
        }
    }
}

// The first stated difference whose sides have one representative, counted from 0 among the differences.
pub fn clash(statements: &Statements, table: &[u16; 255]) -> Option<u16>
    ensures clashes { clashing result ≡ clash_of (rep_at table.now) (differences_of (statements_in statements.now)) }
{
    let mut n: u16 = 0;
    for k in 0..statements.count {
        if clash_at(statements, table, k) {
            return Some(n);
        }
        n += difference_at(statements, k);
    }
    None
}

// Whether the classes with the representatives a and b are kept apart by a stated difference.
pub fn apart(statements: &Statements, table: &[u16; 255], a: u16, b: u16) -> bool
    ensures keeps { result ≡ apart_by (rep_at table.now) (differences_of (statements_in statements.now)) a b }
{
    for k in 0..statements.count {
        if apart_at(statements, table, k, a, b) {
            return true;
        }
    }
    false
}
