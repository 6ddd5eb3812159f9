// The closing of a context that is lent as two runs: each row's representative, the lowest row that is equal to it. The runs and the table
// that is lent below `close` have any length.
#![tactic(auto)]

mod mates;
mod statements;
mod table;
mod wake;

ghost use Rattle.std.specs.Prelude.{◌≡◌, ◌≤◌, length};
ghost use Rattle.meaning.specs.Context.{differences_of};
ghost use Rattle.meaning.specs.Formed.{Fit};
ghost use Rattle.meaning.specs.Equality.{rep_at, Promise};
ghost use Rattle.meaning.specs.ByTable.{clash_of, apart_by};
ghost use Rattle.meaning.specs.Closing.{total, count as numbers};
ghost use Rattle.runs.specs.Runs.{row_count, rows_of, statements_of, context_of};
ghost use Rattle.runs.specs.Limits.{most_rows, most_statements};
ghost use Rattle.classes.specs.Claims.{Closes, clashing};
ghost use Rattle.classes.specs.Steps.{Laid, Pass, PassOn, Rounding};

use mates::join_rows;
use runs::fit::fit_context;
use runs::limits::{ROWS, STATEMENTS};
use runs::{row_count, said_count};
use statements::{apart_at, clash_at, difference_at, join_stated};
use table::{number, sum};
use wake::follow;

#[derive(Clone, Copy)]
pub enum Answer {
    Closed,
    Unfit,
}

// The table is held by value. Places past the rows hold their own numbers.
// The table says something under either answer, so the answer is no Result around it.
#[derive(Clone, Copy)]
pub struct Classes {
    pub answer: Answer,
    pub table: [u16; ROWS],
}

// The stated equations are joined. The answer is the sum of the representatives after that.
fn begin(rows: &[u16], said: &[u16], table: &mut [u16]) -> u32
    requires laid { Laid rows.now }
    requires fit { Fit (context_of rows.now said.now) }
    requires table_value { table.old ≡ numbers (row_count rows.now) 0 }
    ensures { Rounding rows.now said.now table.new result }
{
    join_stated(said, table);
    sum(table)
}

// A pass over the rows. The answer is the sum of the representatives after it.
// Beside pass_on: the contracts differ, since one that follows up need not find all.
fn pass(rows: &[u16], table: &mut [u16]) -> u32
    requires laid { Laid rows.now }
    requires table_len_bound { length table.old ≤ most_rows }
    ensures { Pass (rows_of rows.now) table.old table.new result }
{
    join_rows(rows, table);
    sum(table)
}

// The same for a pass that follows up its merges.
fn pass_on(rows: &[u16], table: &mut [u16]) -> u32
    requires laid { Laid rows.now }
    requires table_len_bound { length table.old ≤ most_rows }
    ensures { PassOn (rows_of rows.now) table.old table.new result }
{
    follow(rows, table);
    sum(table)
}

// A pass over the rows, and where the sum is not the old one, another that follows up its merges.
fn round(rows: &[u16], table: &mut [u16], old: u32) -> u32
    requires laid { Laid rows.now }
    requires table_len_bound { length table.old ≤ most_rows }
    requires value { old ≡ total (length table.old) (rep_at table.old) }
    ensures { Pass (rows_of rows.now) table.old table.new result }
{
    let fresh = pass(rows, table);
    if fresh == old {
        fresh
    } else {
        pass_on(rows, table)
    }
}

// The stated equations, and then passes over the rows till the sum of the representatives stays. Rows that have one representative keep it
// in common, so the equations are joined once. Most ledgers are done after a pass or two; where they are not, each further pass comes after
// one that follows up its merges.
// No `for`: the passes go on until one changes nothing.
fn settle(rows: &[u16], said: &[u16], table: &mut [u16])
    requires laid { Laid rows.now }
    requires fit { Fit (context_of rows.now said.now) }
    requires table_value { table.old ≡ numbers (row_count rows.now) 0 }
    ensures { Promise (context_of rows.now said.now) (row_count rows.now) table.new }
{
    let start = begin(rows, said, table);
    let mut old = pass(rows, table);
    if old == start {
        return;
    }
    loop {
        let fresh = round(rows, table, old);
        if fresh == old {
            return;
        }
        old = fresh;
    }
}

fn own() -> [u16; ROWS]
    ensures { result ≡ numbers most_rows 0 }
{
    let mut table = [0; ROWS];
    number(&mut table);
    table
}

// The representatives of the rows, or each place's own number where the runs are not fit.
pub fn close(rows: &[u16], said: &[u16]) -> Classes
    ensures closes { Closes most_rows most_statements rows.now said.now result.answer result.table }
{
    let mut table = own();
    if fit_context(rows, said, ROWS, STATEMENTS) {
        settle(rows, said, &mut table[..row_count(rows)]);
        Classes {
            answer: Answer::Closed,
            table,
        }
    } else {
        Classes {
            answer: Answer::Unfit,
            table,
        }
    }
}

// The first stated difference whose sides have one representative, counted from 0 among the differences.
pub fn clash(said: &[u16], table: &[u16]) -> Option<usize>
    ensures clashes { clashing result ≡ clash_of (rep_at table.now) (differences_of (statements_of said.now)) }
{
    let mut n: usize = 0;
    for k in 0..said_count(said) {
        if clash_at(said, table, k) {
            return Some(n);
        }
        n += difference_at(said, k);
    }
    None
}

// Whether the classes with the representatives a and b are kept apart by a stated difference.
pub fn apart(said: &[u16], table: &[u16], a: u16, b: u16) -> bool
    ensures keeps { result ≡ apart_by (rep_at table.now) (differences_of (statements_of said.now)) a b }
{
    for k in 0..said_count(said) {
        if apart_at(said, table, k, a, b) {
            return true;
        }
    }
    false
}
