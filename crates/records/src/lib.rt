// The closing and the finder for callers whose table is records, one for each row, lent together: they are laid out in runs, and the functions
// over runs do the rest.
#![tactic(auto)]

pub mod finding;
mod laying;

ghost use Rattle.std.specs.Prelude.{◌++◌, ◌≡◌, ◌≤◌, length, take, drop, replicate};
ghost use Rattle.runs.specs.Limits.{most_rows};
ghost use Rattle.records.specs.Records.{no_row};
ghost use Rattle.records.specs.Layouts.{room, list_of};
ghost use Rattle.records.specs.Claims.{ClosedTable, FindsTable, FindsRows, ClosedRows};

use classes::Classes;
use finding::find_runs;
use laying::{literals_run, many, patterns_run, rows_run, said_run};
use replies::Reply;
use runs::limits::{LITERAL, LITERALS, PATTERN, PATTERNS, PLACES, ROW, ROWS, SAID, STATEMENTS};

// A symbol, how many arguments, and four places for them, of which those from the count on are not read.
#[repr(C)]
#[derive(Clone, Copy)]
pub struct Row {
    pub symbol: u16,
    pub count: u8,
    pub args: [u16; PLACES],
}

// Statements with their kind, 2 or 3, in order; how many.
// The C interface has these columns.
#[repr(C)]
#[derive(Clone, Copy)]
pub struct Statements {
    pub kinds: [u8; STATEMENTS],
    pub lefts: [u16; STATEMENTS],
    pub rights: [u16; STATEMENTS],
    pub count: usize,
}

// The places for arguments of all pattern rows.
const SUBS: usize = PATTERNS * PLACES;

// A rule in columns: pattern rows with their kind, 4 or 5, a head, a count and four places for arguments; literals with their kind, 6 or 7; how many of each.
// The C interface has these columns.
#[repr(C)]
#[derive(Clone, Copy)]
pub struct ClauseColumns {
    pub patterns: usize,
    pub kinds: [u8; PATTERNS],
    pub heads: [u16; PATTERNS],
    pub counts: [u8; PATTERNS],
    pub args: [u16; SUBS],
    pub literals: usize,
    pub signs: [u8; LITERALS],
    pub lefts: [u16; LITERALS],
    pub rights: [u16; LITERALS],
}

// Records by value, unused places blank; how many.
// Fixed memory, no heap: an array, and how many of its places are told.
#[derive(Clone, Copy)]
pub struct Table {
    pub rows: [Row; ROWS],
    pub count: usize,
}

// As many as there is room for: all, or none of too many.
// 0 and no Option: it is how many are copied.
fn within(n: usize) -> usize
    ensures { result ≡ room n }
{
    if ROWS < n { 0 } else { n }
}

fn blank() -> [Row; ROWS]
    ensures { result ≡ replicate most_rows no_row }
{
    let row = Row {
        symbol: 0,
        count: 0,
        args: [0; PLACES],
    };
    [row; ROWS]
}

// The first n places become the first n records.
fn copied(rows: &[Row], n: usize, to: [Row; ROWS]) -> [Row; ROWS]
    requires n_in_bounds { n ≤ length rows.now }
    requires n_le_most_rows { n ≤ most_rows }
    ensures { result ≡ take n rows.now ++ drop n to }
{
    let mut all = to;
    all[..n].copy_from_slice(&rows[..n]);
    all
}

// The records by value.
pub fn listed(rows: &[Row]) -> Table
    ensures { result ≡ list_of rows.now }
{
    let count = rows.len();
    Table {
        rows: copied(rows, within(count), blank()),
        count,
    }
}

// The representatives of the rows of a table.
pub(crate) fn close_table(t: Table, s: Statements) -> Classes
    ensures closes { ClosedTable t s result }
{
    let n = many(t.count, ROWS) * ROW;
    let m = many(s.count, STATEMENTS) * SAID;
    let rows = rows_run(t);
    let said = said_run(s);
    classes::close(&rows[..n], &said[..m])
}

// The first breach of a rule in a table, none, a refusal, or no reply.
pub(crate) fn find_table(t: Table, s: Statements, k: ClauseColumns) -> Option<Reply>
    ensures finds { FindsTable t s k result }
{
    let n = many(t.count, ROWS) * ROW;
    let m = many(s.count, STATEMENTS) * SAID;
    let p = many(k.patterns, PATTERNS) * PATTERN;
    let q = many(k.literals, LITERALS) * LITERAL;
    let rows = rows_run(t);
    let said = said_run(s);
    let patterns = patterns_run(k);
    let literals = literals_run(k);
    find_runs(&rows[..n], &said[..m], &patterns[..p], &literals[..q])
}

// The representatives of the rows, or each place's own number where the records or the statements are not well-formed.
pub fn close(rows: &[Row], s: Statements) -> Classes
    ensures closes { ClosedRows rows.now s result }
{
    close_table(listed(rows), s)
}

// The first breach of a rule, none, or refusal 8 or 9. There is no reply where something is not well-formed.
pub fn find(rows: &[Row], s: Statements, k: ClauseColumns) -> Option<Reply>
    ensures finds { FindsRows rows.now s k result }
{
    find_table(listed(rows), s, k)
}
