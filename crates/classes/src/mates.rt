// Rows that agree, found along chains.
// Rows and table are no struct: some of these write the table.
ghost use Rattle.std.specs.Prelude.{◌≡◌, ℕ, ◌<◌, ◌≤◌, get_or, replicate};
ghost use Rattle.meaning.specs.Equality.{rep_at};
ghost use Rattle.meaning.specs.Closing.{agree as agreed};
ghost use Rattle.runs.specs.Limits.{most_rows, arg_places};
ghost use Rattle.runs.specs.Runs.{row_count, arg_in, rows_of};
ghost use Rattle.classes.specs.Steps.{chains, Laid, Seated, arg_reps, same_arg, same_args, same_shape, mix, key_of, link_of, Mate, Joined, Bounded, Visited, Passed};

use super::table::{at_row, unite};
use runs::limits::ROWS;
use runs::{arg_in, count_in, row_count, symbol_in};

// Rows are kept on so many chains.
pub(crate) const CHAINS: usize = 256;

// The representative of argument k of row i.
pub(crate) fn arg_class(rows: &[u16], table: &[u16], i: usize, k: usize) -> u16
    requires i_bound { i < row_count rows.now }
    requires k_lt_arg_places { k < arg_places }
    ensures { result ≡ rep_at table.now (arg_in rows.now i k) }
{
    at_row(table, arg_in(rows, i, k))
}

// Whether argument k of rows i and j has one representative.
fn same_arg(rows: &[u16], table: &[u16], i: usize, j: usize, k: usize) -> bool
    requires i_bound { i < row_count rows.now }
    requires j_bound { j < row_count rows.now }
    requires k_lt_arg_places { k < arg_places }
    ensures { result ≡ same_arg rows.now table.now i j k }
{
    arg_class(rows, table, i, k) == arg_class(rows, table, j, k)
}

// Whether the first count arguments of rows i and j have the same representatives.
fn same_args(rows: &[u16], table: &[u16], i: usize, j: usize, count: usize) -> bool
    requires seated { Seated rows.now i count }
    requires seated_2 { Seated rows.now j count }
    ensures { result ≡ same_args rows.now table.now i j count }
{
    for k in 0..count {
        if !same_arg(rows, table, i, j, k) {
            return false;
        }
    }
    true
}

// Whether rows i and j have one symbol, and arguments in the same number.
// Beside the one of search_pairs: the crates above differ in what they say of it, and it is one line.
fn same_shape(rows: &[u16], i: usize, j: usize) -> bool
    requires i_bound { i < row_count rows.now }
    requires j_bound { j < row_count rows.now }
    ensures { result ≡ same_shape rows.now i j }
{
    symbol_in(rows, i) == symbol_in(rows, j) && count_in(rows, i) == count_in(rows, j)
}

// Whether rows i and j have one symbol, and arguments with the same representatives.
pub(crate) fn agree(rows: &[u16], table: &[u16], i: usize, j: usize) -> bool
    requires laid { Laid rows.now }
    requires i_bound { i < row_count rows.now }
    requires j_bound { j < row_count rows.now }
    ensures { result ≡ agreed (rows_of rows.now) table.now i j }
{
    same_shape(rows, i, j) && same_args(rows, table, i, j, count_in(rows, i))
}

// The key s with the representatives of the first count arguments of row i mixed in.
fn mixed(rows: &[u16], table: &[u16], i: usize, count: usize, s: usize) -> usize
    requires seated { Seated rows.now i count }
    requires s_lt_chains { s < chains }
    ensures { (result ≡ mix s (arg_reps rows.now table.now i count)) × (result < chains) }
{
    let mut key = s;
    for k in 0..count {
        key = (key * 31 + usize::from(arg_class(rows, table, i, k))) % CHAINS;
    }
    key
}

// The chain of row i: rows with one symbol, and arguments with the same representatives, have one chain.
pub(crate) fn chain(rows: &[u16], table: &[u16], i: usize) -> usize
    requires laid { Laid rows.now }
    requires i_bound { i < row_count rows.now }
    ensures { (result ≡ key_of (rows_of rows.now) table.now i) × (result < chains) }
{
    mixed(
        rows,
        table,
        i,
        count_in(rows, i),
        (usize::from(symbol_in(rows, i)) * 37) % CHAINS,
    )
}

// The row that a link leads to. A link is one more than a row's number, or 0 where there is none: two bytes, where an Option<u16> has four.
pub(crate) fn row_of(link: u16) -> Option<usize>
    ensures { link_of result ≡ link }
{
    usize::from(link).checked_sub(1)
}

// The first row that agrees with row i on the way along its chain.
fn mate(rows: &[u16], table: &[u16], next: &[u16; ROWS], i: usize, head: u16) -> Option<usize>
    requires laid { Laid rows.now }
    requires i_bound { i < row_count rows.now }
    requires by_index { (j : ℕ) → j < i → get_or next.now j 0 ≤ j }
    requires head_le_i { head ≤ i }
    ensures { Mate (rows_of rows.now) table.now next.now i head result }
{
    let mut at = row_of(head);
    // No iterator: each row of a chain leads to the next.
    while let Some(j) = at {
        if agree(rows, table, i, j) {
            return at;
        }
        at = row_of(next[j]);
    }
    None
}

// Row i and its mate get one representative.
fn join_row(rows: &[u16], table: &mut [u16], next: &[u16; ROWS], i: usize, head: u16)
    requires laid { Laid rows.now }
    requires i_bound { i < row_count rows.now }
    requires by_index { (j : ℕ) → j < i → get_or next.now j 0 ≤ j }
    requires head_le_i { head ≤ i }
    ensures { Joined (rows_of rows.now) next.now i head table.old table.new }
{
    if let Some(j) = mate(rows, table, next, i, head) {
        unite(table, i, j);
    }
}

// Row i and its mate get one representative, and row i becomes the head of its chain.
fn visit(
    rows: &[u16],
    table: &mut [u16],
    heads: &mut [u16; CHAINS],
    next: &mut [u16; ROWS],
    i: usize,
)
    requires laid { Laid rows.now }
    requires i_bound { i < row_count rows.now }
    requires bounded { Bounded heads.old next.old i }
    ensures { Visited (rows_of rows.now) i table.old table.new heads.old heads.new next.old next.new }
{
    let b = chain(rows, table, i);
    let head = heads[b];
    join_row(rows, table, next, i, head);
    next[i] = head;
    heads[b] = (i + 1) as u16;
}

// Each row and its mate get one representative. A chain's head is its last row, and next leads from a row to the one before it.
pub(crate) fn join_rows(rows: &[u16], table: &mut [u16])
    requires { Laid rows.now }
    ensures { Passed (rows_of rows.now) table.old table.new }
{
    let mut heads = [0; CHAINS];
    let mut next = [0; ROWS];
    for i in 0..row_count(rows) {
        visit(rows, table, &mut heads, &mut next, i);
    }
}
