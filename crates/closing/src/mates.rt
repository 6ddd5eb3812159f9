// Rows that agree, found along chains.
// Rows and table are no struct: some of these write the table.
ghost use Rattle.std.specs.Prelude.{◌≡◌, ℕ, ◌<◌, ◌≤◌, get_or, replicate};
ghost use Rattle.meaning.specs.Equality.{rep_at};
ghost use Rattle.meaning.specs.Closing.{agree as agreed};
ghost use Rattle.columns.specs.Lent.{rows_in};
ghost use Rattle.closing.specs.Steps.{Roomy, Comparable, Seated, arg_reps, same_args, mix, key_of, one_more, Mate, Joined, Passed};

use super::table::{at_row, unite};
use columns::Terms;

// The representative of the row that stands at a place of the arguments.
pub fn arg_class(args: &[u16; 1020], table: &[u16; 255], at: usize) -> u16
    requires { at < 1020 }
    ensures { result ≡ rep_at table.now (get_or args.now at 0) }
{
    at_row(table, usize::from(args[at]))
}

// Whether the first count arguments of rows i and j have the same representatives.
fn same_args(args: &[u16; 1020], table: &[u16; 255], i: usize, j: usize, count: usize) -> bool
    requires { Comparable args.now i j count }
    ensures { result ≡ same_args args.now table.now i j count }
{
    for k in 0..count {
        if arg_class(args, table, i * 4 + k) != arg_class(args, table, j * 4 + k) {
            return false;
        }
    }
    true
}

// Whether rows i and j have one symbol, and arguments with the same representatives.
// No `&&`: the proof follows the three answers one by one.
pub(crate) fn agree(terms: &Terms, table: &[u16; 255], i: usize, j: usize) -> bool
    requires laid { Roomy terms.now }
    requires i_lt_rows { i < terms.now.rows }
    requires j_lt_rows { j < terms.now.rows }
    ensures { result ≡ agreed (rows_in terms.now) table.now i j }
{
    if terms.symbols[i] != terms.symbols[j] {
        return false;
    }
    if terms.counts[i] != terms.counts[j] {
        return false;
    }
    same_args(terms.args, table, i, j, usize::from(terms.counts[i]))
}

// The key s with the representatives of the first count arguments of row i mixed in.
fn mixed(args: &[u16; 1020], table: &[u16; 255], i: usize, count: usize, s: usize) -> usize
    requires seated { Seated args.now i count }
    requires s_bound { s < 256 }
    ensures { (result ≡ mix s (arg_reps args.now table.now i count)) × (result < 256) }
{
    let mut key = s;
    for k in 0..count {
        key = (key * 31 + usize::from(arg_class(args, table, i * 4 + k))) % 256;
    }
    key
}

// The chain of row i: rows with one symbol, and arguments with the same representatives, have one chain.
pub(crate) fn chain(terms: &Terms, table: &[u16; 255], i: usize) -> usize
    requires laid { Roomy terms.now }
    requires i_lt_rows { i < terms.now.rows }
    ensures { (result ≡ key_of (rows_in terms.now) table.now i) × (result < 256) }
{
    mixed(
        terms.args,
        table,
        i,
        usize::from(terms.counts[i]),
        (usize::from(terms.symbols[i]) * 37) % 256,
    )
}

// The first row that agrees with row i on the way along its chain, from one before head on.
fn mate(
    terms: &Terms,
    table: &[u16; 255],
    next: &[u16; 255],
    i: usize,
    head: usize,
) -> Option<usize>
    requires laid { Roomy terms.now }
    requires i_lt_rows { i < terms.now.rows }
    requires by_index { (j : ℕ) → j < i → get_or next.now j 0 ≤ j }
    requires head_le_i { head ≤ i }
    ensures { Mate (rows_in terms.now) table.now next.now i head (one_more result) }
{
    let mut at = head;
    // No iterator: each row of a chain leads to the next.
    while 0 < at {
        let j = at - 1;
        if agree(terms, table, i, j) {
            return Some(j);
        }
        at = usize::from(next[j]);
    }
    None
}

// Row i and its mate get one representative.
fn join_row(terms: &Terms, table: &mut [u16; 255], next: &[u16; 255], i: usize, head: usize)
    requires laid { Roomy terms.now }
    requires i_lt_rows { i < terms.now.rows }
    requires by_index { (j : ℕ) → j < i → get_or next.now j 0 ≤ j }
    requires head_le_i { head ≤ i }
    ensures { Joined (rows_in terms.now) next.now i head table.old table.new }
{
    if let Some(j) = mate(terms, table, next, i, head) {
        unite(table, i, j);
    }
}

// Each row and its mate get one representative. A chain's head is its last row, and next leads from a row to the one before it, each as one
// more than its number, or 0 where there is none. No Option: a row takes two bytes.
pub fn join_rows(terms: &Terms, table: &mut [u16; 255])
    requires { Roomy terms.now }
    ensures { Passed (rows_in terms.now) table.old table.new }
{
    let mut heads = [0; 256];
    let mut next = [0; 255];
    for i in 0..terms.rows {
        let b = chain(terms, table, i);
        let head = heads[b];
        join_row(terms, table, &next, i, usize::from(head));
        next[i] = head;
        heads[b] = (i + 1) as u16;
    }
}
