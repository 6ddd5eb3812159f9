// Rows compared under labels of classes: a row's class is read from the table, and the label from the class.
ghost use Rattle.std.specs.Prelude.{◌≡◌, ◌<◌, ◌≤◌, length};
ghost use Rattle.meaning.specs.Equality.{rep_at};
ghost use Rattle.runs.specs.Limits.{arg_places};
ghost use Rattle.runs.specs.Runs.{row_count, arg_in, rows_of};
ghost use Rattle.search_pairs.specs.Steps.{Laid, Seated, Space, Labelled, Own, sets_size, Inside, label_by, same_args, agree_by, Differs, OverClass, OverLabel, Mate};

use super::Closed;
use super::labels::{next_class, next_member, start};
use runs::{arg_in, count_in, row_count, symbol_in};

// What a table holds at a place, and 0 past its end.
pub(crate) fn at_place(table: &[u16], i: usize) -> usize
    ensures { result ≡ rep_at table.now i }
{
    table.get(i).map_or(0, |x| usize::from(*x))
}

impl<'a> Closed<'a> {
    // The label of a row.
    pub(crate) fn label(&self, labels: &[u16], i: usize) -> usize
        ensures { result ≡ label_by self.now.table.now labels.now i }
    {
        at_place(labels, at_place(self.table, i))
    }

    // The label of argument k of row i.
    pub(crate) fn arg_label(&self, labels: &[u16], i: usize, k: usize) -> usize
        requires i_bound { i < row_count self.now.rows.now }
        requires k_lt_arg_places { k < arg_places }
        ensures { result ≡ label_by self.now.table.now labels.now (arg_in self.now.rows.now i k) }
    {
        self.label(labels, arg_in(self.rows, i, k))
    }

    // Whether the first count arguments of rows i and j have the same labels.
    fn same_args(&self, labels: &[u16], i: usize, j: usize, count: usize) -> bool
        requires seated { Seated self.now.rows.now i count }
        requires seated_2 { Seated self.now.rows.now j count }
        ensures { result ≡ same_args self.now.rows.now (label_by self.now.table.now labels.now) i j count }
    {
        for k in 0..count {
            if self.arg_label(labels, i, k) != self.arg_label(labels, j, k) {
                return false;
            }
        }
        true
    }

    // Whether rows i and j have one symbol, and arguments with the same labels.
    fn agree(&self, labels: &[u16], i: usize, j: usize) -> bool
        requires laid { Laid self.now.rows.now }
        requires i_bound { i < row_count self.now.rows.now }
        requires j_bound { j < row_count self.now.rows.now }
        ensures { result ≡ agree_by (label_by self.now.table.now labels.now) (rows_of self.now.rows.now) i j }
    {
        // Returns and no one expression: the count stands in a test and after it.
        if symbol_in(self.rows, i) != symbol_in(self.rows, j) {
            return false;
        }
        let count = count_in(self.rows, i);
        if count != count_in(self.rows, j) {
            return false;
        }
        self.same_args(labels, i, j, count)
    }

    // Whether row s agrees with row r and has another label.
    fn differs(&self, labels: &[u16], r: usize, s: usize) -> bool
        requires laid { Laid self.now.rows.now }
        requires r_bound { r < row_count self.now.rows.now }
        requires s_bound { s < row_count self.now.rows.now }
        ensures { Differs (rows_of self.now.rows.now) self.now.table.now labels.now r s result }
    {
        self.label(labels, r) != self.label(labels, s) && self.agree(labels, r, s)
    }

    // The first row over class a that agrees with row r and has another label.
    fn seek_over(&self, labels: &[u16], r: usize, a: usize) -> Option<usize>
        requires laid { Laid self.now.rows.now }
        requires rows_in_bounds { sets_size (row_count self.now.rows.now) ≤ length self.now.sets.now }
        requires r_bound { r < row_count self.now.rows.now }
        requires a_bound { a < row_count self.now.rows.now }
        ensures { OverClass self.now.rows.now self.now.table.now self.now.sets.now labels.now a r result }
    {
        let n = row_count(self.rows);
        let base = start(n, a);
        let mut from = 0;
        // No iterator: `next_class` has none.
        while let Some(s) = next_class(self.sets, base, n, from) {
            if self.differs(labels, r, s) {
                return Some(s);
            }
            from = s + 1;
        }
        None
    }

    // The same over the members of label z.
    fn seek(&self, labels: &[u16], work: &[u64], r: usize, z: usize) -> Option<usize>
        requires laid { Laid self.now.rows.now }
        requires rows_in_bounds { sets_size (row_count self.now.rows.now) ≤ length self.now.sets.now }
        requires space { Space (row_count self.now.rows.now) labels.now work.now }
        requires labelled { Labelled (row_count self.now.rows.now) labels.now work.now }
        requires r_bound { r < row_count self.now.rows.now }
        requires own { Own (row_count self.now.rows.now) labels.now z }
        ensures { OverLabel self.now.rows.now self.now.table.now self.now.sets.now labels.now z r result }
    {
        let n = row_count(self.rows);
        let mut from = 0;
        // No iterator: `next_member` has none.
        while let Some(k) = next_member(labels, work, n, z, from) {
            if let Some(s) = self.seek_over(labels, r, k) {
                return Some(s);
            }
            from = k + 1;
        }
        None
    }

    // A row that agrees with row r and has another label. It has a label's member where row r has one, so one place is enough.
    pub(crate) fn mate(&self, labels: &[u16], work: &[u64], r: usize) -> Option<usize>
        requires laid { Laid self.now.rows.now }
        requires rows_in_bounds { sets_size (row_count self.now.rows.now) ≤ length self.now.sets.now }
        requires space { Space (row_count self.now.rows.now) labels.now work.now }
        requires labelled { Labelled (row_count self.now.rows.now) labels.now work.now }
        requires inside { Inside (row_count self.now.rows.now) self.now.table.now }
        requires r_bound { r < row_count self.now.rows.now }
        ensures { Mate self.now.rows.now self.now.table.now self.now.sets.now labels.now r result }
    {
        if count_in(self.rows, r) == 0 {
            return None;
        }
        let z = self.arg_label(labels, r, 0);
        self.seek(labels, work, r, z)
    }
}
