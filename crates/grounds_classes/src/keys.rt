// All entries by their keys, a run like rows, and two of them.
ghost use Rattle.std.specs.Prelude.{◌≡◌, ℕ, ◌≤◌, ◌<◌, get_or};
ghost use Rattle.meaning.specs.ByTable.{same_list};
ghost use Rattle.runs.specs.Limits.{arg_places};
ghost use Rattle.runs.specs.Runs.{row_count, count_in, arg_in, args_in, rows_of};
ghost use Rattle.grounds_numbers.specs.Limits.{most_numbers};
ghost use Rattle.grounds_laws.specs.Rounds.{alike as alike_by};
ghost use Rattle.grounds_classes.specs.Settling.{one_argument, labels_of};

use super::rounds::same_label;
use runs::limits::ROW;
use runs::{count_in, row_count, symbol_in};

// The entries: their numbers fit 16 bits, and each has at most four arguments.
#[derive(Clone, Copy)]
pub(crate) struct Entries<'a> {
    pub keys: &'a [u16],
    ghost numbers: { row_count keys.now ≤ most_numbers },
    ghost few: { (x : ℕ) → x < row_count keys.now → count_in keys.now x ≤ arg_places },
}

impl<'a> Entries<'a> {
    // How many there are.
    pub(crate) fn count(self) -> usize
        ensures value { result ≡ row_count self.entry.keys.now }
        ensures few { result ≤ most_numbers }
    {
        row_count(self.keys)
    }

    // Place k of the arguments of entry x.
    fn place(self, x: usize, k: usize) -> u16
        requires x_inside { x < row_count self.keys.now }
        requires k_inside { k < arg_places }
        ensures { result ≡ arg_in self.entry.keys.now x k }
    {
        self.keys[x * ROW + 2 + k]
    }

    // Argument k of entry x, and 0 past the last.
    // No Option: what a step says of two arguments is read off both, and they may be of two lengths.
    pub(crate) fn argument(self, x: usize, k: usize) -> u16
        requires { x < row_count self.keys.now }
        ensures { result ≡ get_or (args_in self.entry.keys.now x) k 0 }
    {
        if k < count_in(self.keys, x) {
            self.place(x, k)
        } else {
            0
        }
    }
}

// Two of the entries.
#[derive(Clone, Copy)]
pub(crate) struct Two<'a> {
    pub entries: Entries<'a>,
    pub x: usize,
    pub y: usize,
    ghost x_inside: { x < row_count entries.keys.now },
    ghost y_inside: { y < row_count entries.keys.now },
}

impl<'a> Two<'a> {
    // Whether arguments k of the two have one label.
    fn same_arg(self, table: &[u16], k: usize) -> bool
        ensures { result ≡ one_argument self.entry.entries.keys.now table.now self.entry.x self.entry.y k }
    {
        let left = self.entries.argument(self.x, k);
        let right = self.entries.argument(self.y, k);
        same_label(table, left, right)
    }

    // Whether the arguments of the two, so many of each, have the same labels.
    fn same_args(self, table: &[u16], count: usize) -> bool
        requires x_value { count_in self.entries.keys.now self.x ≡ count }
        requires y_value { count_in self.entries.keys.now self.y ≡ count }
        ensures { result ≡ same_list (labels_of self.entry.entries.keys.now table.now self.entry.x) (labels_of self.entry.entries.keys.now table.now self.entry.y) }
    {
        for k in 0..count {
            if !self.same_arg(table, k) {
                return false;
            }
        }
        true
    }

    // Whether the two have one symbol, and arguments with the same labels.
    pub(crate) fn alike(self, table: &[u16]) -> bool
        ensures { result ≡ alike_by (rows_of self.entry.entries.keys.now) table.now self.entry.x self.entry.y }
    {
        let keys = self.entries.keys;
        let count = count_in(keys, self.x);
        symbol_in(keys, self.x) == symbol_in(keys, self.y)
            && count == count_in(keys, self.y)
            && self.same_args(table, count)
    }
}
