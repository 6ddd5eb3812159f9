// The sets of a context, made from its rows, its statements and the table of its classes: which rows are over a class, which classes stand beside
// each other, which are kept apart, and which are live.
ghost use Rattle.std.specs.Prelude.{false, ◌≡◌, ◌+◌, ◌*◌, ◌<◌, length};
ghost use Rattle.runs.specs.Fit.{Every, NamedAt};
ghost use Rattle.runs.specs.Runs.{row_count, said_count, count_in};
ghost use Rattle.search_pairs.specs.Ready.{Prepared};
ghost use Rattle.search_pairs.specs.Steps.{Laid, Inside, sets_size};
ghost use Rattle.search_pairs.specs.Prepare.{Seat, Put, Pair, OverPut, BesidePut, Alike, Telling, Told, Untold, ApartPut, LivePut};
ghost use Rattle.search_pairs.specs.Lent.{Base, RowIn, TwoRows, Matched, ArgIn, ArgClass, OverRow, BesideArgs, BesideRows, BesideRow, RowPlaced, Placed, LiveArgs, LiveRow, LivePass, Spread, Connected};

use super::is_live;
use super::labels::start;
use super::mates::at_place;
use bits::{empty, insert};
use runs::{arg_in, count_in, is_equation, left_in, right_in, row_count, said_count, symbol_in};

// The n rows of a context, and the table of their classes.
#[derive(Clone, Copy)]
struct Ledger<'a> {
    rows: &'a [u16],
    table: &'a [u16],
    n: usize,
}

// k is put into set s of n rows.
pub(crate) fn put(sets: &mut [u64], n: usize, s: usize, k: usize)
    requires { Seat n (length sets.old) s k }
    ensures { Put n s k sets.old sets.new }
{
    insert(sets, 0, start(n, s) * 64 + k);
}

// Row r is over class x.
fn put_over(sets: &mut [u64], n: usize, x: usize, r: usize)
    requires { Pair n (length sets.old) x r }
    ensures { OverPut n x r sets.old sets.new }
{
    put(sets, n, x, r);
}

// The classes x and y stand beside each other.
fn put_beside(sets: &mut [u64], n: usize, x: usize, y: usize)
    requires { Pair n (length sets.old) x y }
    ensures { BesidePut n x y sets.old sets.new }
{
    put(sets, n, n + x, y);
    put(sets, n, n + y, x);
}

// The classes x and y are kept apart, and live.
fn put_apart(sets: &mut [u64], n: usize, x: usize, y: usize)
    requires { Pair n (length sets.old) x y }
    ensures { ApartPut n x y sets.old sets.new }
{
    put(sets, n, n + n + x, y);
    put(sets, n, n + n + y, x);
    put(sets, n, n + n + n, x);
    put(sets, n, n + n + n, y);
}

// Class x is live. The answer is whether it was not.
fn put_live(sets: &mut [u64], n: usize, x: usize) -> bool
    requires { Pair n (length sets.old) x x }
    ensures { LivePut n x sets.old sets.new result }
{
    if is_live(sets, n, x) {
        return false;
    }
    put(sets, n, n + n + n, x);
    true
}

// Whether rows r and s have one symbol and one count.
// Beside the one of classes: the crates above differ in what they say of it, and it is one line.
fn alike(rows: &[u16], r: usize, s: usize) -> bool
    requires { (r < row_count rows.now) × (s < row_count rows.now) }
    ensures { Alike rows.now r s result }
{
    symbol_in(rows, r) == symbol_in(rows, s) && count_in(rows, r) == count_in(rows, s)
}

// Statement k, where it is a difference, keeps the classes of its sides apart.
fn tell(said: &[u16], table: &[u16], sets: &mut [u64], n: usize, k: usize)
    requires { Told n said.now table.now k sets.old }
    ensures { Telling n said.now table.now (k + 1) sets.new }
{
    if is_equation(said, k) {
        return;
    }
    let x = at_place(table, left_in(said, k));
    let y = at_place(table, right_in(said, k));
    put_apart(sets, n, x, y);
}

// Each statement.
fn tell_all(said: &[u16], table: &[u16], sets: &mut [u64], n: usize)
    requires { Untold n said.now table.now sets.old }
    ensures { Telling n said.now table.now (said_count said.now) sets.new }
{
    let m = said_count(said);
    for k in 0..m {
        tell(said, table, sets, n, k);
    }
}

// The sets of a context by the table of its classes.
pub fn prepare(rows: &[u16], said: &[u16], table: &[u16], sets: &mut [u64])
    requires laid { Laid rows.now }
    requires every { Every (said_count said.now) (NamedAt said.now (row_count rows.now)) }
    requires inside { Inside (row_count rows.now) table.now }
    requires sets_len { length sets.old ≡ sets_size (row_count rows.now) }
    ensures { Prepared rows.now said.now table.now sets.new }
{
    let n = row_count(rows);
    empty(sets);
    tell_all(said, table, sets, n);
    Ledger { rows, table, n }.connect(sets);
}

impl<'a> Ledger<'a> {
    // The class of argument k of row r.
    fn arg_class(&self, r: usize, k: usize) -> usize
        requires { ArgIn self.now r k }
        ensures { ArgClass self.now r k result }
    {
        at_place(self.table, arg_in(self.rows, r, k))
    }

    // Row r is over the classes of its arguments.
    fn over_row(&self, sets: &mut [u64], r: usize)
        requires { RowIn self.now (length sets.old) r }
        ensures { OverRow self.now r (count_in self.now.rows.now r) sets.old sets.new }
    {
        let count = count_in(self.rows, r);
        for k in 0..count {
            let x = self.arg_class(r, k);
            put_over(sets, self.n, x, r);
        }
    }

    // The arguments of rows r and s, place by place, stand beside each other.
    fn beside_args(&self, sets: &mut [u64], r: usize, s: usize)
        requires { Matched self.now (length sets.old) r s }
        ensures { BesideArgs self.now r s (count_in self.now.rows.now r) sets.old sets.new }
    {
        let count = count_in(self.rows, r);
        for k in 0..count {
            let x = self.arg_class(r, k);
            let y = self.arg_class(s, k);
            put_beside(sets, self.n, x, y);
        }
    }

    // The same where the rows are alike.
    fn beside_rows(&self, sets: &mut [u64], r: usize, s: usize)
        requires { TwoRows self.now (length sets.old) r s }
        ensures { BesideRows self.now r s sets.old sets.new }
    {
        if alike(self.rows, r, s) {
            self.beside_args(sets, r, s);
        }
    }

    // Row r with each row up to itself.
    fn beside_row(&self, sets: &mut [u64], r: usize)
        requires { RowIn self.now (length sets.old) r }
        ensures { BesideRow self.now r (r + 1) sets.old sets.new }
    {
        for s in 0..=r {
            self.beside_rows(sets, r, s);
        }
    }

    // Row r, over the classes of its arguments and beside each row up to itself.
    fn place_row(&self, sets: &mut [u64], r: usize)
        requires { RowIn self.now (length sets.old) r }
        ensures { RowPlaced self.now r sets.old sets.new }
    {
        self.over_row(sets, r);
        self.beside_row(sets, r);
    }

    // Each row.
    fn place_rows(&self, sets: &mut [u64])
        requires { Base self.now (length sets.old) }
        ensures { Placed self.now self.now.n sets.old sets.new }
    {
        for r in 0..self.n {
            self.place_row(sets, r);
        }
    }

    // The classes of row r's arguments are live. The answer is whether one was not.
    fn live_args(&self, sets: &mut [u64], r: usize) -> bool
        requires { RowIn self.now (length sets.old) r }
        ensures { LiveArgs self.now r (count_in self.now.rows.now r) sets.old sets.new result }
    {
        let count = count_in(self.rows, r);
        let mut added = false;
        for k in 0..count {
            let x = self.arg_class(r, k);
            added |= put_live(sets, self.n, x);
        }
        added
    }

    // The same where the row's class is live.
    fn live_row(&self, sets: &mut [u64], r: usize) -> bool
        requires { RowIn self.now (length sets.old) r }
        ensures { LiveRow self.now r sets.old sets.new result }
    {
        is_live(sets, self.n, at_place(self.table, r)) && self.live_args(sets, r)
    }

    // The same for each row, from the last to the first.
    fn live_pass(&self, sets: &mut [u64]) -> bool
        requires { Base self.now (length sets.old) }
        ensures { LivePass self.now 0 sets.old sets.new result }
    {
        let mut added = false;
        for r in (0..self.n).rev() {
            added |= self.live_row(sets, r);
        }
        added
    }

    // Passes until one adds nothing.
    fn spread(&self, sets: &mut [u64])
        requires { Base self.now (length sets.old) }
        ensures { Spread self.now sets.old sets.new }
    {
        while self.live_pass(sets) {}
    }

    // Each row is placed; then what is live.
    fn connect(&self, sets: &mut [u64])
        requires { Base self.now (length sets.old) }
        ensures { Connected self.now sets.old sets.new }
    {
        self.place_rows(sets);
        self.spread(sets);
    }
}
