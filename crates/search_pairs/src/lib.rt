// Whether two classes differ: adding their equation would make the two sides of some stated difference equal. What is known of the classes settles
// most pairs; else the equation is followed from the closed table and taken back.
#![tactic(auto)]

mod follow;
mod labels;
mod mates;
pub mod memo;
pub mod prepare;

ghost use Rattle.std.specs.Prelude.{◌≡◌, ◌<◌, ◌≤◌, length};
ghost use Rattle.runs.specs.Runs.{row_count};
ghost use Rattle.search_pairs.specs.Ready.{words_for, most_words, beside_at, apart_at, live_at};
ghost use Rattle.search_pairs.specs.Steps.{Laid, sets_size, Inside, Blank};
ghost use Rattle.search_pairs.specs.Lent.{Classes, TwoClasses, Open, Settled, Asked};

use bits::member;
use follow::take_back;
use labels::{Sets, start};
use mates::at_place;
use runs::row_count;

// A closed context: its rows, the table of its classes, and the sets that were prepared of them.
// No ghost field: its makers fill three public fields, and the contracts of each question say what is asked of them.
#[derive(Clone, Copy)]
pub struct Closed<'a> {
    pub rows: &'a [u16],
    pub table: &'a [u16],
    pub sets: &'a [u64],
}

// Whether a side of a stated difference is reached from class x through the rows over it.
pub(crate) fn is_live(sets: &[u64], n: usize, x: usize) -> bool
    requires n_bound { words_for n ≤ most_words }
    requires n_in_bounds { sets_size n ≤ length sets.now }
    requires x_lt_n { x < n }
    ensures { result ≡ live_at n sets.now x }
{
    member(sets, start(n, n + n + n), x)
}

impl<'a> Sets<'a> {
    // Whether the classes x and y are kept apart by a stated difference.
    fn kept_apart(&self, x: usize, y: usize) -> bool
        requires n_bound { words_for self.now.n ≤ most_words }
        requires n_in_bounds { sets_size self.now.n ≤ length self.now.sets.now }
        requires x_lt_n { (x < self.now.n) × (y < self.now.n) }
        ensures { result ≡ apart_at self.now.n self.now.sets.now x y }
    {
        member(self.sets, start(self.n, self.n + self.n + x), y)
    }

    // Whether class y stands beside class x at one place of one symbol.
    fn stand_beside(&self, x: usize, y: usize) -> bool
        requires n_bound { words_for self.now.n ≤ most_words }
        requires n_in_bounds { sets_size self.now.n ≤ length self.now.sets.now }
        requires x_lt_n { (x < self.now.n) × (y < self.now.n) }
        ensures { result ≡ beside_at self.now.n self.now.sets.now x y }
    {
        member(self.sets, start(self.n, self.n + x), y)
    }

    // Whether the equation of two classes has to be followed: they are not one, they stand beside each other, and one of them is live.
    fn open(&self, x: usize, y: usize) -> bool
        requires n_bound { words_for self.now.n ≤ most_words }
        requires n_in_bounds { sets_size self.now.n ≤ length self.now.sets.now }
        requires x_lt_n { (x < self.now.n) × (y < self.now.n) }
        ensures { Open self.now x y result }
    {
        if x == y {
            return false;
        }
        self.stand_beside(x, y) && (is_live(self.sets, self.n, x) || is_live(self.sets, self.n, y))
    }
}

// Labels and marks are no struct: calls lend both of them at once.
impl<'a> Closed<'a> {
    // The equation of two classes followed and taken back.
    fn tried(&self, labels: &mut [u16], work: &mut [u64], x: usize, y: usize) -> bool
        requires { TwoClasses self.now labels.old work.old x y }
        ensures { Settled self.now x y labels.new work.new result }
    {
        let r = self.follow(labels, work, x, y);
        take_back(labels, work, row_count(self.rows));
        r
    }

    // Whether two classes differ.
    fn settled(&self, labels: &mut [u16], work: &mut [u64], x: usize, y: usize) -> bool
        requires { Classes self.now labels.old work.old x y }
        ensures { Settled self.now x y labels.new work.new result }
    {
        let n = row_count(self.rows);
        let sets = Sets { sets: self.sets, n };
        if sets.kept_apart(x, y) {
            return true;
        }
        if !sets.open(x, y) {
            return false;
        }
        self.tried(labels, work, x, y)
    }

    // Whether rows a and b differ, without a memo. A number that is no row differs from nothing.
    pub fn ask_anew(&self, labels: &mut [u16], work: &mut [u64], a: usize, b: usize) -> bool
        requires laid { Laid self.now.rows.now }
        requires inside { Inside (row_count self.now.rows.now) self.now.table.now }
        requires rows_in_bounds { sets_size (row_count self.now.rows.now) ≤ length self.now.sets.now }
        requires blank { Blank (row_count self.now.rows.now) labels.old work.old }
        ensures { Asked self.now a b labels.new work.new result }
    {
        let n = row_count(self.rows);
        if n <= a || n <= b {
            return false;
        }
        self.settled(
            labels,
            work,
            at_place(self.table, a),
            at_place(self.table, b),
        )
    }
}
