// Whether two rows differ, each pair of classes asked anew once: what was answered is noted, both ways round.
ghost use Rattle.std.specs.Prelude.{◌≡◌, ◌<◌, ◌≤◌, length};
ghost use Rattle.runs.specs.Runs.{row_count};
ghost use Rattle.search_pairs.specs.Steps.{Laid, sets_size, Inside, Blank};
ghost use Rattle.search_pairs.specs.Memo.{Knows, Sought, Paired, Places, Noted};
ghost use Rattle.search_pairs.specs.Lent.{Memo, Asking, Recalled};

use super::Closed;
use super::labels::start;
use super::mates::at_place;
use super::prepare::put;
use bits::member;
use runs::row_count;

// What is known of the classes x and y: whether they differ.
fn told(known: &[u64], n: usize, x: usize, y: usize) -> Option<bool>
    requires { Places n (length known.now) x y }
    ensures { Knows n known.now x y result }
{
    if !member(known, start(n, x), y) {
        return None;
    }
    Some(member(known, start(n, n + x), y))
}

// The classes x and y are put into each other's set, of n sets from a number on.
fn put_pair(known: &mut [u64], n: usize, base: usize, x: usize, y: usize)
    requires { Sought n (length known.old) base x y }
    ensures { Paired n base x y known.old known.new }
{
    put(known, n, base + x, y);
    put(known, n, base + y, x);
}

// An answer is noted.
fn note(known: &mut [u64], n: usize, x: usize, y: usize, r: bool)
    requires { Places n (length known.old) x y }
    ensures { Noted n x y r known.old known.new }
{
    put_pair(known, n, 0, x, y);
    if r {
        put_pair(known, n, n, x, y);
    }
}

impl<'a> Closed<'a> {
    // Two classes asked anew, and the answer noted.
    fn settle(
        &self,
        labels: &mut [u16],
        work: &mut [u64],
        known: &mut [u64],
        n: usize,
        x: usize,
        y: usize,
    ) -> bool
        requires { Asking self.now n labels.old work.old known.old x y }
        ensures { Recalled self.now x y labels.new work.new known.new result }
    {
        let r = self.ask_anew(labels, work, x, y);
        note(known, n, x, y, r);
        r
    }

    // Two classes, by the memo where it knows them.
    fn recall(
        &self,
        labels: &mut [u16],
        work: &mut [u64],
        known: &mut [u64],
        n: usize,
        x: usize,
        y: usize,
    ) -> bool
        requires { Asking self.now n labels.old work.old known.old x y }
        ensures { Recalled self.now x y labels.new work.new known.new result }
    {
        match told(known, n, x, y) {
            Some(r) => r,
            None => self.settle(labels, work, known, n, x, y),
        }
    }

    // Whether rows a and b differ. A number that is no row differs from nothing.
    pub fn ask(
        &self,
        labels: &mut [u16],
        work: &mut [u64],
        known: &mut [u64],
        a: usize,
        b: usize,
    ) -> bool
        requires laid { Laid self.now.rows.now }
        requires inside { Inside (row_count self.now.rows.now) self.now.table.now }
        requires rows_in_bounds { sets_size (row_count self.now.rows.now) ≤ length self.now.sets.now }
        requires blank { Blank (row_count self.now.rows.now) labels.old work.old }
        requires memo { Memo self.now known.old }
        ensures { Recalled self.now a b labels.new work.new known.new result }
    {
        let n = row_count(self.rows);
        if n <= a || n <= b {
            return false;
        }
        self.recall(
            labels,
            work,
            known,
            n,
            at_place(self.table, a),
            at_place(self.table, b),
        )
    }
}
