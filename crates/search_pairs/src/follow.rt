// One equation followed from a closed table, and taken back.
ghost use Rattle.search_pairs.specs.Steps.{Space, Labelled, Blank, Owned};
ghost use Rattle.search_pairs.specs.Lent.{TurnAt, Turned, TwoClasses, Followed};

use super::Closed;
use super::labels::{Sets, next_class, words};
use bits::{empty, remove};
use runs::row_count;

// The classes that have another one's label get their own.
fn own_labels(labels: &mut [u16], work: &[u64], n: usize)
    requires space { Space n labels.old work.now }
    requires labelled { Labelled n labels.old work.now }
    ensures { Owned n labels.old labels.new }
{
    let w = words(n);
    let mut from = 0;
    // No iterator: `next_class` has none.
    while let Some(k) = next_class(work, w, n, from) {
        labels[k] = k as u16;
        from = k + 1;
    }
}

// Each label is its own again, and nothing is marked.
pub(crate) fn take_back(labels: &mut [u16], work: &mut [u64], n: usize)
    requires space { Space n labels.old work.old }
    requires labelled { Labelled n labels.old work.old }
    ensures { Blank n labels.new work.new }
{
    own_labels(labels, work, n);
    empty(work);
}

impl<'a> Closed<'a> {
    // One marked row: where nothing agrees with it that has another label, it is marked no more; else the two labels become one. The answer is whether
    // members of them are kept apart.
    fn turn(&self, labels: &mut [u16], work: &mut [u64], r: usize) -> bool
        requires { TurnAt self.now labels.old work.old r }
        ensures { Turned self.now labels.old work.old labels.new work.new result }
    {
        let Some(s) = self.mate(labels, work, r) else {
            remove(work, 0, r);
            return false;
        };
        let n = row_count(self.rows);
        let x = self.label(labels, r);
        let y = self.label(labels, s);
        Sets { sets: self.sets, n }.meet(labels, work, x, y)
    }

    // Whether the equation of the classes x and y makes the sides of a difference equal. Labels and marks stay as they are at the end.
    pub(crate) fn follow(&self, labels: &mut [u16], work: &mut [u64], x: usize, y: usize) -> bool
        requires { TwoClasses self.now labels.old work.old x y }
        ensures { Followed self.now x y labels.new work.new result }
    {
        let n = row_count(self.rows);
        if (Sets { sets: self.sets, n }).meet(labels, work, x, y) {
            return true;
        }
        // No iterator: each turn writes the words that the loop walks, and the walk begins anew.
        while let Some(r) = next_class(work, 0, n, 0) {
            if self.turn(labels, work, r) {
                return true;
            }
        }
        false
    }
}
