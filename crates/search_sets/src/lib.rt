// The steps of matching over one run of words: what the pattern rows and the variables can still be, before the next choice. No step leaves
// out an assignment that is sought.
#![tactic(auto)]

ghost use Rattle.std.specs.Prelude.{length};
ghost use Rattle.search_sets.specs.Places.{VariableIn, PairIn, KnownPair};
ghost use Rattle.search_sets.specs.Keeps.{Keeps, Steps, VariableRow, EqualRows};

use bits::meet;
use runs::limits::VARIABLES;
use words::{both_marked, copy, marked, narrow_both, set_at, some, tell};

pub mod parting;
pub mod rising;
pub mod sinking;
mod words;

// How many pattern rows have sets in the run, and of how many words each set is.
#[derive(Clone, Copy)]
pub struct Layout {
    pub count: usize,
    pub width: usize,
}

impl Layout {
    // A row that is a variable has the variable's candidates, and does not lie outside.
    pub fn row_from_candidates(&self, sets: &mut [u64], p: usize, v: usize)
        requires { VariableIn (length sets.old) self.now.count self.now.width p v }
        ensures { Keeps (VariableRow p v) self.now.count self.now.width sets.old sets.new }
    {
        copy(
            sets,
            set_at(self.width, p),
            set_at(self.width, self.count + v),
            self.width,
        );
        tell(sets, set_at(self.width, self.count + VARIABLES), p, false);
    }

    // The candidates of a variable are cut to what its row can be. No: none is left, so there is no breach.
    pub fn cut_candidates(&self, sets: &mut [u64], p: usize, v: usize) -> bool
        requires { VariableIn (length sets.old) self.now.count self.now.width p v }
        ensures { Steps (VariableRow p v) self.now.count self.now.width sets.old sets.new result }
    {
        let at = set_at(self.width, self.count + v);
        let flags = set_at(self.width, self.count + VARIABLES);
        if marked(sets, flags, p) {
            meet(sets, at, set_at(self.width, p), self.width);
        }
        some(sets, at, self.width)
    }

    // Two rows that are known get the set of what both can be. No: that is nothing.
    fn meet_known(&self, sets: &mut [u64], p: usize, q: usize) -> bool
        requires { KnownPair sets.old self.now.count self.now.width p q }
        ensures { Steps (EqualRows p q) self.now.count self.now.width sets.old sets.new result }
    {
        let flags = set_at(self.width, self.count + VARIABLES);
        let a = set_at(self.width, p);
        let b = set_at(self.width, q);
        let out = both_marked(sets, flags + 1, p, q);
        narrow_both(sets, flags, a, b, self.width, p, q, out);
        out || some(sets, a, self.width)
    }

    // Two rows of an equal literal can be what both can be. No: that is nothing, so there is no breach.
    pub fn meet_rows(&self, sets: &mut [u64], p: usize, q: usize) -> bool
        requires { PairIn (length sets.old) self.now.count self.now.width p q }
        ensures { Steps (EqualRows p q) self.now.count self.now.width sets.old sets.new result }
    {
        if p == q {
            return true;
        }
        if both_marked(sets, set_at(self.width, self.count + VARIABLES), p, q) {
            return self.meet_known(sets, p, q);
        }
        true
    }
}
