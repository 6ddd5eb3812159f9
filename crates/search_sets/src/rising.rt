// What a row that is a symbol can be: the classes of the context rows that fit its arguments.
ghost use Rattle.std.specs.Prelude.{not, ◌&&◌, ◌≡◌, ◌+◌, ◌*◌, ◌<◌, ◌≤◌, length, get_or};
ghost use Rattle.bits.specs.Sets.{has};
ghost use Rattle.runs.specs.Limits.{most_patterns};
ghost use Rattle.runs.specs.Runs.{row_count, arg_in, pattern_count, pattern_count_in, pattern_arg_in};
ghost use Rattle.runs.specs.Fit.{Decides};
ghost use Rattle.search_sets.specs.Places.{known_at, most_words};
ghost use Rattle.search_sets.specs.Words.{Single};
ghost use Rattle.search_sets.specs.Keeps.{Keeps};
ghost use Rattle.search_sets.specs.Rising.{FixedAt};
ghost use Rattle.search_sets.specs.Lent.{RowsOf, Symbol, SameHead, RowAsk, HeadAsk, ArgAsk, FitsIn, Joins, Gathered, PatternAsk, KnownArgs, FixedArgs, KnownSymbol};

use super::words::{add, clear, marked, set_at, tell};
use bits::{lowest, member, next};
use runs::limits::VARIABLES;
use runs::{
    arg_in, count_in, head_in, pattern_arg_in, pattern_count, pattern_count_in, row_count,
    symbol_in,
};

// A context, the table of its classes and the pattern rows of a rule, with sets of `width` words.
#[derive(Clone, Copy)]
pub struct Symbols<'a> {
    pub rows: &'a [u16],
    pub table: &'a [u16],
    pub patterns: &'a [u16],
    pub width: usize,
}

pub(crate) fn entry(table: &[u16], i: usize) -> usize
    requires { i < length table.now }
    ensures { result ≡ get_or table.now i 0 }
{
    usize::from(table[i])
}

// Whether n words have one member at most.
fn single(words: &[u64], base: usize, n: usize) -> bool
    requires { (base + n ≤ length words.now) × (n ≤ most_words) }
    ensures { Single words.now base n result }
{
    match lowest(words, base, n) {
        Some(first) => next(words, base, n, first + 1).is_none(),
        None => true,
    }
}

// Whether a row does not lie outside and has one class at most.
fn arg_fixed(sets: &[u64], at: usize, base: usize, width: usize, a: usize) -> bool
    requires { (at < length sets.now) × (base + width ≤ length sets.now) × (width ≤ most_words) × (a < 64) }
    ensures { FixedAt sets.now at base width a result }
{
    !marked(sets, at, a) && single(sets, base, width)
}

fn outside_unless(fixed: bool, found: bool) -> bool
    ensures { result ≡ not (fixed && found) }
{
    !(fixed && found)
}

impl<'a> Symbols<'a> {
    // Whether the k-th argument of row p can have the class of the k-th argument of context row i.
    fn arg_fits(&self, sets: &[u64], p: usize, i: usize, k: usize) -> bool
        requires { ArgAsk self.now (length sets.now) p i k }
        ensures { result ≡ has sets.now (pattern_arg_in self.now.patterns.now p k * self.now.width) (get_or self.now.table.now (arg_in self.now.rows.now i k) 0) }
    {
        let c = entry(self.table, arg_in(self.rows, i, k));
        let at = set_at(self.width, pattern_arg_in(self.patterns, p, k));
        member(sets, at, c)
    }

    // Whether context row i has the symbol of row p, over as many arguments.
    fn same_head(&self, p: usize, i: usize) -> bool
        requires { (i < row_count self.now.rows.now) × (p < pattern_count self.now.patterns.now) }
        ensures { Decides result (SameHead self.now p i) }
    {
        symbol_in(self.rows, i) == head_in(self.patterns, p)
            && count_in(self.rows, i) == pattern_count_in(self.patterns, p)
    }

    // Whether a context row with the symbol of row p has classes that the arguments of row p can have.
    fn args_fit(&self, sets: &[u64], p: usize, i: usize) -> bool
        requires { HeadAsk self.now (length sets.now) p i }
        ensures { Decides result (FitsIn self.now sets.now p i) }
    {
        let n = count_in(self.rows, i);
        for k in 0..n {
            if !self.arg_fits(sets, p, i, k) {
                return false;
            }
        }
        true
    }

    // Whether context row i has the symbol of row p, over classes that the arguments of row p can have.
    pub(crate) fn fits(&self, sets: &[u64], p: usize, i: usize) -> bool
        requires { RowAsk self.now (length sets.now) p i }
        ensures { Decides result (FitsIn self.now sets.now p i) }
    {
        self.same_head(p, i) && self.args_fit(sets, p, i)
    }

    // The class of context row i is put into row p's set where it fits.
    fn join_row(&self, sets: &mut [u64], p: usize, i: usize) -> bool
        requires { RowAsk self.now (length sets.old) p i }
        ensures { Joins self.now sets.old sets.new p i result }
    {
        if self.fits(sets, p, i) {
            add(sets, set_at(self.width, p), entry(self.table, i));
            return true;
        }
        false
    }

    // The classes of all context rows that fit. The answer is whether one does.
    fn gather(&self, sets: &mut [u64], p: usize) -> bool
        requires { Symbol self.now (length sets.old) p }
        ensures { Gathered self.now sets.old sets.new p (row_count self.now.rows.now) result }
    {
        let n = row_count(self.rows);
        let mut found = false;
        for i in 0..n {
            found |= self.join_row(sets, p, i);
        }
        found
    }

    // The same, with nothing in row p's set before.
    fn gather_anew(&self, sets: &mut [u64], p: usize) -> bool
        requires { Symbol self.now (length sets.old) p }
        ensures { Gathered self.now sets.old sets.new p (row_count self.now.rows.now) result }
    {
        clear(sets, set_at(self.width, p), self.width);
        self.gather(sets, p)
    }

    // Where the flags stand.
    pub(crate) fn flags_at(&self) -> usize
        requires { (self.now.width ≤ most_words) × (pattern_count self.now.patterns.now ≤ most_patterns) }
        ensures { result ≡ known_at (pattern_count self.now.patterns.now) self.now.width }
    {
        set_at(self.width, pattern_count(self.patterns) + VARIABLES)
    }

    // Whether the words of all arguments of row p count.
    pub(crate) fn args_known(&self, sets: &[u64], p: usize) -> bool
        requires { PatternAsk self.now (length sets.now) p }
        ensures { KnownArgs self.now sets.now p (pattern_count_in self.now.patterns.now p) result }
    {
        let flags = self.flags_at();
        let n = pattern_count_in(self.patterns, p);
        for k in 0..n {
            if !marked(sets, flags, pattern_arg_in(self.patterns, p, k)) {
                return false;
            }
        }
        true
    }

    // Whether all arguments of row p do so.
    fn args_fixed(&self, sets: &[u64], p: usize) -> bool
        requires { PatternAsk self.now (length sets.now) p }
        ensures { FixedArgs self.now sets.now p (pattern_count_in self.now.patterns.now p) result }
    {
        let at = self.flags_at() + 1;
        let n = pattern_count_in(self.patterns, p);
        for k in 0..n {
            let a = pattern_arg_in(self.patterns, p, k);
            if !arg_fixed(sets, at, set_at(self.width, a), self.width, a) {
                return false;
            }
        }
        true
    }

    // Row p, whose arguments are known, has the classes of the context rows that fit. It lies inside only where its arguments are fixed and one fits.
    fn rise_known(&self, sets: &mut [u64], p: usize)
        requires { KnownSymbol self.now sets.old p }
        ensures { Keeps (RowsOf self.now) (pattern_count self.now.patterns.now) self.now.width sets.old sets.new }
    {
        let fixed = self.args_fixed(sets, p);
        let flags = self.flags_at();
        let found = self.gather_anew(sets, p);
        tell(sets, flags, p, outside_unless(fixed, found));
    }

    // The same of any row that is a symbol; nothing is changed where an argument is not known.
    pub fn rise_row(&self, sets: &mut [u64], p: usize)
        requires { Symbol self.now (length sets.old) p }
        ensures { Keeps (RowsOf self.now) (pattern_count self.now.patterns.now) self.now.width sets.old sets.new }
    {
        if self.args_known(sets, p) {
            self.rise_known(sets, p);
        }
    }
}
