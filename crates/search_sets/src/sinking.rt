// What the arguments of a row inside the table can be: those of the context rows that fit and have a class of the row.
ghost use Rattle.std.specs.Prelude.{◌+◌, ◌<◌, length};
ghost use Rattle.runs.specs.Runs.{row_count, count_in, pattern_count, pattern_count_in};
ghost use Rattle.runs.specs.Fit.{Decides};
ghost use Rattle.search_sets.specs.Keeps.{Steps};
ghost use Rattle.search_sets.specs.Lent.{RowsOf, PatternAsk, RowAsk, SinkAsk, SinkRowAsk, TableRow, AddAsk, AddArgAsk, AddsArg, AddsArgs, Sees, Seen, Looked, CutArgAsk, CutsArg, CutsArgs, CutsAsk, InsideBy, Inside, Enters};

use super::rising::{Symbols, entry};
use super::words::{add, clear, cut_row, marked, set_at};
use bits::member;
use runs::limits::PLACES;
use runs::{arg_in, count_in, pattern_arg_in, pattern_count_in, row_count};

impl<'a> Symbols<'a> {
    // Whether context row i fits and has a class of row p.
    fn in_table(&self, sets: &[u64], p: usize, i: usize) -> bool
        requires { RowAsk self.now (length sets.now) p i }
        ensures { Decides result (TableRow self.now sets.now p i) }
    {
        member(sets, set_at(self.width, p), entry(self.table, i)) && self.fits(sets, p, i)
    }

    // The class of the k-th argument of context row i is put into the k-th set of the scratch.
    fn add_arg(&self, scratch: &mut [u64], i: usize, k: usize)
        requires { AddArgAsk self.now (length scratch.old) i k }
        ensures { AddsArg self.now scratch.old scratch.new i k }
    {
        let c = entry(self.table, arg_in(self.rows, i, k));
        add(scratch, set_at(self.width, k), c);
    }

    fn add_args(&self, scratch: &mut [u64], i: usize)
        requires { AddAsk self.now (length scratch.old) i }
        ensures { AddsArgs self.now scratch.old scratch.new i (count_in self.now.rows.now i) }
    {
        let n = count_in(self.rows, i);
        for k in 0..n {
            self.add_arg(scratch, i, k);
        }
    }

    // The same where context row i fits and has a class of row p.
    fn see_row(&self, sets: &[u64], scratch: &mut [u64], p: usize, i: usize) -> bool
        requires { SinkRowAsk self.now (length sets.now) (length scratch.old) p i }
        ensures { Sees self.now sets.now scratch.old scratch.new p i result }
    {
        if self.in_table(sets, p, i) {
            self.add_args(scratch, i);
            return true;
        }
        false
    }

    // The same for all context rows. The answer is whether one is such.
    fn see(&self, sets: &[u64], scratch: &mut [u64], p: usize) -> bool
        requires { SinkAsk self.now (length sets.now) (length scratch.old) p }
        ensures { Seen self.now sets.now scratch.old scratch.new p (row_count self.now.rows.now) result }
    {
        let n = row_count(self.rows);
        let mut found = false;
        for i in 0..n {
            found |= self.see_row(sets, scratch, p, i);
        }
        found
    }

    // The same with nothing in the scratch before.
    fn see_anew(&self, sets: &[u64], scratch: &mut [u64], p: usize) -> bool
        requires { SinkAsk self.now (length sets.now) (length scratch.old) p }
        ensures { Looked self.now sets.now scratch.old scratch.new p result }
    {
        clear(scratch, 0, set_at(self.width, PLACES));
        self.see(sets, scratch, p)
    }

    // The k-th argument of row p is cut to the k-th set of the scratch.
    fn cut_arg(&self, sets: &mut [u64], scratch: &[u64], p: usize, k: usize)
        requires { CutArgAsk self.now (length sets.old) (length scratch.now) p k }
        ensures { CutsArg self.now scratch.now sets.old sets.new p k }
    {
        let a = pattern_arg_in(self.patterns, p, k);
        cut_row(
            sets,
            self.flags_at(),
            set_at(self.width, a),
            scratch,
            set_at(self.width, k),
            self.width,
            a,
        );
    }

    fn cut_args(&self, sets: &mut [u64], scratch: &[u64], p: usize)
        requires { CutsAsk self.now sets.old (length scratch.now) p }
        ensures { CutsArgs self.now scratch.now sets.old sets.new p (pattern_count_in self.now.patterns.now p) }
    {
        let n = pattern_count_in(self.patterns, p);
        for k in 0..n {
            self.cut_arg(sets, scratch, p, k);
        }
    }

    // Whether row p is known, lies inside and has known arguments.
    fn inside(&self, sets: &[u64], p: usize) -> bool
        requires { PatternAsk self.now (length sets.now) p }
        ensures { InsideBy self.now sets.now p result }
    {
        let at = self.flags_at();
        marked(sets, at, p) && !marked(sets, at + 1, p) && self.args_known(sets, p)
    }

    // The same, with what is asked of the context rows and the scratch.
    fn enters(&self, sets: &[u64], scratch: &[u64], p: usize) -> bool
        requires { SinkAsk self.now (length sets.now) (length scratch.now) p }
        ensures { Enters self.now sets.now (length scratch.now) p result }
    {
        self.inside(sets, p)
    }

    // The arguments of such a row are cut to those of the context rows that fit and have a class of it. No: there is none, so there is no breach.
    fn sink_known(&self, sets: &mut [u64], scratch: &mut [u64], p: usize) -> bool
        requires { Inside self.now sets.old (length scratch.old) p }
        ensures { Steps (RowsOf self.now) (pattern_count self.now.patterns.now) self.now.width sets.old sets.new result }
    {
        if self.see_anew(sets, scratch, p) {
            self.cut_args(sets, scratch, p);
            return true;
        }
        false
    }

    // The same of any row that is a symbol; nothing is changed where it may lie outside, or where it or an argument is not known.
    pub fn sink_row(&self, sets: &mut [u64], scratch: &mut [u64], p: usize) -> bool
        requires { SinkAsk self.now (length sets.old) (length scratch.old) p }
        ensures { Steps (RowsOf self.now) (pattern_count self.now.patterns.now) self.now.width sets.old sets.new result }
    {
        if self.enters(sets, scratch, p) {
            return self.sink_known(sets, scratch, p);
        }
        true
    }
}
