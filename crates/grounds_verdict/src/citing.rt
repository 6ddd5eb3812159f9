// The steps that an owner may cite: a step cited, two that meet, and one for each two arguments.
ghost use Rattle.std.specs.Prelude.{◌≡◌, ◌≤◌, ◌<◌, length, get_or};
ghost use Rattle.runs.specs.Limits.{arg_places};
ghost use Rattle.runs.specs.Runs.{row_count, arg_in};
ghost use Rattle.grounds_verdict.specs.Tests.{numbers_at, cited_at, met_at, each_at, congruent_at};

use super::table::Table;
use super::words::{number_at, place_of, usable};
use grounds_steps::{WORDS, sides_in};
use runs::{arg_in, count_in, symbol_in};

// Those of the first `limit` steps that are shared or the owner's.
#[derive(Clone, Copy)]
pub(crate) struct Citing<'a> {
    pub table: Table<'a>,
    pub steps: &'a [[u64; WORDS]],
    pub limit: usize,
    pub owner: u64,
    ghost limit_in_bounds: { limit ≤ length steps.now },
}

impl<'a> Citing<'a> {
    // Whether step x is one of them and has the sides l and r.
    pub(crate) fn cites(&self, x: u64, l: usize, r: usize) -> bool
        ensures { result ≡ cited_at self.now.table.numbers.now self.now.table.rows self.now.steps.now self.now.limit self.now.owner x l r }
    {
        let Some(place) = place_of(x, self.limit) else {
            return false;
        };
        let word = sides_in(self.steps, place);
        usable(word, self.owner) && self.table.left(word) == l && self.table.right(word) == r
    }

    // Whether steps x and y lead from l over one term to r.
    pub(crate) fn meets(&self, x: u64, y: u64, l: usize, r: usize) -> bool
        ensures { result ≡ met_at self.now.table.numbers.now self.now.table.rows self.now.steps.now self.now.limit self.now.owner x y l r }
    {
        let Some(first) = place_of(x, self.limit) else {
            return false;
        };
        let middle = self.table.right(sides_in(self.steps, first));
        self.cites(x, l, middle) && middle < self.table.numbers.len() && self.cites(y, middle, r)
    }

    // Whether number k of the step after them cites one for argument k of entries l and r.
    fn argument(&self, l: usize, r: usize, k: usize) -> bool
        requires limit_lt_steps { self.now.limit < length self.now.steps.now }
        requires l_bound { l < row_count self.now.table.keys.now }
        requires r_bound { r < row_count self.now.table.keys.now }
        requires k_lt_arg_places { k < arg_places }
        ensures { result ≡ cited_at self.now.table.numbers.now self.now.table.rows self.now.steps.now self.now.limit self.now.owner (get_or (numbers_at self.now.steps.now self.now.limit) k 0) (arg_in self.now.table.keys.now l k) (arg_in self.now.table.keys.now r k) }
    {
        let x = number_at(self.steps, self.limit, k);
        let p = arg_in(self.table.keys, l, k);
        let q = arg_in(self.table.keys, r, k);
        self.cites(x, p, q)
    }

    // Whether its numbers cite one for each two of the first count arguments of entries l and r.
    fn arguments(&self, l: usize, r: usize, count: usize) -> bool
        requires limit_lt_steps { self.now.limit < length self.now.steps.now }
        requires l_bound { l < row_count self.now.table.keys.now }
        requires r_bound { r < row_count self.now.table.keys.now }
        requires count_le_arg_places { count ≤ arg_places }
        ensures { result ≡ each_at self.now.table.keys.now self.now.table.numbers.now self.now.table.rows self.now.steps.now self.now.limit self.now.owner l r count }
    {
        for k in 0..count {
            if !self.argument(l, r, k) {
                return false;
            }
        }
        true
    }

    // Whether entries l and r have one symbol, and its numbers cite one for each two arguments.
    pub(crate) fn congruent(&self, l: usize, r: usize) -> bool
        requires limit_lt_steps { self.now.limit < length self.now.steps.now }
        requires l_in_bounds { l < length self.now.table.numbers.now }
        requires r_in_bounds { r < length self.now.table.numbers.now }
        ensures { result ≡ congruent_at self.now.table.keys.now self.now.table.numbers.now self.now.table.rows self.now.steps.now self.now.limit self.now.owner l r }
    {
        let keys = self.table.keys;
        let count = count_in(keys, l);
        symbol_in(keys, l) == symbol_in(keys, r)
            && count == count_in(keys, r)
            && self.arguments(l, r, count)
    }
}
