// Whether each literal is concluded.
ghost use Rattle.std.specs.Prelude.{◌≡◌, ◌≤◌, ◌<◌, length};
ghost use Rattle.runs.specs.Limits.{most_literals};
ghost use Rattle.runs.specs.Runs.{literal_count};
ghost use Rattle.grounds_verdict.specs.Tests.{FirstFalse, cited_at, differs_at, concluded_at};

use super::Conclusions;
use super::citing::Citing;
use super::steps::Grounds;
use super::words::place_of;
use grounds_numbers::pairs::{first_in, pair_count, second_in};
use runs::{is_equal, left_in, literal_count, right_in};

impl<'a> Grounds<'a> {
    // Whether step x may be used by an owner and has the sides l and r.
    fn cites(&self, owner: u64, x: u64, l: usize, r: usize) -> bool
        ensures { result ≡ cited_at self.now.table.numbers.now self.now.table.rows self.now.steps.now (length self.now.steps.now) owner x l r }
    {
        let all = Citing {
            table: self.table,
            steps: self.steps,
            limit: self.steps.len(),
            owner,
        };
        all.cites(x, l, r)
    }

    // Whether step x may be used by an owner and has the sides of a stated difference.
    fn differs(&self, owner: u64, x: u64, difference: u64) -> bool
        ensures { result ≡ differs_at self.now.pairs.now self.now.table.numbers.now self.now.table.rows self.now.steps.now owner x difference }
    {
        let Some(place) = place_of(difference, pair_count(self.pairs)) else {
            return false;
        };
        let p = first_in(self.pairs, place);
        let q = second_in(self.pairs, place);
        self.cites(owner, x, p, q)
    }

    // Whether literal j, from 0, is concluded: an equal one by a shared step.
    fn concluded(&self, d: &Conclusions, j: usize) -> bool
        requires j_bound { j < literal_count self.now.literals.now }
        requires literals_bound { literal_count self.now.literals.now ≤ most_literals }
        ensures { result ≡ concluded_at self.now.literals.now d.now self.now.pairs.now self.now.table.numbers.now self.now.table.rows self.now.steps.now j }
    {
        let x = u64::from(d.firsts[j]);
        if !is_equal(self.literals, j) {
            return self.differs(j as u64 + 1, x, u64::from(d.differences[j]));
        }
        let l = self.table.instance(left_in(self.literals, j));
        let r = self.table.instance(right_in(self.literals, j));
        self.cites(0, x, l, r)
    }

    // The first literal that is not concluded.
    pub(crate) fn first_open(&self, d: &Conclusions) -> Option<usize>
        requires { literal_count self.now.literals.now ≤ most_literals }
        ensures { FirstFalse (concluded_at self.now.literals.now d.now self.now.pairs.now self.now.table.numbers.now self.now.table.rows self.now.steps.now) (literal_count self.now.literals.now) result }
    {
        for j in 0..literal_count(self.literals) {
            if !self.concluded(d, j) {
                return Some(j);
            }
        }
        None
    }
}
