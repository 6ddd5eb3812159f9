// Whether a step follows from the steps before it, by the numbers of its terms.
ghost use Rattle.std.specs.Prelude.{◌≡◌, ◌<◌, length};
ghost use Rattle.meaning.specs.Checking.{paired_by};
ghost use Rattle.grounds_numbers.specs.Pairs.{pairs_in};
ghost use Rattle.grounds_verdict.specs.Tests.{FirstFalse, derives_at, follows_at};

use super::citing::Citing;
use super::owners::{added, owner_there};
use super::table::Table;
use super::words::{Reason, number_at, owner_of, place_of, reason_of};
use grounds_numbers::pairs::{first_in, pair_count, second_in};
use grounds_steps::{WORDS, sides_in};

// The steps, and what they are judged by: the entries, the pairs of the stated equations or differences, and the literals.
#[derive(Clone, Copy)]
pub(crate) struct Grounds<'a> {
    pub table: Table<'a>,
    pub pairs: &'a [u16],
    pub literals: &'a [u16],
    pub steps: &'a [[u64; WORDS]],
}

// Whether pair x is l and r.
fn paired(pairs: &[u16], x: u64, l: usize, r: usize) -> bool
    ensures { result ≡ paired_by (pairs_in pairs.now) x l r }
{
    let Some(place) = place_of(x, pair_count(pairs)) else {
        return false;
    };
    first_in(pairs, place) == l && second_in(pairs, place) == r
}

impl<'a> Grounds<'a> {
    // Whether l = r follows by the reason and the numbers of step i, which has an owner.
    fn derives(&self, i: usize, owner: u64, l: usize, r: usize) -> bool
        requires i_in_bounds { i < length self.now.steps.now }
        requires l_in_bounds { l < length self.now.table.numbers.now }
        requires r_in_bounds { r < length self.now.table.numbers.now }
        ensures { result ≡ derives_at self.now.table.keys.now self.now.pairs.now self.now.literals.now self.now.table.numbers.now self.now.table.rows self.now.steps.now i owner l r }
    {
        let Some(reason) = reason_of(sides_in(self.steps, i)) else {
            return false;
        };
        let earlier = Citing {
            table: self.table,
            steps: self.steps,
            limit: i,
            owner,
        };
        let x = number_at(self.steps, i, 0);
        match reason {
            Reason::Statement => paired(self.pairs, x, l, r),
            Reason::Reflexivity => l == r,
            Reason::Symmetry => earlier.cites(x, r, l),
            Reason::Transitivity => earlier.meets(x, number_at(self.steps, i, 1), l, r),
            Reason::Congruence => earlier.congruent(l, r),
            Reason::Addition => added(&self.table, self.literals, owner, l, r),
        }
    }

    // Whether step i, from 0, follows from the steps before it.
    fn follows(&self, i: usize) -> bool
        requires { i < length self.now.steps.now }
        ensures { result ≡ follows_at self.now.table.keys.now self.now.pairs.now self.now.literals.now self.now.table.numbers.now self.now.table.rows self.now.steps.now i }
    {
        let word = sides_in(self.steps, i);
        let owner = owner_of(word);
        let l = self.table.left(word);
        let r = self.table.right(word);
        let entries = self.table.numbers.len();
        owner_there(self.literals, owner)
            && l < entries
            && r < entries
            && self.derives(i, owner, l, r)
    }

    // The first step that does not follow from the steps before it.
    pub(crate) fn first_bad(&self) -> Option<usize>
        ensures { FirstFalse (follows_at self.now.table.keys.now self.now.pairs.now self.now.literals.now self.now.table.numbers.now self.now.table.rows self.now.steps.now) (length self.now.steps.now) result }
    {
        for i in 0..self.steps.len() {
            if !self.follows(i) {
                return Some(i);
            }
        }
        None
    }
}
