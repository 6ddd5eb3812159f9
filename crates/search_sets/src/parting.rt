// Two rows of an unequal literal: each can be what may differ from something that the other can have.
ghost use Rattle.std.specs.Prelude.{◌≡◌, ◌+◌, ◌*◌, ◌<◌, ◌≤◌, length};
ghost use Rattle.search_sets.specs.Places.{most_words};
ghost use Rattle.search_sets.specs.Words.{Cuttable};
ghost use Rattle.search_sets.specs.Keeps.{Steps};
ghost use Rattle.search_sets.specs.Parting.{UnequalRows, ApartAsk, AddsApart, Parted, CutLeft, Parts, PartAsk, KnownPart};

use super::words::{both_marked, clear, cut_row, set_at, some};
use bits::{next, unite};
use runs::limits::VARIABLES;

// A set for each of n classes, of what may differ from it, beside sets of `width` words for `count` pattern rows.
#[derive(Clone, Copy)]
pub struct Differences<'a> {
    pub apart: &'a [u64],
    pub count: usize,
    pub width: usize,
    pub n: usize,
}

fn class_at(width: usize, k: usize) -> usize
    requires { (width ≤ most_words) × (k < 1024) }
    ensures { result ≡ k * width }
{
    k * width
}

// Row q is cut to the scratch. The answer is whether it has a class left.
fn cut_left(sets: &mut [u64], at: usize, b: usize, scratch: &[u64], width: usize, q: usize) -> bool
    requires cuttable { Cuttable (length sets.old) (length scratch.now) at b 0 width q }
    requires width_le_most_words { width ≤ most_words }
    ensures { CutLeft sets.old scratch.now sets.new at b width q result }
{
    cut_row(sets, at, b, scratch, 0, width, q);
    some(sets, b, width)
}

impl<'a> Differences<'a> {
    // What may differ from class k is added to the scratch.
    fn add_apart(&self, scratch: &mut [u64], k: usize)
        requires apart_ask { ApartAsk (length self.now.apart.now) (length scratch.old) self.now.width self.now.n }
        requires k_lt_n { k < self.now.n }
        ensures { AddsApart self.now.apart.now scratch.old scratch.new self.now.width k }
    {
        unite(scratch, 0, self.apart, class_at(self.width, k), self.width);
    }

    // What may differ from some class of the set from a place on.
    fn gather_apart(&self, sets: &[u64], base: usize, scratch: &mut [u64])
        requires apart_ask { ApartAsk (length self.now.apart.now) (length scratch.old) self.now.width self.now.n }
        requires width_in_bounds { base + self.now.width ≤ length sets.now }
        ensures { Parted sets.now self.now.apart.now scratch.old scratch.new base self.now.width self.now.n }
    {
        let mut from = 0;
        // No iterator: `next` has none.
        while let Some(k) = next(sets, base, self.width, from) {
            if self.n <= k {
                return;
            }
            self.add_apart(scratch, k);
            from = k + 1;
        }
    }

    // The same with nothing in the scratch before.
    fn apart_anew(&self, sets: &[u64], base: usize, scratch: &mut [u64])
        requires apart_ask { ApartAsk (length self.now.apart.now) (length scratch.old) self.now.width self.now.n }
        requires width_in_bounds { base + self.now.width ≤ length sets.now }
        ensures { Parted sets.now self.now.apart.now scratch.old scratch.new base self.now.width self.now.n }
    {
        clear(scratch, 0, self.width);
        self.gather_apart(sets, base, scratch);
    }

    // Row q, which is known, is cut to what may differ from something that row p can have. No: that is nothing.
    fn part_known(&self, sets: &mut [u64], scratch: &mut [u64], p: usize, q: usize) -> bool
        requires { KnownPart sets.old (length self.now.apart.now) (length scratch.old) self.now.count self.now.width self.now.n p q }
        ensures { Parts self.now.apart.now sets.old sets.new self.now.count self.now.width self.now.n p q result }
    {
        self.apart_anew(sets, set_at(self.width, p), scratch);
        cut_left(
            sets,
            set_at(self.width, self.count + VARIABLES),
            set_at(self.width, q),
            scratch,
            self.width,
            q,
        )
    }

    // The same of any two rows; nothing is changed where one is not known.
    fn part_one(&self, sets: &mut [u64], scratch: &mut [u64], p: usize, q: usize) -> bool
        requires { PartAsk (length sets.old) (length self.now.apart.now) (length scratch.old) self.now.count self.now.width self.now.n p q }
        ensures { Parts self.now.apart.now sets.old sets.new self.now.count self.now.width self.now.n p q result }
    {
        if both_marked(sets, set_at(self.width, self.count + VARIABLES), p, q) {
            return self.part_known(sets, scratch, p, q);
        }
        true
    }

    // Each of two rows of an unequal literal is cut so. No: one of them has nothing left, so there is no breach.
    pub fn part_rows(&self, sets: &mut [u64], scratch: &mut [u64], p: usize, q: usize) -> bool
        requires { PartAsk (length sets.old) (length self.now.apart.now) (length scratch.old) self.now.count self.now.width self.now.n p q }
        ensures { Steps (UnequalRows self.now.apart.now self.now.width self.now.n p q) self.now.count self.now.width sets.old sets.new result }
    {
        self.part_one(sets, scratch, p, q) && self.part_one(sets, scratch, q, p)
    }
}
