// Labels of classes while an equation is followed. A label is the lowest class that has it; the classes that have another one's are known, so the
// members of a label are found without a pass over all classes.
ghost use Rattle.std.specs.Prelude.{◌⊎◌, ◌≡◌, ◌+◌, ◌*◌, ◌<◌, ◌≤◌, length};
ghost use Rattle.meaning.specs.Closing.{move};
ghost use Rattle.search_pairs.specs.Ready.{words_for, most_words};
ghost use Rattle.search_pairs.specs.Steps.{Space, Labelled, sets_size, NextClass, Member, Own, Moved, Labels};
ghost use Rattle.search_pairs.specs.Lent.{ApartFrom, Clashing, Marked, Joined, Meets, Meeting};

use super::mates::at_place;
use bits::{count, insert, member, next, unite};

// The sets of n rows, one behind the other.
// No ghost field: members are asked for with the sets of the moment.
#[derive(Clone, Copy)]
pub(crate) struct Sets<'a> {
    pub(crate) sets: &'a [u64],
    pub(crate) n: usize,
}

// The members of a word.
const WORD: usize = 64;

// How many words a set of n rows has.
pub(crate) fn words(n: usize) -> usize
    requires { words_for n ≤ most_words }
    ensures { result ≡ words_for n }
{
    (n + 63) / WORD
}

// Where set s of n rows begins.
pub(crate) fn start(n: usize, s: usize) -> usize
    requires n_bound { words_for n ≤ most_words }
    requires s_bound { s ≤ n + n + n }
    ensures { (result ≡ s * words_for n) × (result ≤ 65536) }
{
    s * words(n)
}

// The next of n numbers from a place on that is in the set whose words start at `base`.
// No iterator: some of the loops write the words that they walk.
pub(crate) fn next_class(set: &[u64], base: usize, n: usize, from: usize) -> Option<usize>
    requires n_bound { words_for n ≤ most_words }
    requires base_in_bounds { base + words_for n ≤ length set.now }
    ensures { NextClass n set.now base from result }
{
    let k = next(set, base, words(n), from)?;
    (k < n).then_some(k)
}

// The next class from a place on that has label z.
// No iterator: some of the loops write the marks beside it.
pub(crate) fn next_member(
    labels: &[u16],
    work: &[u64],
    n: usize,
    z: usize,
    from: usize,
) -> Option<usize>
    requires space { Space n labels.now work.now }
    requires labelled { Labelled n labels.now work.now }
    requires own { Own n labels.now z }
    ensures { Member n labels.now z from result }
{
    if from <= z {
        return Some(z);
    }
    let w = words(n);
    let mut at = from;
    // No iterator: `next_class` has none.
    while let Some(k) = next_class(work, w, n, at) {
        if at_place(labels, k) == z {
            return Some(k);
        }
        at = k + 1;
    }
    None
}

// The label of a class, once label hi has given way to lo.
fn moved(lo: usize, hi: usize, label: u16) -> u16
    requires { lo < 65536 }
    ensures { result ≡ move lo hi label }
{
    if usize::from(label) == hi {
        lo as u16
    } else {
        label
    }
}

// The members of label hi get lo.
fn relabel(labels: &mut [u16], work: &[u64], n: usize, lo: usize, hi: usize)
    requires space { Space n labels.old work.now }
    requires labelled { Labelled n labels.old work.now }
    requires lo_lt_hi { lo < hi }
    requires own { Own n labels.old hi }
    ensures { Moved n lo hi labels.old labels.new }
{
    labels[hi] = lo as u16;
    let w = words(n);
    // No class before hi has its label.
    let mut from = hi + 1;
    // No iterator: `next_class` has none.
    while let Some(k) = next_class(work, w, n, from) {
        labels[k] = moved(lo, hi, labels[k]);
        from = k + 1;
    }
}

impl<'a> Sets<'a> {
    // Whether class a is kept apart from a member of label y.
    fn apart_from(&self, labels: &[u16], work: &[u64], a: usize, y: usize) -> bool
        requires space { Space self.now.n labels.now work.now }
        requires labelled { Labelled self.now.n labels.now work.now }
        requires n_in_bounds { sets_size self.now.n ≤ length self.now.sets.now }
        requires a_lt_n { a < self.now.n }
        requires own { Own self.now.n labels.now y }
        ensures { ApartFrom self.now labels.now a y result }
    {
        let base = start(self.n, self.n + self.n + a);
        let mut from = 0;
        // No iterator: `next_member` has none.
        while let Some(k) = next_member(labels, work, self.n, y, from) {
            if member(self.sets, base, k) {
                return true;
            }
            from = k + 1;
        }
        false
    }

    // Whether a member of label x is kept apart from a member of label y.
    fn clashing(&self, labels: &[u16], work: &[u64], x: usize, y: usize) -> bool
        requires space { Space self.now.n labels.now work.now }
        requires labelled { Labelled self.now.n labels.now work.now }
        requires n_in_bounds { sets_size self.now.n ≤ length self.now.sets.now }
        requires labels { Labels self.now.n labels.now x y }
        ensures { Clashing self.now labels.now x y result }
    {
        let mut from = 0;
        // No iterator: `next_member` has none.
        while let Some(k) = next_member(labels, work, self.n, x, from) {
            if self.apart_from(labels, work, k, y) {
                return true;
            }
            from = k + 1;
        }
        false
    }

    // The rows over the members of label z are marked.
    fn mark_over(&self, labels: &[u16], work: &mut [u64], z: usize)
        requires space { Space self.now.n labels.now work.old }
        requires labelled { Labelled self.now.n labels.now work.old }
        requires n_in_bounds { sets_size self.now.n ≤ length self.now.sets.now }
        requires own { Own self.now.n labels.now z }
        ensures { Marked self.now labels.now z work.old work.new }
    {
        let w = words(self.n);
        let mut from = 0;
        // No iterator: the loop writes the marks in the words that it walks.
        while let Some(k) = next_member(labels, work, self.n, z, from) {
            unite(work, 0, self.sets, start(self.n, k), w);
            from = k + 1;
        }
    }

    // How many rows are over a class.
    fn weight(&self, a: usize) -> u32
        requires n_bound { words_for self.now.n ≤ most_words }
        requires n_in_bounds { sets_size self.now.n ≤ length self.now.sets.now }
        requires a_lt_n { a < self.now.n }
    {
        let w = words(self.n);
        let base = start(self.n, a);
        let mut sum: u32 = 0;
        // By index: the invariant speaks of places.
        for i in 0..w {
            sum += count(self.sets[base + i]);
        }
        sum
    }

    // Of two classes the one with fewer rows over it.
    fn lighter(&self, a: usize, b: usize) -> usize
        requires n_bound { words_for self.now.n ≤ most_words }
        requires n_in_bounds { sets_size self.now.n ≤ length self.now.sets.now }
        requires a_lt_n { (a < self.now.n) × (b < self.now.n) }
        ensures { (result ≡ a) ⊎ (result ≡ b) }
    {
        if self.weight(a) <= self.weight(b) {
            a
        } else {
            b
        }
    }

    // The label hi gives way to lo, and the rows over the members of one of the two are marked.
    fn lower(&self, labels: &mut [u16], work: &mut [u64], lo: usize, hi: usize)
        requires space { Space self.now.n labels.old work.old }
        requires labelled { Labelled self.now.n labels.old work.old }
        requires n_in_bounds { sets_size self.now.n ≤ length self.now.sets.now }
        requires labels { Labels self.now.n labels.old lo hi }
        requires lo_lt_hi { lo < hi }
        ensures { Joined self.now lo hi labels.old work.old labels.new work.new }
    {
        let z = self.lighter(lo, hi);
        self.mark_over(labels, work, z);
        relabel(labels, work, self.n, lo, hi);
        insert(work, 0, words(self.n) * WORD + hi);
    }

    // The labels x and y become one.
    fn join(&self, labels: &mut [u16], work: &mut [u64], x: usize, y: usize)
        requires { Meets self.now labels.old work.old x y }
        ensures { Joined self.now x y labels.old work.old labels.new work.new }
    {
        self.lower(labels, work, x.min(y), x.max(y));
    }

    // The labels x and y become one; or members of them are kept apart, and the answer is so.
    pub(crate) fn meet(&self, labels: &mut [u16], work: &mut [u64], x: usize, y: usize) -> bool
        requires { Meets self.now labels.old work.old x y }
        ensures { Meeting self.now x y labels.old work.old labels.new work.new result }
    {
        if self.clashing(labels, work, x, y) {
            return true;
        }
        self.join(labels, work, x, y);
        false
    }
}
