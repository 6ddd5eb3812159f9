// Words written and flags, in the run of a search's sets.
// Places and no slices: the sets of a search lie in one run.
ghost use Rattle.std.specs.Prelude.{◌&&◌, ◌≡◌, ◌+◌, ◌*◌, ◌/◌, ◌<◌, ◌≤◌, length, get_or};
ghost use Rattle.bits.specs.Sets.{bit_at, Places};
ghost use Rattle.search_sets.specs.Places.{most_words};
ghost use Rattle.search_sets.specs.Words.{Copied, Flagged, Told, Left, Narrowable, Narrowed, Pairable, Paired, Cleared, Added, MetWith, Cuttable, CutRow};

use bits::{bit, lowest, meet};

// Where the words of set q begin: the pattern rows' sets stand first, then the variables', then the flags.
pub(crate) fn set_at(width: usize, q: usize) -> usize
    requires { (width ≤ most_words) × (q < 69) }
    ensures { result ≡ q * width }
{
    q * width
}

// The n words from b on are written from a on.
pub(crate) fn copy(words: &mut [u64], a: usize, b: usize, n: usize)
    requires { Places (length words.old) a b n }
    ensures { Copied words.old words.new a b n }
{
    words.copy_within(b..b + n, a);
}

// A word with bit p as told.
pub(crate) fn flagged(x: u64, p: usize, on: bool) -> u64
    requires { p < 64 }
    ensures { Flagged x p on result }
{
    let with = x | (1 << p);
    if on { with } else { with ^ (1 << p) }
}

// Row p is known, and may lie outside as told.
pub(crate) fn tell(words: &mut [u64], at: usize, p: usize, out: bool)
    requires { (at + 1 < length words.old) × (p < 64) }
    ensures { Told words.old words.new at p out }
{
    words[at] = flagged(words[at], p, true);
    let next = at + 1;
    words[next] = flagged(words[next], p, out);
}

// Whether row p has a flag.
pub(crate) fn marked(words: &[u64], at: usize, p: usize) -> bool
    requires { (at < length words.now) × (p < 64) }
    ensures { result ≡ bit_at (get_or words.now at 0) p }
{
    bit(words[at], p)
}

// Whether two rows have it.
pub(crate) fn both_marked(words: &[u64], at: usize, p: usize, q: usize) -> bool
    requires { (at < length words.now) × (p < 64) × (q < 64) }
    ensures { result ≡ (bit_at (get_or words.now at 0) p && bit_at (get_or words.now at 0) q) }
{
    marked(words, at, p) && marked(words, at, q)
}

// Whether n words have a member.
pub(crate) fn some(words: &[u64], base: usize, n: usize) -> bool
    requires { (base + n ≤ length words.now) × (n ≤ most_words) }
    ensures { Left words.now base n result }
{
    lowest(words, base, n).is_some()
}

// Row p, whose words stand from a on, is cut to the words from b on, and may lie outside as told.
pub(crate) fn narrow(
    words: &mut [u64],
    at: usize,
    a: usize,
    b: usize,
    n: usize,
    p: usize,
    out: bool,
)
    requires { Narrowable (length words.old) at a b n p }
    ensures { Narrowed words.old words.new at a b n p out }
{
    meet(words, a, b, n);
    tell(words, at, p, out);
}

// Each of two rows is cut to the words of both.
pub(crate) fn narrow_both(
    words: &mut [u64],
    at: usize,
    a: usize,
    b: usize,
    n: usize,
    p: usize,
    q: usize,
    out: bool,
)
    requires { Pairable (length words.old) at a b n p q }
    ensures { Paired words.old words.new at a b n p q out }
{
    narrow(words, at, a, b, n, p, out);
    narrow(words, at, b, a, n, q, out);
}

// The n words from a on keep no member.
pub(crate) fn clear(words: &mut [u64], a: usize, n: usize)
    requires { a + n ≤ length words.old }
    ensures { Cleared words.old words.new a n }
{
    let end = a + n;
    words[a..end].fill(0);
}

// k is put into the set from a on.
// Beside bits::insert, whose contract says nothing of the words before the set.
pub(crate) fn add(words: &mut [u64], a: usize, k: usize)
    requires { a + k / 64 < length words.old }
    ensures { Added words.old words.new a k }
{
    let at = a + k / 64;
    words[at] = flagged(words[at], k % 64, true);
}

// The n words from a on are cut to those of another run from b on.
pub(crate) fn meet_with(words: &mut [u64], a: usize, others: &[u64], b: usize, n: usize)
    requires { (a + n ≤ length words.old) × (b + n ≤ length others.now) }
    ensures { MetWith words.old others.now words.new a b n }
{
    // No iterator: the index names a word of either run.
    for i in 0..n {
        let x = words[a + i];
        let y = others[b + i];
        words[a + i] = x & y;
    }
}

// Row p, whose words stand from a on, is cut so, and does not lie outside.
pub(crate) fn cut_row(
    words: &mut [u64],
    at: usize,
    a: usize,
    others: &[u64],
    b: usize,
    n: usize,
    p: usize,
)
    requires { Cuttable (length words.old) (length others.now) at a b n p }
    ensures { CutRow words.old others.now words.new at a b n p }
{
    meet_with(words, a, others, b, n);
    tell(words, at, p, false);
}
