// Sets of numbers as bits in words: what a search over runs of them needs.
#![tactic(auto)]

ghost use Rattle.std.specs.Prelude.{◌≡◌, ◌&&◌, ◌||◌, not, ℕ, ◌+◌, ◌*◌, ◌/◌, ◌^◌, ◌<◌, ◌≤◌, eqb, length};
ghost use Rattle.std.specs.Int.Count.{count_trailing_zeros};
ghost use Rattle.bits.specs.Sets.{size, bit_at, has, Lowest, Met, Places, Low, Next, United, Emptied};

// Whether bit j of a word is set.
pub fn bit(x: u64, j: usize) -> bool
    requires { j < 64 }
    ensures { result ≡ bit_at x j }
{
    (x >> j) & 1 == 1
}

// Whether k is in the set whose words start at a place.
pub fn member(words: &[u64], base: usize, k: usize) -> bool
    requires { base + k / 64 < length words.now }
    ensures { result ≡ has words.now base k }
{
    let x = words[base + k / 64];
    bit(x, k % 64)
}

// k is put into the set.
pub fn insert(words: &mut [u64], base: usize, k: usize)
    requires { base + k / 64 < length words.old }
    ensures { (length words.new ≡ length words.old) × ((j : ℕ) → has words.new base j ≡ (has words.old base j || eqb j k)) }
{
    let at = base + k / 64;
    let b = k % 64;
    words[at] = words[at] | (1 << b);
}

// k is taken out of the set.
pub fn remove(words: &mut [u64], base: usize, k: usize)
    requires { base + k / 64 < length words.old }
    ensures { (length words.new ≡ length words.old) × ((j : ℕ) → has words.new base j ≡ (has words.old base j && not (eqb j k))) }
{
    let at = base + k / 64;
    let b = k % 64;
    words[at] = (words[at] | (1 << b)) ^ (1 << b);
}

// The lowest bit of a word that has one.
pub fn low(x: u64) -> usize
    requires { 0 < x }
    ensures { (result < 64) × Lowest (bit_at x) result × (result ≡ count_trailing_zeros 64 x) }
{
    x.trailing_zeros() as usize
}

// A word without its lowest bit.
pub fn rest(x: u64) -> u64
    requires { 0 < x }
    ensures { (j : ℕ) → bit_at result j ≡ (bit_at x j && not (eqb j (count_trailing_zeros 64 x))) }
{
    x & (x - 1)
}

// How many bits are set.
pub fn count(x: u64) -> u32
    ensures { result ≡ size 64 (bit_at x) }
{
    x.count_ones()
}

// The set from a on is cut to what the set from b on has too.
pub fn meet(words: &mut [u64], a: usize, b: usize, n: usize)
    requires { Places (length words.old) a b n }
    ensures { Met words.old words.new a b n }
{
    // No iterator: both sets lie in one run.
    for i in 0..n {
        let x = words[a + i];
        let y = words[b + i];
        words[a + i] = x & y;
    }
}

// The lowest member of n words.
pub fn lowest(words: &[u64], base: usize, n: usize) -> Option<usize>
    requires n_in_bounds { base + n ≤ length words.now }
    requires n_bound { n ≤ 16 }
    ensures { Low words.now base n result }
{
    for i in 0..n {
        let x = words[base + i];
        if 0 < x {
            return Some(i * 64 + low(x));
        }
    }
    None
}

// The bits of a word from bit k on. The caller learns how large a word is.
fn above(x: u64, k: usize) -> u64
    requires { k < 64 }
    ensures { (result ≡ x / 2 ^ k) × (x < 2 ^ 64) }
{
    x >> k
}

// The lowest member of n words that is no lower than a bound.
pub fn next(words: &[u64], base: usize, n: usize, from: usize) -> Option<usize>
    requires n_in_bounds { base + n ≤ length words.now }
    requires n_bound { n ≤ 16 }
    ensures { Next words.now base n from result }
{
    let i = from / 64;
    if n <= i {
        return None;
    }
    let x = above(words[base + i], from % 64);
    if 0 < x {
        return Some(from + low(x));
    }
    let k = i + 1;
    let r = lowest(words, base + k, n - k)?;
    Some(k * 64 + r)
}

// The n words of another run are added to those from a on.
pub fn unite(words: &mut [u64], a: usize, others: &[u64], b: usize, n: usize)
    requires { (a + n ≤ length words.old) × (b + n ≤ length others.now) }
    ensures { United words.old others.now words.new a b n }
{
    // No iterator: the index names a word of either run.
    for i in 0..n {
        let x = words[a + i];
        let y = others[b + i];
        words[a + i] = x | y;
    }
}

// No word keeps a member.
pub fn empty(words: &mut [u64])
    ensures { Emptied (length words.old) words.new }
{
    words.fill(0);
}
