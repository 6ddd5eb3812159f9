// The sides of pairs that are lent, two numbers a pair.
ghost use Rattle.std.specs.Prelude.{◌≡◌};
ghost use Rattle.meaning.specs.Context.{left_at, right_at};
ghost use Rattle.grounds_numbers.specs.Pairs.{pairs_in};

use grounds_numbers::limits::PAIR;
use grounds_numbers::pairs::pair_count;

// The left side of pair i, and 0 past the last.
// No Option: left_at and right_at of the laws have 0 there.
pub fn left_at(pairs: &[u16], i: usize) -> u16
    ensures { result ≡ left_at (pairs_in pairs.now) i }
{
    if i < pair_count(pairs) {
        pairs[i * PAIR]
    } else {
        0
    }
}

// Its right side.
pub fn right_at(pairs: &[u16], i: usize) -> u16
    ensures { result ≡ right_at (pairs_in pairs.now) i }
{
    if i < pair_count(pairs) {
        pairs[i * PAIR + 1]
    } else {
        0
    }
}
