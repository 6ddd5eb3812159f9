// The stated equations, or the stated differences, as pairs of numbers: a run of two numbers a pair.
ghost use Rattle.std.specs.Prelude.{◌≡◌, ◌+◌, ◌*◌, ◌≤◌, ◌<◌, length};
ghost use Rattle.meaning.specs.Checking.{numbered};
ghost use Rattle.runs.specs.Runs.{said_count, kind_in, statements_of, put};
ghost use Rattle.grounds_numbers.specs.Limits.{pair_size};
ghost use Rattle.grounds_numbers.specs.Pairs.{pair_count, first_in, second_in, numbers_of, kept_by, pairs_of, Held};

use super::limits::PAIR;
use super::numbers::number_of;
use runs::{is_equation, left_in, right_in, said_count};

pub fn pair_count(pairs: &[u16]) -> usize
    ensures { result ≡ pair_count pairs.now }
{
    pairs.len() / PAIR
}

// The numbers of pair k.
pub fn first_in(pairs: &[u16], k: usize) -> usize
    requires { k < pair_count pairs.now }
    ensures { result ≡ first_in pairs.now k }
{
    usize::from(pairs[k * PAIR])
}

pub fn second_in(pairs: &[u16], k: usize) -> usize
    requires { k < pair_count pairs.now }
    ensures { result ≡ second_in pairs.now k }
{
    usize::from(pairs[k * PAIR + 1])
}

// Whether statement s is asked for: an equation, or a difference.
fn kept(said: &[u16], s: usize, equations: bool) -> bool
    requires { s < said_count said.now }
    ensures { result ≡ kept_by (kind_in said.now s) equations }
{
    is_equation(said, s) == equations
}

// Pair k has the numbers of the sides of statement s.
fn put_stated(said: &[u16], numbers: &[u16], s: usize, pairs: &mut [u16], k: usize)
    requires s_bound { s < said_count said.now }
    requires pair_size_in_bounds { k * pair_size + pair_size ≤ length pairs.old }
    ensures { pairs.new ≡ put pair_size pairs.old k (numbers_of numbers.now said.now s) }
{
    let at = k * PAIR;
    pairs[at] = number_of(numbers, left_in(said, s));
    pairs[at + 1] = number_of(numbers, right_in(said, s));
}

// The pairs of the equations, or of the differences, stand at the run's start in their order; the answer is how many there are.
pub fn stated(said: &[u16], numbers: &[u16], equations: bool, pairs: &mut [u16]) -> usize
    requires { said_count said.now * pair_size ≤ length pairs.old }
    ensures { Held (numbered numbers.now (pairs_of equations (statements_of said.now))) pairs.new result }
{
    let mut k = 0;
    for s in 0..said_count(said) {
        if kept(said, s, equations) {
            put_stated(said, numbers, s, pairs, k);
            k += 1;
        }
    }
    k
}
