// The fields of a step's words, and the places of what is counted from 1.
ghost use Rattle.std.specs.Prelude.{◌||◌, ◌≡◌, ◌≢◌, ◌+◌, ◌<◌, MatchOption, eqb, false, length, get_or};
ghost use Rattle.meaning.specs.Checking.{counts};
ghost use Rattle.meaning.specs.GroundColumns.{owner_of, kind_in};
ghost use Rattle.grounds_verdict.specs.declared.words.Reason.{Reason};
ghost use Rattle.grounds_verdict.specs.Tests.{numbers_at};
ghost use Rattle.grounds_verdict.specs.Reasons.{kind_number};

use grounds_steps::{BYTE, KIND, NUMBER, OWNER, WORDS, lower_in, upper_in};

// Why the two sides of a step are equal.
#[derive(Clone, Copy, PartialEq, Eq)]
pub(crate) enum Reason {
    Statement,
    Reflexivity,
    Symmetry,
    Transitivity,
    Congruence,
    Addition,
}

pub(crate) fn owner_of(word: u64) -> u64
    ensures { result ≡ owner_of word }
{
    word / OWNER
}

// The reason that a word names by its number, 1 to 6.
pub(crate) fn reason_of(word: u64) -> Option<Reason>
    ensures { MatchOption result ((r : Reason) → kind_in word ≢ kind_number r) (λ r. kind_in word ≡ kind_number r) }
{
    match (word / KIND) % BYTE {
        1 => Some(Reason::Statement),
        2 => Some(Reason::Reflexivity),
        3 => Some(Reason::Symmetry),
        4 => Some(Reason::Transitivity),
        5 => Some(Reason::Congruence),
        6 => Some(Reason::Addition),
        _ => None,
    }
}

// Number k, from 0, of the four of step i.
pub(crate) fn number_at(steps: &[[u64; WORDS]], i: usize, k: usize) -> u64
    requires { i < length steps.now }
    ensures { result ≡ get_or (numbers_at steps.now i) k 0 }
{
    match k {
        0 => upper_in(steps, i) / NUMBER,
        1 => upper_in(steps, i) % NUMBER,
        2 => lower_in(steps, i) / NUMBER,
        3 => lower_in(steps, i) % NUMBER,
        _ => 0,
    }
}

// The place, from 0, of number x of so many, which are counted from 1.
pub(crate) fn place_of(x: u64, count: usize) -> Option<usize>
    ensures { MatchOption result (counts count x ≡ false) (λ place. (x ≡ place + 1) × (place < count)) }
{
    // No then_some: the two ways are proved apart.
    if 0 < x && x <= count as u64 {
        Some((x - 1) as usize)
    } else {
        None
    }
}

// Whether a step is shared or the owner's.
pub(crate) fn usable(word: u64, owner: u64) -> bool
    ensures { result ≡ (eqb (owner_of word) 0 || eqb (owner_of word) owner) }
{
    let o = owner_of(word);
    o == 0 || o == owner
}
