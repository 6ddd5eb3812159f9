// The variables that literals reach, and literals that never hold.
ghost use Rattle.std.specs.Prelude.{◌≡◌, ◌<◌, length};
ghost use Rattle.runs.specs.Runs.{literal_count, literal_in, literals_of};
ghost use Rattle.runs.specs.Fit.{Every, NamedAt};
ghost use Rattle.search_plan.specs.Asked.{idle as idle_of, self_unequal, never as never_of};
ghost use Rattle.search_plan.specs.Sets.{sides as sides_of, reached_by};

use runs::{is_equal, left_in, literal_count, right_in};

// Whether literal l is p = p.
fn idle(literals: &[u16], l: usize) -> bool
    requires { l < literal_count literals.now }
    ensures { result ≡ idle_of (literal_in literals.now l) }
{
    is_equal(literals, l) && left_in(literals, l) == right_in(literals, l)
}

// The variables of the sides of literal l, or none where it is p = p.
fn sides(literals: &[u16], sets: &[u8], l: usize) -> u8
    requires l_bound { l < literal_count literals.now }
    requires named_at { NamedAt literals.now (length sets.now) l }
    ensures { result ≡ sides_of sets.now (literal_in literals.now l) }
{
    if idle(literals, l) {
        return 0;
    }
    sets[left_in(literals, l)] | sets[right_in(literals, l)]
}

pub(crate) fn asked(literals: &[u16], sets: &[u8]) -> u8
    requires { Every (literal_count literals.now) (NamedAt literals.now (length sets.now)) }
    ensures { result ≡ reached_by sets.now (literals_of literals.now) }
{
    let n = literal_count(literals);
    let mut all = 0;
    for l in 0..n {
        all = all | sides(literals, sets, l);
    }
    all
}

// Whether literal l is p unequal p.
fn self_unequal(literals: &[u16], l: usize) -> bool
    requires { l < literal_count literals.now }
    ensures { result ≡ self_unequal (literal_in literals.now l) }
{
    !is_equal(literals, l) && left_in(literals, l) == right_in(literals, l)
}

pub(crate) fn never(literals: &[u16]) -> bool
    ensures { result ≡ never_of (literals_of literals.now) }
{
    let n = literal_count(literals);
    for l in 0..n {
        if self_unequal(literals, l) {
            return true;
        }
    }
    false
}
