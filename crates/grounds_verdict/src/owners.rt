// The owners of steps: all literals together, or one unequal literal, which adds its equation.
ghost use Rattle.std.specs.Prelude.{◌&&◌, ◌≡◌, ◌≢◌, ◌+◌, ◌<◌, MatchOption, false};
ghost use Rattle.meaning.specs.Checking.{owner_by};
ghost use Rattle.runs.specs.Runs.{literal_count, sign_in, literals_of};
ghost use Rattle.grounds_verdict.specs.Tests.{owned_at, added_at};

use super::table::Table;
use super::words::place_of;
use runs::{is_equal, left_in, literal_count, right_in};

// The place of the unequal literal that an owner is.
fn owned(literals: &[u16], owner: u64) -> Option<usize>
    ensures { MatchOption result (owned_at literals.now owner ≡ false) (λ place. (owner ≡ place + 1) × (place < literal_count literals.now) × (sign_in literals.now place ≢ 6)) }
{
    let place = place_of(owner, literal_count(literals))?;
    // No then_some: the two ways are proved apart.
    if is_equal(literals, place) {
        None
    } else {
        Some(place)
    }
}

// Whether an owner is 0, or the number of an unequal literal.
pub(crate) fn owner_there(literals: &[u16], owner: u64) -> bool
    ensures { result ≡ owner_by (literals_of literals.now) owner }
{
    owner == 0 || owned(literals, owner).is_some()
}

// Whether the owner is an unequal literal, and its instances are l and r.
pub(crate) fn added(table: &Table, literals: &[u16], owner: u64, l: usize, r: usize) -> bool
    ensures { result ≡ added_at literals.now table.now.numbers.now table.now.rows owner l r }
{
    let Some(place) = owned(literals, owner) else {
        return false;
    };
    table.instance(left_in(literals, place)) == l && table.instance(right_in(literals, place)) == r
}
