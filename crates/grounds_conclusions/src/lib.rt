// What shows one literal by itself, from closed classes of shared steps: a step and, for an unequal literal, a stated difference.
#![tactic(auto)]

ghost use Rattle.std.specs.Prelude.{◌≡◌, IfSome, ℕ, ◌+◌, ◌≤◌, ◌<◌, length};
ghost use Rattle.std.specs.Option.{unwrap_or};
ghost use Rattle.runs.specs.Limits.{arg_places};
ghost use Rattle.runs.specs.Runs.{row_count, count_in};
ghost use Rattle.grounds_numbers.specs.Limits.{most_numbers};
ghost use Rattle.grounds_numbers.specs.Pairs.{pair_count, pairs_in};
ghost use Rattle.grounds_laws.specs.Limits.{class_run};
ghost use Rattle.grounds_laws.specs.Classes.{state_of};
ghost use Rattle.grounds_laws.specs.Concluding.{Found, said_same};
ghost use Rattle.grounds_conclusions.specs.Saying.{Says, differing_by, saying_by};

use grounds_classes::classes::same;
use grounds_classes::close_further;
use grounds_classes::rounds::same_label;
use grounds_classes::sides::{left_at, right_at};
use grounds_laws::CLASS_RUN;
use grounds_numbers::pairs::pair_count;
use runs::limits::EQUAL;

// The number of a step, and of the stated difference whose sides it says are equal.
#[derive(Clone, Copy)]
pub struct Shown {
    pub first: u16,
    pub difference: Option<u16>,
}

// Closed classes of all entries, the keys of these, and the stated differences.
#[derive(Clone, Copy)]
pub struct Closed<'a> {
    pub table: &'a [u16],
    pub keys: &'a [u16],
    pub apart: &'a [u16],
    ghost room: { length table.now ≤ class_run },
    ghost numbers: { row_count keys.now ≤ most_numbers },
    ghost few: { (x : ℕ) → x < row_count keys.now → count_in keys.now x ≤ arg_places },
    ghost apart_few: { pair_count apart.now + 1 < most_numbers },
}

// The first stated difference whose sides have one label.
fn place(table: &[u16], pairs: &[u16]) -> Option<usize>
    ensures { Found table.now (pairs_in pairs.now) (unwrap_or result (pair_count pairs.now)) }
{
    for i in 0..pair_count(pairs) {
        if same_label(table, left_at(pairs, i), right_at(pairs, i)) {
            return Some(i);
        }
    }
    None
}

// The sides of the first stated difference with one label are equal.
fn say_same(cells: &mut [u16], table: &[u16], pairs: &[u16]) -> Shown
    requires { pair_count pairs.now + 1 < most_numbers }
    ensures says { Says cells.new result.first (unwrap_or result.difference 0) (said_same cells.old table.now (pairs_in pairs.now)) }
    ensures told { IfSome result.difference (λ d. 0 < d) }
{
    let i = place(table, pairs).unwrap_or(pair_count(pairs));
    Shown {
        first: same(cells, table, left_at(pairs, i), right_at(pairs, i)),
        difference: Some((i + 1) as u16),
    }
}

// Adding x = y makes the sides of a stated difference equal; the classes are closed again in a table of their own.
fn say_differ(cells: &mut [u16], closed: Closed, x: u16, y: u16) -> Shown
    ensures says { Says cells.new result.first (unwrap_or result.difference 0) (differing_by closed.entry.keys.now closed.entry.apart.now x y (state_of cells.old closed.entry.table.now)) }
    ensures told { IfSome result.difference (λ d. 0 < d) }
{
    let mut run = [0; CLASS_RUN];
    let own = &mut run[..closed.table.len()];
    own.copy_from_slice(closed.table);
    close_further(cells, own, closed.keys, x, y);
    say_same(cells, own, closed.apart)
}

// For a literal of one kind or the other between two entries, from closed classes.
// No enum: the run of a rule holds the kind as a number, and any number but 6 is an unequal literal's.
pub fn say(cells: &mut [u16], closed: Closed, kind: u16, x: u16, y: u16) -> Shown
    ensures says { Says cells.new result.first (unwrap_or result.difference 0) (saying_by closed.entry.keys.now closed.entry.apart.now kind x y (state_of cells.old closed.entry.table.now)) }
    ensures told { IfSome result.difference (λ d. 0 < d) }
{
    if kind == EQUAL {
        Shown {
            first: same(cells, closed.table, x, y),
            difference: None,
        }
    } else {
        say_differ(cells, closed, x, y)
    }
}
