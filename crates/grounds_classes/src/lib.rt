// Closed classes of entries, with numbered steps that show them.
// Flat numbers: the laws speak of a run.
#![tactic(auto)]

pub mod classes;
mod draft;
mod keys;
pub mod rounds;
pub mod sides;

ghost use Rattle.std.specs.Prelude.{◌≡◌, ◌<◌};
ghost use Rattle.grounds_numbers.specs.Limits.{most_numbers};
ghost use Rattle.grounds_numbers.specs.Pairs.{pair_count};
ghost use Rattle.grounds_laws.specs.Classes.{state_of};
ghost use Rattle.grounds_classes.specs.Settling.{Entered, settled_by, furthered_by};

use keys::Entries;

// Closed classes of entries, by their keys and numbers and the stated equations, with a step for each entry's label.
pub fn settle(cells: &mut [u16], table: &mut [u16], keys: &[u16], numbers: &[u16], pairs: &[u16])
    requires entered { Entered keys.now }
    requires pairs_bound { pair_count pairs.now < most_numbers }
    ensures { state_of cells.new table.new ≡ settled_by keys.now numbers.now pairs.now (state_of cells.old table.old) }
{
    let entries = Entries { keys };
    let mut classes = classes::Classes { cells, table };
    classes.start(entries, numbers);
    classes.state_all(entries, pairs);
    classes.rounds(entries);
}

// The classes of entries x and y become one by an added equation, and the classes are closed again.
pub fn close_further(cells: &mut [u16], table: &mut [u16], keys: &[u16], x: u16, y: u16)
    requires { Entered keys.now }
    ensures { state_of cells.new table.new ≡ furthered_by keys.now x y (state_of cells.old table.old) }
{
    let entries = Entries { keys };
    let mut classes = classes::Classes { cells, table };
    classes.join_pair(entries, 6, x, y, 0);
    classes.rounds(entries);
}
