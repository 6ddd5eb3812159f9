// The values of pattern rows under chosen rows, over runs. The rows of a context are sorted by symbol once for a text, so that a row is found
// by its symbol and the classes of its arguments without a walk along all rows.
#![tactic(auto)]

ghost use Rattle.std.specs.Prelude.{◌≡◌, ◌≤◌, length};
ghost use Rattle.runs.specs.Runs.{row_count};
ghost use Rattle.search_values.specs.Index.{key_base, row_keys, IndexFit, Indexed};
ghost use Rattle.search_values.specs.Lent.{Asked, read_in};

use keys::row_key;
use runs::limits::VARIABLES;
use sorting::sort;

mod keys;
mod lookup;
mod terms;

// The rows of a context, the table of its classes, and the rows sorted by symbol.
#[derive(Clone, Copy)]
pub struct Ledger<'a> {
    pub rows: &'a [u16],
    pub table: &'a [u16],
    pub keys: &'a [u32],
}

// Pattern rows that are read in an order, under the rows that are chosen for their variables.
#[derive(Clone, Copy)]
pub struct Reading<'a> {
    pub ledger: Ledger<'a>,
    pub patterns: &'a [u16],
    pub order: &'a [u8],
    pub chosen: [u16; VARIABLES],
}

// The keys of all rows, row by row.
fn fill(rows: &[u16], keys: &mut [u32])
    requires rows_bound { row_count rows.now ≤ key_base }
    requires keys_len { length keys.old ≡ row_count rows.now }
    ensures { keys.new ≡ row_keys rows.now }
{
    let n = keys.len();
    // By index: the key is made from the row's number, and the invariant speaks of places.
    for i in 0..n {
        keys[i] = row_key(rows, i);
    }
}

// The rows of a context sorted by symbol and then by row, a key for each.
pub fn index(rows: &[u16], keys: &mut [u32], spare: &mut [u32])
    requires { IndexFit rows.now (length keys.old) (length spare.old) }
    ensures { Indexed rows.now keys.new }
{
    fill(rows, keys);
    sort(keys, spare);
}

impl<'a> Reading<'a> {
    // The rows of the order, from a place on, are read: each gets its value.
    pub fn read(&self, from: usize, values: &mut [u32])
        requires { Asked self.now (length self.now.order.now) (length values.old) }
        ensures { values.new ≡ read_in self.now values.old from }
    {
        let n = self.order.len();
        // By index: a row's value needs how many were read before it.
        for j in from..n {
            let row = usize::from(self.order[j]);
            let v = self.value_at(values, j, row);
            values[row] = v;
        }
    }
}
