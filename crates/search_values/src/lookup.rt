// The look-up of a row by its symbol and the classes of its arguments, among rows that are sorted by symbol.
ghost use Rattle.std.specs.Prelude.{map, ◌≡◌, ◌*◌, ◌<◌, length};
ghost use Rattle.meaning.specs.ByTable.{same_list};
ghost use Rattle.meaning.specs.Equality.{rep_at};
ghost use Rattle.runs.specs.Runs.{count_in, arg_in, args_in, rows_of};
ghost use Rattle.search_values.specs.Index.{key_base};
ghost use Rattle.search_values.specs.Lookup.{Ascends, FirstFrom, RowFit, LedgerFit, Looked};

use super::Ledger;
use super::keys::{key_row, key_symbol, lowest_key};
use runs::{arg_in, count_in};

// The first place with a key of a symbol, or of a higher one.
fn first_of(keys: &[u32], symbol: u16) -> usize
    requires { Ascends keys.now }
    ensures { FirstFrom keys.now (symbol * key_base) result }
{
    let sought = lowest_key(symbol);
    keys.partition_point(|key| *key < sought)
}

impl<'a> Ledger<'a> {
    // The class of argument k of row i.
    fn arg_class(&self, i: usize, k: usize) -> u32
        requires row_fit { RowFit self.now.rows.now (length self.now.table.now) i }
        requires k_bound { k < count_in self.now.rows.now i }
        ensures { result ≡ rep_at self.now.table.now (arg_in self.now.rows.now i k) }
    {
        u32::from(self.table[arg_in(self.rows, i, k)])
    }

    // Whether the arguments of row i have the classes that are wanted.
    // Beside the one of pattern rows: an argument's class comes from other runs, and the contracts differ.
    fn args_are(&self, i: usize, wanted: &[u32]) -> bool
        requires { RowFit self.now.rows.now (length self.now.table.now) i }
        ensures { result ≡ same_list wanted.now (map (rep_at self.now.table.now) (args_in self.now.rows.now i)) }
    {
        let n = wanted.len();
        if count_in(self.rows, i) != n {
            return false;
        }
        for k in 0..n {
            if self.arg_class(i, k) != wanted[k] {
                return false;
            }
        }
        true
    }

    // The class of the first row that is a symbol over the classes that are wanted.
    pub(crate) fn held(&self, symbol: u16, wanted: &[u32]) -> Option<u32>
        requires { LedgerFit self.now.rows.now self.now.table.now self.now.keys.now }
        ensures { Looked (rep_at self.now.table.now) symbol wanted.now (rows_of self.now.rows.now) result }
    {
        let n = self.keys.len();
        for p in first_of(self.keys, symbol)..n {
            let key = self.keys[p];
            if key_symbol(key) != symbol {
                return None;
            }
            let i = key_row(key);
            if self.args_are(i, wanted) {
                return Some(u32::from(self.table[i]));
            }
        }
        None
    }
}
