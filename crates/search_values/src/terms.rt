// The value of a pattern row under chosen rows: a class, or from 65,536 on a term outside the table, by the row that was first to have it.
ghost use Rattle.std.specs.Prelude.{◌≡◌, ◌+◌, ◌<◌, length, get_or, take};
ghost use Rattle.meaning.specs.ByTable.{same_list};
ghost use Rattle.meaning.specs.Values.{number_at, args_of, is_over};
ghost use Rattle.runs.specs.Limits.{most_patterns};
ghost use Rattle.runs.specs.Runs.{pattern_count, head_in, pattern_count_in, pattern_arg_in, pattern_args_in, pattern_in, patterns_of};
ghost use Rattle.search_plan.specs.Steps.{RowFit as PatternFit, ArgsFit};
ghost use Rattle.search_values.specs.Reading.{ReadFit, SymbolFit, VariableFit, Met};
ghost use Rattle.search_values.specs.Lent.{Asked, look_in, value_in};

use super::Reading;
use runs::limits::PLACES;
use runs::{head_in, is_variable, pattern_arg_in, pattern_count_in};

// The value of a term outside the table that row is the first to have: above all classes.
// No enum: a value is one number, and values are compared as numbers.
fn own(row: usize) -> u32
    requires { row < most_patterns }
    ensures { result ≡ 65536 + row }
{
    65536 + row as u32
}

impl<'a> Reading<'a> {
    // The value of argument k of row q.
    fn arg_value(&self, values: &[u32], q: usize, k: usize) -> u32
        requires args_fit { ArgsFit self.now.patterns.now (length values.now) q }
        requires k_bound { k < pattern_count_in self.now.patterns.now q }
        ensures { result ≡ number_at values.now (pattern_arg_in self.now.patterns.now q k) }
    {
        values[pattern_arg_in(self.patterns, q, k)]
    }

    // Whether the arguments of row q have the values that are wanted.
    // Beside the one of context rows: an argument's value comes from other runs, and the contracts differ.
    fn args_are(&self, values: &[u32], q: usize, wanted: &[u32]) -> bool
        requires { ArgsFit self.now.patterns.now (length values.now) q }
        ensures { result ≡ same_list wanted.now (args_of values.now (pattern_args_in self.now.patterns.now q)) }
    {
        let n = wanted.len();
        if pattern_count_in(self.patterns, q) != n {
            return false;
        }
        for k in 0..n {
            if self.arg_value(values, q, k) != wanted[k] {
                return false;
            }
        }
        true
    }

    // Whether row q is a symbol over the values that are wanted.
    fn over(&self, values: &[u32], q: usize, symbol: u16, wanted: &[u32]) -> bool
        requires { PatternFit self.now.patterns.now (length values.now) q }
        ensures { result ≡ is_over symbol wanted.now values.now (pattern_in self.now.patterns.now q) }
    {
        if is_variable(self.patterns, q) {
            return false;
        }
        head_in(self.patterns, q) == symbol && self.args_are(values, q, wanted)
    }

    // The value of the first row read that is a symbol over the values that are wanted.
    fn met(&self, values: &[u32], read: usize, symbol: u16, wanted: &[u32]) -> Option<u32>
        requires { ReadFit self.now.patterns.now self.now.order.now read (length values.now) }
        ensures { Met (patterns_of self.now.patterns.now) symbol wanted.now values.now (take read self.now.order.now) result }
    {
        for j in 0..read {
            let q = usize::from(self.order[j]);
            if self.over(values, q, symbol, wanted) {
                return Some(values[q]);
            }
        }
        None
    }

    // The row that is chosen for the variable of a row.
    fn given(&self, row: usize) -> u32
        requires { VariableFit self.now.patterns.now row }
        ensures { result ≡ get_or self.now.chosen (head_in self.now.patterns.now row) 0 }
    {
        let v = usize::from(head_in(self.patterns, row));
        u32::from(self.chosen[v])
    }

    // The value of a symbol row over the values of its arguments.
    fn look(&self, values: &[u32], read: usize, row: usize, args: &[u32]) -> u32
        requires asked { Asked self.now read (length values.now) }
        requires symbol_fit { SymbolFit self.now.patterns.now row }
        ensures { result ≡ look_in self.now row args.now values.now read }
    {
        let symbol = head_in(self.patterns, row);
        match self.ledger.held(symbol, args) {
            Some(class) => class,
            None => self.met(values, read, symbol, args).unwrap_or(own(row)),
        }
    }

    // The values of the arguments of a row, as many as it counts.
    fn arg_values(&self, values: &[u32], row: usize) -> [u32; PLACES]
        requires { ArgsFit self.now.patterns.now (length values.now) row }
        ensures { take (pattern_count_in self.now.patterns.now row) result ≡ args_of values.now (pattern_args_in self.now.patterns.now row) }
    {
        let n = pattern_count_in(self.patterns, row);
        let mut args = [0; PLACES];
        for k in 0..n {
            args[k] = self.arg_value(values, row, k);
        }
        args
    }

    // The value of a row that has not been read, by those of the rows before it.
    pub(crate) fn value_at(&self, values: &[u32], read: usize, row: usize) -> u32
        requires asked { Asked self.now read (length values.now) }
        requires row_bound { row < pattern_count self.now.patterns.now }
        ensures { result ≡ value_in self.now values.now read row }
    {
        if is_variable(self.patterns, row) {
            return self.given(row);
        }
        let n = pattern_count_in(self.patterns, row);
        let args = self.arg_values(values, row);
        self.look(values, read, row, &args[..n])
    }
}
