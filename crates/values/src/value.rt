// The values of pattern rows under a choice of rows: a class, or from 65,536 on a term outside the table, by the row that was first to have it.
ghost use Rattle.std.specs.Prelude.{◌≡◌, ◌++◌, ◌+◌, ◌≤◌, ◌<◌, get_or, take, drop};
ghost use Rattle.meaning.specs.Columns.{args_at, pattern_of};
ghost use Rattle.meaning.specs.Values.{args_of, is_over, met as met_by};
ghost use Rattle.columns.specs.Lent.{patterns_in};
ghost use Rattle.plan.specs.Planning.{RuleFits};
ghost use Rattle.values.specs.Reading.{Shaped, Listed, AskedIn, look_in, term_in, read_in};

use crate::chain::{Ledger, held};
use columns::Patterns;

// The pattern rows that are read in an order, over a ledger.
#[derive(Clone, Copy)]
pub struct Reading<'a> {
    pub ledger: Ledger<'a>,
    pub patterns: Patterns<'a>,
    pub order: &'a [u8; 64],
}

fn own(row: usize) -> u32
    requires { row < 64 }
    ensures { result ≡ 65536 + row }
{
    65536 + row as u32
}

// Whether pattern row q is a symbol over so many values.
fn over(
    patterns: &Patterns,
    values: &[u32; 64],
    q: usize,
    symbol: u16,
    count: usize,
    wanted: [u32; 4],
) -> bool
    requires { Shaped patterns.now.kinds.now patterns.now.heads.now patterns.now.counts.now patterns.now.args.now q count }
    ensures { result ≡ is_over symbol (take count wanted) values.now (pattern_of (get_or patterns.now.kinds.now q 0) (get_or patterns.now.heads.now q 0) (args_at patterns.now.counts.now patterns.now.args.now q)) }
{
    let Patterns {
        heads,
        counts,
        args,
        ..
    } = *patterns;
    if patterns.is_variable(q) {
        return false;
    }
    if heads[q] != symbol {
        return false;
    }
    if usize::from(counts[q]) != count {
        return false;
    }
    for k in 0..count {
        if values[usize::from(args[q * 4 + k])] != wanted[k] {
            return false;
        }
    }
    true
}

// The value of the first row read that is a symbol over so many values, or another.
// No struct: the symbol, its count and the classes wanted are asked once.
fn met(
    reading: &Reading,
    read: usize,
    values: &[u32; 64],
    symbol: u16,
    count: usize,
    wanted: [u32; 4],
    other: u32,
) -> u32
    requires rule_fit { RuleFits reading.now.patterns }
    requires listed { Listed reading.now.order.now read reading.now.patterns.rows }
    requires count_bound { count ≤ 4 }
    ensures { result ≡ met_by (patterns_in reading.now.patterns) symbol (take count wanted) values.now other (take read reading.now.order.now) }
{
    let order = reading.order;
    for j in 0..read {
        let q = usize::from(order[j]);
        if over(&reading.patterns, values, q, symbol, count, wanted) {
            return values[q];
        }
    }
    other
}

// The row that is chosen for the variable of a pattern row.
fn given(heads: &[u16; 64], row: usize, chosen: [u16; 4]) -> u32
    requires { (row < 64) × (get_or heads.now row 0 < 4) }
    ensures { result ≡ get_or chosen (get_or heads.now row 0) 0 }
{
    let v = usize::from(heads[row]);
    u32::from(chosen[v])
}

// The value of a symbol row over the values of its arguments.
fn look(reading: &Reading, read: usize, values: &[u32; 64], row: usize, wanted: [u32; 4]) -> u32
    requires asked { AskedIn reading.now read }
    requires row_lt_patterns { (row < reading.now.patterns.rows) × (get_or reading.now.patterns.kinds.now row 0 ≡ 4 → ⊥) }
    ensures { result ≡ look_in reading.now wanted values.now read row }
{
    let Patterns { heads, counts, .. } = reading.patterns;
    let f = heads[row];
    let n = usize::from(counts[row]);
    match held(&reading.ledger, f, n, wanted) {
        Some(v) => u32::from(v),
        None => met(reading, read, values, f, n, wanted, own(row)),
    }
}

// The value of a row. Rows before the fresh one have been read, and their values come from the list.
// No struct: the rest of what is handed on stays, and the row alone changes.
#[cycle(term_walk)]
fn term(
    reading: &Reading,
    read: usize,
    chosen: [u16; 4],
    values: &[u32; 64],
    fresh: usize,
    row: usize,
) -> u32
    requires asked { AskedIn reading.now read }
    requires row_le_fresh { (row ≤ fresh) × (fresh < reading.now.patterns.rows) }
    ensures { result ≡ term_in reading.now chosen values.now read fresh row }
{
    if row < fresh {
        return values[row];
    }
    if reading.patterns.is_variable(row) {
        return given(reading.patterns.heads, row, chosen);
    }
    let w = walk(reading, read, chosen, values, fresh, row, 0, [0; 4]);
    look(reading, read, values, row, w)
}

// The values of the arguments of a row, from argument k on.
// No struct: the place and what is done change from one argument to the next.
#[cycle(term_walk)]
fn walk(
    reading: &Reading,
    read: usize,
    chosen: [u16; 4],
    values: &[u32; 64],
    fresh: usize,
    row: usize,
    k: usize,
    done: [u32; 4],
) -> [u32; 4]
    requires asked { AskedIn reading.now read }
    requires row_le_fresh { (row ≤ fresh) × (fresh < reading.now.patterns.rows) × (k ≤ get_or reading.now.patterns.counts.now row 0) × (get_or reading.now.patterns.kinds.now row 0 ≡ 4 → ⊥) }
    ensures { take (get_or reading.now.patterns.counts.now row 0) result ≡ take k done ++ args_of values.now (drop k (args_at reading.now.patterns.counts.now reading.now.patterns.args.now row)) }
{
    let Patterns { counts, args, .. } = reading.patterns;
    if usize::from(counts[row]) <= k {
        return done;
    }
    let a = usize::from(args[row * 4 + k]);
    let v = term(reading, read, chosen, values, fresh, a);
    let mut w = done;
    w[k] = v;
    walk(reading, read, chosen, values, fresh, row, k + 1, w)
}

// The value of a row that has not been read.
fn value_at(reading: &Reading, read: usize, chosen: [u16; 4], values: &[u32; 64], row: usize) -> u32
    requires asked { AskedIn reading.now read }
    requires row_lt_patterns { row < reading.now.patterns.rows }
    ensures { result ≡ term_in reading.now chosen values.now read row row }
{
    if reading.patterns.is_variable(row) {
        return given(reading.patterns.heads, row, chosen);
    }
    term(reading, read, chosen, values, row, row)
}

// The rows from one place of the order up to another are read.
pub fn read(
    reading: &Reading,
    from: usize,
    to: usize,
    chosen: [u16; 4],
    values: &[u32; 64],
) -> [u32; 64]
    requires asked { AskedIn reading.now to }
    requires from_le_to { from ≤ to }
    ensures { result ≡ read_in reading.now chosen values.now from to }
{
    let order = reading.order;
    let mut values = *values;
    for j in from..to {
        let row = usize::from(order[j]);
        values[row] = value_at(reading, j, chosen, &values, row);
    }
    values
}
