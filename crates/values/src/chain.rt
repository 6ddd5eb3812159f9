// Chains of the context rows with one symbol, and the look-up of a row by its symbol and its arguments' classes.
ghost use Rattle.std.specs.Prelude.{◌≡◌, ◌&&◌, map, ◌%◌, ◌<◌, ◌≤◌, eqb, get_or, take, replicate};
ghost use Rattle.meaning.specs.Equality.{rep_at};
ghost use Rattle.meaning.specs.ByTable.{same_list};
ghost use Rattle.meaning.specs.Columns.{args_at};
ghost use Rattle.columns.specs.Lent.{rows_in};
ghost use Rattle.values.specs.Chains.{Chained, Lined, Looked, LedgerFits};

use columns::Terms;

// The first row of each chain, and the next row after each; 255 ends a chain. A chain holds the rows whose symbols leave one
// remainder by 256, rising. No Option: a row takes two bytes, and none is told by the number past the last.
#[derive(Clone, Copy)]
pub struct Chains {
    pub first: [u16; 256],
    pub next: [u16; 255],
}

// The rows of a context, a table of representatives, and the chains.
#[derive(Clone, Copy)]
pub struct Ledger<'a> {
    pub terms: Terms<'a>,
    pub table: &'a [u16; 255],
    pub chains: &'a Chains,
}

fn ended() -> Chains
    ensures { (result.first ≡ replicate 256 255) × (result.next ≡ replicate 255 255) }
{
    Chains {
        first: [255; 256],
        next: [255; 255],
    }
}

fn bucket(symbol: u16) -> usize
    ensures { result ≡ symbol % 256 }
{
    usize::from(symbol % 256)
}

pub fn link(symbols: &[u16; 255], rows: usize) -> Chains
    requires { rows ≤ 255 }
    ensures { Chained symbols.now rows result.first result.next }
{
    let mut chains = ended();
    for i in (0..rows).rev() {
        let b = bucket(symbols[i]);
        chains.next[i] = chains.first[b];
        chains.first[b] = i as u16;
    }
    chains
}

// Whether row i has a symbol over so many classes.
fn row_has(ledger: &Ledger, i: usize, symbol: u16, count: usize, wanted: [u32; 4]) -> bool
    requires i_bound { i < 255 }
    requires lined { Lined ledger.now.terms.counts.now ledger.now.terms.args.now i count }
    ensures { result ≡ (eqb symbol (get_or ledger.now.terms.symbols.now i 0) && same_list (take count wanted) (map (rep_at ledger.now.table.now) (args_at ledger.now.terms.counts.now ledger.now.terms.args.now i))) }
{
    let Terms {
        symbols,
        counts,
        args,
        ..
    } = ledger.terms;
    let table = ledger.table;
    if symbols[i] != symbol {
        return false;
    }
    if usize::from(counts[i]) != count {
        return false;
    }
    for k in 0..count {
        if u32::from(table[usize::from(args[i * 4 + k])]) != wanted[k] {
            return false;
        }
    }
    true
}

// The representative of the first row that has a symbol over so many classes.
pub(crate) fn held(ledger: &Ledger, symbol: u16, count: usize, wanted: [u32; 4]) -> Option<u16>
    requires ledger_fit { LedgerFits ledger.now }
    requires count_bound { count ≤ 4 }
    ensures { Looked (rep_at ledger.now.table.now) symbol (take count wanted) (rows_in ledger.now.terms) result }
{
    let Ledger {
        terms,
        table,
        chains,
    } = *ledger;
    let mut i = usize::from(chains.first[bucket(symbol)]);
    // No iterator: each row of a chain leads to the next.
    while i < terms.rows {
        if row_has(ledger, i, symbol, count, wanted) {
            return Some(table[i]);
        }
        i = usize::from(chains.next[i]);
    }
    None
}
