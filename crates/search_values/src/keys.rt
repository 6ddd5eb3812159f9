// A row's symbol and its number as one number, the key by which rows are sorted.
ghost use Rattle.std.specs.Prelude.{◌≡◌, ◌*◌, ◌/◌, ◌%◌, ◌<◌};
ghost use Rattle.runs.specs.Runs.{row_count};
ghost use Rattle.search_values.specs.Index.{key_base, row_key};

use runs::symbol_in;

// What a symbol counts in a key: more than any row's number.
const BASE: u32 = 65536;

pub(crate) fn row_key(rows: &[u16], i: usize) -> u32
    requires i_bound { i < row_count rows.now }
    requires i_lt_key_base { i < key_base }
    ensures { result ≡ row_key rows.now i }
{
    u32::from(symbol_in(rows, i)) * BASE + i as u32
}

// The lowest number that a key of a symbol can be.
pub(crate) fn lowest_key(symbol: u16) -> u32
    ensures { result ≡ symbol * key_base }
{
    u32::from(symbol) * BASE
}

// The symbol and the row of a key.
pub(crate) fn key_symbol(key: u32) -> u16
    ensures { result ≡ key / key_base }
{
    (key / BASE) as u16
}

pub(crate) fn key_row(key: u32) -> usize
    ensures { result ≡ key % key_base }
{
    usize::from((key % BASE) as u16)
}
