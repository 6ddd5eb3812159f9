// The keys of entries: a symbol over the numbers of the arguments.
ghost use Rattle.std.specs.Prelude.{◌≡◌, ◌+◌, ◌*◌, ◌≤◌, ◌<◌, length};
ghost use Rattle.meaning.specs.Checking.{key_of, same_key};
ghost use Rattle.runs.specs.Limits.{arg_places};
ghost use Rattle.runs.specs.Runs.{row_count, count_in, args_in, row_in, pattern_count, pattern_count_in};
ghost use Rattle.grounds_numbers.specs.Limits.{most_numbers};
ghost use Rattle.grounds_numbers.specs.Keys.{ArgNumbers, Holds, Copied, pattern_row, Keyed, Like};

use super::numbers::number_after;
use runs::limits::{PATTERN, PLACES, ROW};
use runs::{count_in, head_in, pattern_count_in, symbol_in};

#[derive(Clone, Copy)]
pub(crate) struct Key {
    pub symbol: u16,
    pub count: u16,
    pub places: [u16; PLACES],
}

// The numbers of the arguments that stand from a place on, which are entries after so many, and 0 past the last.
fn places_of(run: &[u16], at: usize, count: usize, numbers: &[u16], offset: usize) -> [u16; PLACES]
    requires room { at + arg_places ≤ length run.now }
    requires count_le_arg_places { count ≤ arg_places }
    requires offset_in_bounds { offset ≤ length numbers.now }
    ensures { ArgNumbers numbers.now run.now at offset count result }
{
    let mut places = [0; PLACES];
    for k in 0..count {
        places[k] = number_after(numbers, offset, usize::from(run[at + k]));
    }
    places
}

// The key of context row i.
pub(crate) fn row_key(rows: &[u16], numbers: &[u16], i: usize) -> Key
    requires i_bound { i < row_count rows.now }
    requires i_bound_2 { count_in rows.now i ≤ arg_places }
    ensures { Holds (key_of numbers.now (row_in rows.now i)) result.symbol result.count result.places }
{
    let count = count_in(rows, i);
    Key {
        symbol: symbol_in(rows, i),
        count: count as u16,
        places: places_of(rows, i * ROW + 2, count, numbers, 0),
    }
}

// The key of pattern row i, a symbol over pattern rows.
pub(crate) fn pattern_key(patterns: &[u16], numbers: &[u16], offset: usize, i: usize) -> Key
    requires offset_in_bounds { offset ≤ length numbers.now }
    requires i_bound { i < pattern_count patterns.now }
    requires i_bound_2 { pattern_count_in patterns.now i ≤ arg_places }
    ensures { Holds (key_of numbers.now (pattern_row offset patterns.now i)) result.symbol result.count result.places }
{
    let count = pattern_count_in(patterns, i);
    Key {
        symbol: head_in(patterns, i),
        count: count as u16,
        places: places_of(patterns, i * PATTERN + 3, count, numbers, offset),
    }
}

// The key of an entry that has one.
pub(crate) fn held_key(keys: &[u16], i: usize) -> Key
    requires i_bound { i < row_count keys.now }
    requires i_bound_2 { count_in keys.now i ≤ arg_places }
    ensures { Copied keys.now i result.symbol result.count result.places }
{
    let at = i * ROW + 2;
    let mut places = [0; PLACES];
    places.copy_from_slice(&keys[at..at + PLACES]);
    Key {
        symbol: symbol_in(keys, i),
        count: count_in(keys, i) as u16,
        places,
    }
}

// The numbers of the arguments of entry i.
fn args_in(keys: &[u16], i: usize) -> &[u16]
    requires i_bound { i < row_count keys.now }
    requires i_bound_2 { count_in keys.now i ≤ arg_places }
    ensures { result.now ≡ args_in keys.now i }
{
    let at = i * ROW + 2;
    &keys[at..at + count_in(keys, i)]
}

// Whether entries i and j have one key.
fn same_key(keys: &[u16], i: usize, j: usize, n: usize) -> bool
    requires keyed { Keyed keys.now n }
    requires i_lt_n { i < n }
    requires j_lt_n { j < n }
    ensures { result ≡ same_key (row_in keys.now i) (row_in keys.now j) }
{
    symbol_in(keys, i) == symbol_in(keys, j) && args_in(keys, i) == args_in(keys, j)
}

// The number of the first entry before entry e that has its key, or e.
pub(crate) fn like(keys: &[u16], numbers: &[u16], e: usize) -> u16
    requires keyed { Keyed keys.now (e + 1) }
    requires e_in_bounds { e ≤ length numbers.now }
    requires e_lt_most_numbers { e < most_numbers }
    ensures { Like keys.now numbers.now e result }
{
    for j in 0..e {
        if same_key(keys, e, j, e + 1) {
            return numbers[j];
        }
    }
    e as u16
}
