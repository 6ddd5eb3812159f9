// The entries: the context's rows, and then the pattern rows under an assignment, with their keys and numbers.
ghost use Rattle.std.specs.Prelude.{◌∷◌, ◌≡◌, ◌+◌, ◌*◌, ◌≤◌, ◌<◌, length};
ghost use Rattle.runs.specs.Limits.{row_size};
ghost use Rattle.runs.specs.Runs.{put};
ghost use Rattle.grounds_numbers.specs.Limits.{most_numbers};
ghost use Rattle.grounds_numbers.specs.Keys.{Holds, Keyed, Numbered};
ghost use Rattle.grounds_numbers.specs.Entries.{entries_of, entry_count, key_for, Fillable, Filled, Room};

use super::keys::{Key, held_key, like, pattern_key, row_key};
use runs::limits::VARIABLES;
use runs::writing::put_row;
use runs::{head_in, is_variable, pattern_count, row_count};

// How many entries there are.
pub fn entry_count(rows: &[u16], patterns: &[u16]) -> usize
    ensures { result ≡ entry_count rows.now patterns.now }
{
    row_count(rows) + pattern_count(patterns)
}

// The key of entry e, by the entries before it: a context row's, or a pattern row's. A variable's is that of its context row.
fn entry_key(
    rows: &[u16],
    patterns: &[u16],
    asg: [u16; VARIABLES],
    keys: &[u16],
    numbers: &[u16],
    e: usize,
) -> Key
    requires fillable { Fillable rows.now patterns.now asg }
    requires filled { Filled (entries_of rows.now asg patterns.now) keys.now numbers.now e }
    requires e_bound { e < entry_count rows.now patterns.now }
    ensures { Holds (key_for rows.now asg patterns.now numbers.now e) result.symbol result.count result.places }
{
    let n = row_count(rows);
    if e < n {
        return row_key(rows, numbers, e);
    }
    let p = e - n;
    if is_variable(patterns, p) {
        let v = usize::from(head_in(patterns, p));
        return held_key(keys, usize::from(asg[v]));
    }
    pattern_key(patterns, numbers, n, p)
}

// Entry e gets a key.
fn put_key(keys: &mut [u16], e: usize, k: Key)
    requires { e * row_size + row_size ≤ length keys.old }
    ensures { keys.new ≡ put row_size keys.old e (k.symbol ∷ k.count ∷ k.places) }
{
    put_row(keys, e, k.symbol, k.count, k.places);
}

// Entry e, which has a key, gets its number.
fn number(keys: &[u16], numbers: &mut [u16], e: usize)
    requires keyed { Keyed keys.now (e + 1) }
    requires e_in_bounds { e < length numbers.old }
    requires e_lt_most_numbers { e < most_numbers }
    ensures { Numbered keys.now numbers.old e numbers.new }
{
    numbers[e] = like(keys, numbers, e);
}

// Each entry gets its key and its number.
pub fn fill(
    rows: &[u16],
    patterns: &[u16],
    asg: [u16; VARIABLES],
    keys: &mut [u16],
    numbers: &mut [u16],
)
    requires fillable { Fillable rows.now patterns.now asg }
    requires room { Room rows.now patterns.now keys.old numbers.old }
    ensures { Filled (entries_of rows.now asg patterns.now) keys.new numbers.new (entry_count rows.now patterns.now) }
{
    for e in 0..entry_count(rows, patterns) {
        put_key(keys, e, entry_key(rows, patterns, asg, keys, numbers, e));
        number(keys, numbers, e);
    }
}
