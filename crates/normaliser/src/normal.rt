// The normal text of a context whose representatives are known.
ghost use Rattle.std.specs.Prelude.{◌≡◌, ◌+◌, ◌*◌, ◌<◌, ◌≤◌, length};
ghost use Rattle.runs.specs.Limits.{most_rows, most_statements};
ghost use Rattle.runs.specs.Runs.{row_count, count_in};
ghost use Rattle.runs.specs.Fit.{RowAt};
ghost use Rattle.reply_lines.specs.Pieces.{low8, Room, Put, LineRoom};
ghost use Rattle.normaliser.specs.Pieces.{row_piece, join_piece, key_line, row_lines, join_lines, key_lines};
ghost use Rattle.normaliser.specs.Rooms.{head_fields, pair_fields, line_length, row_length, pair_length, row_fields, rows_size, join_size, joins_size, RowsFit, RowRoom, JoinRoom, JoinsRoom};
ghost use Rattle.normaliser.specs.Normals.{Writable, text_of, text_size, TextRoom, SpacesFit};
ghost use Rattle.normaliser.specs.Claims.{WritesNormal};

use crate::keys::{first_of, second_of, sorted_keys};
use replies::Refusal;
use reply_lines::hex::{FIELDS, high, low, put_frame};
use runs::limits::STATEMENTS;
use runs::{arg_in, count_in, row_count, symbol_in};

// The fields of a row's line before its arguments, and those of an equation's line or a difference's.
const HEAD_FIELDS: usize = 4;

const PAIR_FIELDS: usize = 3;

// The bytes of an equation's line, and of a difference's.
const PAIR: usize = PAIR_FIELDS * 2 + 1;

// A number's low byte.
fn byte(x: usize) -> u8
    ensures { result ≡ low8 x }
{
    (x % 256) as u8
}

// The fields of a row's line.
fn row_fields(rows: &[u16], i: usize) -> [u8; FIELDS]
    requires { i < row_count rows.now }
    ensures { result ≡ row_fields rows.now i }
{
    let s = symbol_in(rows, i);
    [
        1,
        high(s),
        low(s),
        byte(count_in(rows, i)),
        byte(arg_in(rows, i, 0)),
        byte(arg_in(rows, i, 1)),
        byte(arg_in(rows, i, 2)),
        byte(arg_in(rows, i, 3)),
    ]
}

fn put_row(rows: &[u16], i: usize, lent: &mut [u8], at: usize) -> usize
    requires { RowRoom rows.now i lent.old at }
    ensures { Put lent.old at (row_piece rows.now i) result lent.new }
{
    put_frame(
        row_fields(rows, i),
        HEAD_FIELDS + count_in(rows, i),
        lent,
        at,
    )
}

fn put_rows(rows: &[u16], lent: &mut [u8], at: usize) -> usize
    requires rows_fit { RowsFit rows.now }
    requires room { Room lent.old at (row_lines rows.now) }
    ensures { Put lent.old at (row_lines rows.now) result lent.new }
{
    let mut to = at;
    for i in 0..row_count(rows) {
        to = put_row(rows, i, lent, to);
    }
    to
}

fn row_length(rows: &[u16], i: usize) -> usize
    requires i_bound { i < row_count rows.now }
    requires row_at { RowAt rows.now i }
    ensures { (result ≡ line_length (head_fields + count_in rows.now i)) × (result ≤ row_length) }
{
    (HEAD_FIELDS + count_in(rows, i)) * 2 + 1
}

fn rows_length(rows: &[u16]) -> usize
    requires { RowsFit rows.now }
    ensures { (result ≡ rows_size rows.now (row_count rows.now)) × (result ≤ most_rows * row_length) }
{
    let mut sum = 0;
    for i in 0..row_count(rows) {
        sum += row_length(rows, i);
    }
    sum
}

// The equation of row i and its representative, where that is another row.
fn put_join(table: &[u16], i: usize, lent: &mut [u8], at: usize) -> usize
    requires { JoinRoom table.now i lent.old at }
    ensures { Put lent.old at (join_piece table.now i) result lent.new }
{
    let p = table[i];
    if usize::from(p) == i {
        return at;
    }
    put_frame([2, low(p), byte(i), 0, 0, 0, 0, 0], PAIR_FIELDS, lent, at)
}

fn put_joins(table: &[u16], n: usize, lent: &mut [u8], at: usize) -> usize
    requires { JoinsRoom table.now n lent.old at }
    ensures { Put lent.old at (join_lines table.now n) result lent.new }
{
    let mut to = at;
    for i in 0..n {
        to = put_join(table, i, lent, to);
    }
    to
}

fn join_length(table: &[u16], i: usize) -> usize
    requires { i < length table.now }
    ensures { (result ≡ join_size table.now i) × (result ≤ pair_length) }
{
    if usize::from(table[i]) == i { 0 } else { PAIR }
}

fn joins_length(table: &[u16], n: usize) -> usize
    requires n_in_bounds { n ≤ length table.now }
    requires n_le_most_rows { n ≤ most_rows }
    ensures { (result ≡ joins_size table.now n) × (result ≤ most_rows * pair_length) }
{
    let mut sum = 0;
    for i in 0..n {
        sum += join_length(table, i);
    }
    sum
}

// The line of a difference, by its key.
fn put_key(key: u32, lent: &mut [u8], at: usize) -> usize
    requires { LineRoom pair_fields at lent.old }
    ensures { Put lent.old at (key_line key) result lent.new }
{
    let fields = [3, low(first_of(key)), low(second_of(key)), 0, 0, 0, 0, 0];
    put_frame(fields, PAIR_FIELDS, lent, at)
}

fn put_keys(keys: &[u32], lent: &mut [u8], at: usize) -> usize
    requires { Room lent.old at (key_lines keys.now) }
    ensures { Put lent.old at (key_lines keys.now) result lent.new }
{
    let mut to = at;
    for key in keys {
        to = put_key(*key, lent, to);
    }
    to
}

// The bytes of the text with n differences.
fn text_length(rows: &[u16], table: &[u16], n: usize) -> usize
    requires rows_fit { RowsFit rows.now }
    requires rows_in_bounds { row_count rows.now ≤ length table.now }
    requires n_le_most_statements { n ≤ most_statements }
    ensures { result ≡ text_size rows.now table.now n }
{
    rows_length(rows) + (joins_length(table, row_count(rows)) + n * PAIR)
}

fn put_text(rows: &[u16], table: &[u16], keys: &[u32], lent: &mut [u8]) -> usize
    requires { TextRoom rows.now table.now keys.now lent.old }
    ensures { Put lent.old 0 (text_of rows.now table.now keys.now) result lent.new }
{
    let a = put_rows(rows, lent, 0);
    let b = put_joins(table, row_count(rows), lent, a);
    put_keys(keys, lent, b)
}

// Writes the normal text, or nothing where it is longer than the lent space. The two spaces for keys are lent, too.
fn write_with(
    rows: &[u16],
    said: &[u16],
    table: &[u16],
    keys: &mut [u32],
    spare: &mut [u32],
    lent: &mut [u8],
) -> Result<usize, Refusal>
    requires writable { Writable rows.now said.now table.now }
    requires spaces_fit { SpacesFit said.now keys.old spare.old }
    ensures { WritesNormal rows.now said.now table.now lent.old result lent.new }
{
    let n = sorted_keys(said, table, keys, spare);
    let length = text_length(rows, table, n);
    if lent.len() < length {
        return Err(Refusal {
            number: 10,
            line: 0,
            offset: 0,
        });
    }
    put_text(rows, table, &keys[..n], lent);
    Ok(length)
}

pub(crate) fn write_normal(
    rows: &[u16],
    said: &[u16],
    table: &[u16],
    lent: &mut [u8],
) -> Result<usize, Refusal>
    requires { Writable rows.now said.now table.now }
    ensures { WritesNormal rows.now said.now table.now lent.old result lent.new }
{
    let mut keys = [0; STATEMENTS];
    let mut spare = [0; STATEMENTS];
    write_with(rows, said, table, &mut keys, &mut spare, lent)
}
