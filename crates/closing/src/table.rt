// A table of representatives: 255 places, by value or lent.
ghost use Rattle.std.specs.Prelude.{◌≡◌, map, ◌<◌, ◌≤◌, length};
ghost use Rattle.meaning.specs.Equality.{rep_at};
ghost use Rattle.meaning.specs.Closing.{move, total, unite as united, count as numbers};

// What a table holds at a row, and 0 past its end.
pub fn at_row(table: &[u16; 255], row: usize) -> u16
    ensures { result ≡ rep_at table.now row }
{
    if row < table.len() { table[row] } else { 0 }
}

// Each row represents itself.
pub(crate) fn own() -> [u16; 255]
    ensures { result ≡ numbers 255 0 }
{
    let mut t = [0; 255];
    for (i, place) in t.iter_mut().enumerate() {
        *place = i as u16;
    }
    t
}

fn moved(lo: u16, hi: u16, x: u16) -> u16
    ensures { result ≡ move lo hi x }
{
    if x == hi { lo } else { x }
}

// The class with the representative hi goes to lo.
fn move_class(table: &mut [u16; 255], lo: u16, hi: u16)
    ensures { table.new ≡ map (move lo hi) table.old }
{
    for place in table.iter_mut() {
        *place = moved(lo, hi, *place);
    }
}

// The classes of rows i and j become one, under the lower representative.
pub fn unite(table: &mut [u16; 255], i: usize, j: usize)
    ensures { table.new ≡ united i j table.old }
{
    let a = at_row(table, i);
    let b = at_row(table, j);
    if a < b {
        move_class(table, a, b);
    } else if b < a {
        move_class(table, b, a);
    }
}

// The sum of the representatives of the rows.
pub fn sum(table: &[u16; 255], rows: usize) -> usize
    requires { rows ≤ 255 }
    ensures { result ≡ total rows (rep_at table.now) }
{
    let mut s: usize = 0;
    for r in 0..rows {
        s += usize::from(table[r]);
    }
    s
}
