// A table of representatives, lent as a run: one number a row.
ghost use Rattle.std.specs.Prelude.{◌≡◌, map, ◌≤◌, length};
ghost use Rattle.meaning.specs.Equality.{rep_at};
ghost use Rattle.meaning.specs.Closing.{move, total, count as numbers};
ghost use Rattle.classes.specs.Steps.{move_from, merge};

// What a table holds at a row, and 0 past its end.
// No Option: rep_at has 0 there.
pub(crate) fn at_row(table: &[u16], row: usize) -> u16
    ensures { result ≡ rep_at table.now row }
{
    table.get(row).copied().unwrap_or(0)
}

// Each place gets its own number.
pub(crate) fn number(table: &mut [u16])
    requires { length table.old ≤ 65535 }
    ensures { table.new ≡ numbers (length table.old) 0 }
{
    for (i, place) in table.iter_mut().enumerate() {
        *place = i as u16;
    }
}

fn moved(lo: u16, hi: u16, x: u16) -> u16
    ensures { result ≡ move lo hi x }
{
    if x == hi { lo } else { x }
}

// Each place that holds hi gets lo. Every place is written, so that the compiler takes several at once.
fn move_all(table: &mut [u16], lo: u16, hi: u16)
    ensures { table.new ≡ map (move lo hi) table.old }
{
    for place in table.iter_mut() {
        *place = moved(lo, hi, *place);
    }
}

// The class with the representative hi goes to lo. No row before hi is in it, so the places before hi are left out.
fn move_class(table: &mut [u16], lo: u16, hi: u16)
    ensures { table.new ≡ move_from lo hi table.old }
{
    let first = usize::from(hi);
    if first <= table.len() {
        move_all(&mut table[first..], lo, hi);
    }
}

// The classes of rows i and j become one, under the lower representative.
pub(crate) fn unite(table: &mut [u16], i: usize, j: usize)
    ensures { table.new ≡ merge i j table.old }
{
    let a = at_row(table, i);
    let b = at_row(table, j);
    if a < b {
        move_class(table, a, b);
    } else if b < a {
        move_class(table, b, a);
    }
}

// The sum of the representatives.
pub(crate) fn sum(table: &[u16]) -> u32
    requires { length table.now ≤ 65535 }
    ensures { result ≡ total (length table.now) (rep_at table.now) }
{
    let mut s: u32 = 0;
    for place in table.iter() {
        s += u32::from(*place);
    }
    s
}
