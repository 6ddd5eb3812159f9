// Whether a table can be closed further.
ghost use Rattle.std.specs.Prelude.{◌<◌};
ghost use Rattle.columns.specs.Fit.{Decides};
ghost use Rattle.further.specs.Claims.{OrderlyAt, Orderly, Startable};

use closing::table::at_row;

// Whether place i holds a place that is no later and holds its own number, and its own number where it is no row's.
fn orderly_at(table: &[u16; 255], rows: usize, i: usize) -> bool
    requires { i < 255 }
    ensures { Decides result (OrderlyAt rows table.now i) }
{
    let a = usize::from(at_row(table, i));
    if i < a {
        return false;
    }
    if usize::from(at_row(table, a)) != a {
        return false;
    }
    if i < rows {
        return true;
    }
    a == i
}

// Whether each place is so.
pub(crate) fn orderly(table: &[u16; 255], rows: usize) -> bool
    ensures { Decides result (Orderly rows table.now) }
{
    for i in 0..255 {
        if !orderly_at(table, rows, i) {
            return false;
        }
    }
    true
}

// Whether the table is orderly, and x and y are rows.
pub(crate) fn startable(table: &[u16; 255], rows: usize, x: usize, y: usize) -> bool
    ensures { Decides result (Startable rows table.now x y) }
{
    if rows <= x || rows <= y {
        return false;
    }
    orderly(table, rows)
}
