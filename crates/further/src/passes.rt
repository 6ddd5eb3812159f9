// Passes over the rows, from a table on.
ghost use Rattle.meaning.specs.Equality.{Promise};
ghost use Rattle.meaning.specs.Following.{with_equation};
ghost use Rattle.columns.specs.Lent.{rows_in};
ghost use Rattle.further.specs.Claims.{standing_in, Startable, FitsRows, Underway, Settled};

use closing::mates::join_rows;
use closing::table::{sum, unite};
use closing::wake::follow;
use columns::Terms;

// Passes over the rows till the sum of the representatives stays. Where two classes of a closed table are now one, the first pass mostly finds
// nothing; after one that finds something, merges are followed up.
// No `for`: the passes go on until one changes nothing.
fn turns(terms: &Terms, table: &mut [u16; 255])
    requires fit_rows { FitsRows terms.now }
    requires underway { Underway (rows_in terms.now) table.old }
    ensures { Settled (rows_in terms.now) table.old table.new }
{
    let mut old = sum(table, terms.rows);
    loop {
        join_rows(terms, table);
        let fresh = sum(table, terms.rows);
        if fresh == old {
            return;
        }
        follow(terms, table);
        old = sum(table, terms.rows);
    }
}

// The rows x and y get one representative, and passes follow.
pub(crate) fn settle_with(terms: &Terms, table: &mut [u16; 255], x: usize, y: usize)
    requires fit_rows { FitsRows terms.now }
    requires startable { Startable terms.now.rows table.old x y }
    ensures { Promise (with_equation (standing_in (rows_in terms.now) table.old) x y) 255 table.new }
{
    unite(table, x, y);
    turns(terms, table);
}
