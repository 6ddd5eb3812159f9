// What a merge wakes. A row stands over the classes of its arguments; where one of them goes over to another class the row is woken, since it
// may agree now with a row that it did not agree with. Nothing here has to find every two rows that agree: the passes over the rows do, and
// with what is found here they are few.
ghost use Rattle.std.specs.Prelude.{◌≡◌, ◌<◌, ◌≤◌, IfSome};
ghost use Rattle.runs.specs.Limits.{most_rows};
ghost use Rattle.runs.specs.Runs.{row_count, rows_of};
ghost use Rattle.classes.specs.Steps.{merge, most_args, Laid, Seated, Found, Nearer};

use super::mates::{CHAINS, agree, arg_class, chain, row_of};
use super::table::{at_row, unite};
use runs::limits::{PLACES, ROWS};
use runs::{count_in, row_count};

const ARGS: usize = ROWS * PLACES;

const LINKS: usize = ARGS + ROWS;

// The last row of each key; links; and the rows that are woken, the first so many of them.
// The links lead over the places of arguments of one class: place ARGS + c to the first over the class c, and a place of an argument to the
// next; each as one more than its number, or 0 where there is none.
#[derive(Drop)]
struct Waking {
    heads: [u16; CHAINS],
    links: [u16; LINKS],
    woken: [u16; ROWS],
    count: usize,
    ghost few: { count ≤ 255 },
}

// The place of an argument that a link leads to.
fn place_of(link: u16) -> Option<usize>
    ensures { IfSome result (λ at. at < most_args) }
{
    let at = usize::from(link).checked_sub(1)?;
    (at < ARGS).then_some(at)
}

impl Waking {
    // No row has a key yet, none stands over a class, and none is woken.
    fn new() -> Waking {
        Waking {
            heads: [0; CHAINS],
            links: [0; LINKS],
            woken: [0; ROWS],
            count: 0,
        }
    }

    // The place of the first argument of a class.
    fn first_over(&self, class: u16) -> Option<usize>
        ensures { IfSome result (λ at. at < most_args) }
    {
        let c = usize::from(class);
        if c < ROWS {
            place_of(self.links[ARGS + c])
        } else {
            None
        }
    }

    // An argument's place becomes the first over a class. The answer is where it led to before.
    fn carry(&mut self, class: u16, at: usize) -> Option<usize>
        requires { at < most_args }
        ensures { IfSome result (λ at. at < most_args) }
    {
        let next = place_of(self.links[at]);
        let c = usize::from(class);
        if c < ROWS {
            self.links[at] = self.links[ARGS + c];
            self.links[ARGS + c] = (at + 1) as u16;
        }
        next
    }

    // Row i stands over the classes of its first count arguments.
    fn stand(&mut self, rows: &[u16], table: &[u16], i: usize, count: usize)
        requires laid { Laid rows.now }
        requires seated { Seated rows.now i count }
    {
        for k in 0..count {
            let _ = self.carry(arg_class(rows, table, i, k), i * PLACES + k);
        }
    }

    // One more row is woken, where there is room for it.
    fn note(&mut self, row: usize)
        requires { row < most_rows }
    {
        if self.count < ROWS {
            self.woken[self.count] = row as u16;
            self.count += 1;
        }
    }

    // The first four rows over the class hi are woken, and stand over lo from now on.
    fn wake(&mut self, lo: u16, hi: u16) {
        let mut at = self.first_over(hi);
        for _ in 0..PLACES {
            let Some(place) = at else {
                return;
            };
            self.note(place / PLACES);
            at = self.carry(lo, place);
        }
    }

    // The classes of rows i and j become one, and the rows over the higher one are woken.
    fn wed(&mut self, table: &mut [u16], i: usize, j: usize)
        ensures { table.new ≡ merge i j table.old }
    {
        let a = at_row(table, i);
        let b = at_row(table, j);
        unite(table, i, j);
        if a != b {
            self.wake(a.min(b), a.max(b));
        }
    }

    // The last row that had row i's key, where it is there and agrees with row i. Row i is the last from now on.
    fn found(&mut self, rows: &[u16], table: &[u16], i: usize) -> Option<usize>
        requires laid { Laid rows.now }
        requires i_bound { i < row_count rows.now }
        ensures { Found (rows_of rows.now) table.now (row_count rows.now) i result }
    {
        let b = chain(rows, table, i);
        let last = row_of(self.heads[b]);
        self.heads[b] = (i + 1) as u16;
        let j = last?;
        (j < row_count(rows) && agree(rows, table, i, j)).then_some(j)
    }

    // Row i and the row that is found for it get one representative.
    fn meet(&mut self, rows: &[u16], table: &mut [u16], i: usize)
        requires laid { Laid rows.now }
        requires i_bound { i < row_count rows.now }
        ensures { Nearer (rows_of rows.now) table.old table.new }
    {
        if let Some(j) = self.found(rows, table, i) {
            self.wed(table, i, j);
        }
    }

    // The row that was woken last, which is woken no more.
    fn last(&mut self) -> Option<usize> {
        self.count = self.count.checked_sub(1)?;
        Some(usize::from(self.woken[self.count]))
    }

    // Woken rows meet, the last first, and wake others.
    fn drain(&mut self, rows: &[u16], table: &mut [u16])
        requires { Laid rows.now }
        ensures { Nearer (rows_of rows.now) table.old table.new }
    {
        for _ in 0..ARGS {
            match self.last() {
                Some(i) if i < row_count(rows) => self.meet(rows, table, i),
                _ => return,
            }
        }
    }

    // Row i meets the row that is found for it, stands over the classes of its arguments, and what was woken meets.
    fn visit(&mut self, rows: &[u16], table: &mut [u16], i: usize)
        requires laid { Laid rows.now }
        requires i_bound { i < row_count rows.now }
        ensures { Nearer (rows_of rows.now) table.old table.new }
    {
        self.count = 0;
        self.meet(rows, table, i);
        self.stand(rows, table, i, count_in(rows, i));
        self.drain(rows, table);
    }
}

// A pass over the rows in which each merge is followed up at once.
pub(crate) fn follow(rows: &[u16], table: &mut [u16])
    requires { Laid rows.now }
    ensures { Nearer (rows_of rows.now) table.old table.new }
{
    let mut waking = Waking::new();
    for i in 0..row_count(rows) {
        waking.visit(rows, table, i);
    }
}
