// What a merge wakes. A row stands over the classes of its arguments; where one of them goes over to another class the row is woken, since it
// may agree now with a row that it did not agree with. Nothing here has to find every two rows that agree: the passes over the rows do, and
// with what is found here they are few.
ghost use Rattle.std.specs.Prelude.{◌≡◌, ◌<◌, ◌≤◌};
ghost use Rattle.meaning.specs.Closing.{unite as united};
ghost use Rattle.columns.specs.Lent.{rows_in};
ghost use Rattle.closing.specs.Steps.{Roomy, Seated, one_more, Found, Nearer};

use super::mates::{agree, arg_class, chain};
use super::table::{at_row, unite};
use columns::Terms;

// The heads hold the last row that had each key, as one more than its number, or 0. The links lead over the places of arguments of one class:
// place 1,020 + c to the first over the class c, and a place of an argument to the next; each as one more than its number, or 0 where there is
// none, so that they stay two bytes each. The first count rows are woken.
#[derive(Drop)]
struct Waking {
    heads: [u16; 256],
    links: [u16; 1275],
    rows: [u16; 255],
    count: usize,
    ghost few: { count ≤ 255 },
}

impl Waking {
    fn new() -> Waking {
        Waking {
            heads: [0; 256],
            links: [0; 1275],
            rows: [0; 255],
            count: 0,
        }
    }

    fn first_over(&self, class: usize) -> usize {
        if class < 255 {
            usize::from(self.links[1020 + class])
        } else {
            0
        }
    }

    // An argument's place becomes the first over a class. The answer is where it led to before.
    fn carry(&mut self, class: usize, at: usize) -> usize
        requires { at < 1020 }
    {
        let next = usize::from(self.links[at]);
        if class < 255 {
            let first = self.links[1020 + class];
            self.links[at] = first;
            self.links[1020 + class] = (at + 1) as u16;
        }
        next
    }

    // Row i stands over the classes of its first count arguments.
    fn stand(&mut self, args: &[u16; 1020], table: &[u16; 255], i: usize, count: usize)
        requires { Seated args.now i count }
    {
        for k in 0..count {
            let class = arg_class(args, table, i * 4 + k);
            self.carry(usize::from(class), i * 4 + k);
        }
    }

    // One more row is woken, where there is room for it.
    fn push(&mut self, row: u16) {
        if self.count < 255 {
            self.rows[self.count] = row;
            self.count += 1;
        }
    }

    fn pop(&mut self) -> Option<u16> {
        self.count = self.count.checked_sub(1)?;
        Some(self.rows[self.count])
    }

    // The first four rows over the class hi are woken, and stand over lo from now on.
    fn wake(&mut self, lo: usize, hi: usize) {
        let mut at = self.first_over(hi);
        for _ in 0..4 {
            if at == 0 {
                return;
            }
            if at > 1020 {
                return;
            }
            let row = (at - 1) / 4;
            self.push(row as u16);
            at = self.carry(lo, at - 1);
        }
    }

    // The classes of rows i and j become one, and the rows over the higher one are woken.
    fn wed(&mut self, table: &mut [u16; 255], i: usize, j: usize)
        ensures { table.new ≡ united i j table.old }
    {
        let a = usize::from(at_row(table, i));
        let b = usize::from(at_row(table, j));
        unite(table, i, j);
        if a != b {
            self.wake(a.min(b), a.max(b));
        }
    }

    // The last row that had row i's key, where it agrees with row i.
    fn found(&mut self, terms: &Terms, table: &[u16; 255], i: usize) -> Option<usize>
        requires laid { Roomy terms.now }
        requires i_lt_rows { i < terms.now.rows }
        ensures { Found (rows_in terms.now) table.now terms.now.rows i (one_more result) }
    {
        let b = chain(terms, table, i);
        let at = usize::from(self.heads[b]);
        self.heads[b] = (i + 1) as u16;
        if at == 0 {
            return None;
        }
        if at > terms.rows {
            return None;
        }
        if agree(terms, table, i, at - 1) {
            return Some(at - 1);
        }
        None
    }

    // Row i and the row that is found for it get one representative.
    fn meet(&mut self, terms: &Terms, table: &mut [u16; 255], i: usize)
        requires laid { Roomy terms.now }
        requires i_lt_rows { i < terms.now.rows }
        ensures { Nearer (rows_in terms.now) table.old table.new }
    {
        if let Some(j) = self.found(terms, table, i) {
            self.wed(table, i, j);
        }
    }

    // Woken rows meet, the last first, and wake others.
    fn drain(&mut self, terms: &Terms, table: &mut [u16; 255])
        requires { Roomy terms.now }
        ensures { Nearer (rows_in terms.now) table.old table.new }
    {
        for _ in 0..1020 {
            let Some(row) = self.pop() else {
                return;
            };
            let i = usize::from(row);
            if i >= terms.rows {
                return;
            }
            self.meet(terms, table, i);
        }
    }
}

// A pass over the rows in which each merge is followed up at once.
pub fn follow(terms: &Terms, table: &mut [u16; 255])
    requires { Roomy terms.now }
    ensures { Nearer (rows_in terms.now) table.old table.new }
{
    let mut waking = Waking::new();
    for i in 0..terms.rows {
        waking.meet(terms, table, i);
        waking.stand(terms.args, table, i, usize::from(terms.counts[i]));
        waking.drain(terms, table);
    }
}
