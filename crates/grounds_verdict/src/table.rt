// The keys and the numbers of the entries, and the numbers of what references and instances stand for.
ghost use Rattle.std.specs.Prelude.{◌≡◌, ◌+◌, ◌≤◌, length};
ghost use Rattle.meaning.specs.Values.{number_at};
ghost use Rattle.meaning.specs.Checking.{number_below, side_of};
ghost use Rattle.meaning.specs.GroundColumns.{left_ref, right_ref};
ghost use Rattle.grounds_numbers.specs.Keys.{Keyed};
ghost use Rattle.grounds_verdict.specs.Tests.{instances_in};

use grounds_numbers::numbers::number_after;
use grounds_steps::{BYTE, LEFT_MARK, LEFT_ROW, RIGHT_MARK, ROW};

// The first so many entries are context rows.
#[derive(Clone, Copy)]
pub(crate) struct Table<'a> {
    pub keys: &'a [u16],
    pub numbers: &'a [u16],
    pub rows: usize,
    ghost rows_in_bounds: { rows ≤ length numbers.now },
    ghost keyed: { Keyed keys.now (length numbers.now) },
}

impl<'a> Table<'a> {
    // The number of a pattern row's instance.
    pub(crate) fn instance(&self, p: usize) -> usize
        ensures { result ≡ number_at self.now.numbers.now (self.now.rows + p) }
    {
        usize::from(number_after(self.numbers, self.rows, p))
    }

    // The number of a row below a limit, after an offset, or the number of entries.
    fn below(&self, limit: usize, offset: usize, row: usize) -> usize
        requires { offset + limit ≤ length self.now.numbers.now }
        ensures { result ≡ number_below self.now.numbers.now (length self.now.numbers.now) limit offset row }
    {
        if row < limit {
            usize::from(self.numbers[offset + row])
        } else {
            self.numbers.len()
        }
    }

    // The number of what a reference stands for. No Option: where there is nothing, `side_of` is the number of entries, and cited sides are compared with it.
    fn side(&self, mark: u64, row: usize) -> usize
        ensures { result ≡ side_of self.now.numbers.now self.now.rows (instances_in self.now.numbers.now self.now.rows) (record { mark = mark; row = row }) }
    {
        match mark {
            0 => self.below(self.rows, 0, row),
            1 => self.below(self.numbers.len() - self.rows, self.rows, row),
            _ => self.numbers.len(),
        }
    }

    // The numbers of the sides that stand in a step's first word.
    pub(crate) fn left(&self, word: u64) -> usize
        ensures { result ≡ side_of self.now.numbers.now self.now.rows (instances_in self.now.numbers.now self.now.rows) (left_ref word) }
    {
        let row = (word / LEFT_ROW) % ROW;
        self.side((word / LEFT_MARK) % BYTE, row as usize)
    }

    pub(crate) fn right(&self, word: u64) -> usize
        ensures { result ≡ side_of self.now.numbers.now self.now.rows (instances_in self.now.numbers.now self.now.rows) (right_ref word) }
    {
        let row = word % ROW;
        self.side((word / RIGHT_MARK) % BYTE, row as usize)
    }
}
