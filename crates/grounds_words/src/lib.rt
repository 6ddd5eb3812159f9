// What one step of a column rests on, numbered anew and written as words behind those written before.
#![tactic(auto)]

pub mod words;

ghost use Rattle.std.specs.Prelude.{◌≡◌, ◌+◌, ◌*◌, ◌≤◌, ◌<◌, length, set};
ghost use Rattle.grounds_steps.specs.Steps.{words_of};
ghost use Rattle.grounds_laws.specs.Limits.{draft_size};
ghost use Rattle.grounds_laws.specs.Draft.{count_in, cell_in, owner_at};
ghost use Rattle.grounds_batches.specs.Sending.{new_of, word_in, numbers_word, out_of, send_one, sent, forgotten, Small};
ghost use Rattle.grounds_words.specs.Emitting.{Reaches, Sendable, Batched};
ghost use Rattle.grounds_words.specs.Holding.{out_in, Keeps, Becomes};

use grounds_laws::{DRAFT, NUMBER_RUN};
use grounds_marks::mark;
use grounds_steps::{WORDS, put_step};
use words::{new_of, numbers_word, sides_word};

// A column of steps over so many context rows: the first steps are shared, and the others an owner's.
#[derive(Clone, Copy)]
pub struct Column<'a> {
    pub cells: &'a [u16],
    pub rows: usize,
    pub from: usize,
    pub owner: u8,
}

// The words of steps, of which so many are written, and the new numbers of a column's steps.
#[derive(Drop)]
pub struct Out<'a> {
    pub steps: &'a mut [[u64; WORDS]],
    pub news: &'a mut [u32],
    pub next: usize,
}

impl<'a> Column<'a> {
    // Whose step i is, counted from 0: 0 for a shared one.
    fn owner_at(self, i: usize) -> u8
        ensures { result ≡ owner_at self.entry.from self.entry.owner i }
    {
        if i < self.from { 0 } else { self.owner }
    }

    // The word of the owner, the kind and the sides of step i.
    fn sides(self, i: usize) -> u64
        requires places { i * draft_size + draft_size < length self.cells.now }
        requires kind { cell_in self.cells.now i 1 < 256 }
        ensures { result ≡ word_in self.entry.rows (owner_at self.entry.from self.entry.owner i) (cell_in self.entry.cells.now i 1) (cell_in self.entry.cells.now i 2) (cell_in self.entry.cells.now i 3) }
    {
        let p = i * DRAFT;
        sides_word(
            self.rows,
            self.owner_at(i),
            self.cells[p + 1],
            self.cells[p + 2],
            self.cells[p + 3],
        )
    }

    // The word of two numbers of step i, which stand at places k and k + 1.
    fn numbers(self, news: &[u32], i: usize, k: usize) -> u64
        requires places { i * draft_size + draft_size < length self.cells.now }
        requires k_bound { k + 1 ≤ draft_size }
        ensures { result ≡ numbers_word news.now (cell_in self.entry.cells.now i 1) (cell_in self.entry.cells.now i k) (cell_in self.entry.cells.now i (k + 1)) }
    {
        let p = i * DRAFT;
        numbers_word(
            news,
            self.cells[p + 1],
            self.cells[p + k],
            self.cells[p + (k + 1)],
        )
    }
}

// How many steps a column has. Its numbers are of 16 bits.
fn step_count(cells: &[u16]) -> usize
    requires { 0 < length cells.now }
    ensures value { result ≡ count_in cells.now }
    ensures small { Small cells.now }
{
    usize::from(cells[0])
}

// Shared steps keep their new numbers, and the others have none.
fn forget(news: &mut [u32], from: usize)
    requires { 0 < length news.old }
    ensures { news.new ≡ forgotten from news.old }
{
    // No fill: the promise is said place by place.
    let n = news.len() - 1;
    for i in from..n {
        news[i + 1] = 0;
    }
}

impl<'a> Out<'a> {
    // A step's new number; step 0 is none.
    pub fn new_of(&self, r: u16) -> u32
        ensures { result ≡ new_of self.now.news.now r }
    {
        new_of(self.news, r)
    }

    fn numbers(&self, column: Column, i: usize, k: usize) -> u64
        requires places { i * draft_size + draft_size < length column.cells.now }
        requires k_bound { k + 1 ≤ draft_size }
        ensures { result ≡ numbers_word self.now.news.now (cell_in column.entry.cells.now i 1) (cell_in column.entry.cells.now i k) (cell_in column.entry.cells.now i (k + 1)) }
    {
        column.numbers(self.news, i, k)
    }

    // The words of step i, counted from 0, and its new number.
    fn write_step(&mut self, i: usize, x: u64, y: u64, z: u64)
        requires i_inside { i + 1 < length self.old.news.now }
        requires next_bound { self.old.next + 1 < 4294967296 }
        ensures { Becomes self.old self.new (out_of (set self.old.news.now (i + 1) (self.old.next + 1)) (self.old.next + 1) (set self.old.steps.now self.old.next (words_of x y z))) }
    {
        let next = self.next;
        put_step(self.steps, next, x, y, z);
        self.news[i + 1] = (next + 1) as u32;
        self.next = next + 1;
    }

    // Step i, counted from 0, where it is marked and has no new number.
    fn send_one(&mut self, column: Column, marks: &[u16], i: usize)
        requires reaches { Reaches column.cells.now marks.now self.old.news.now i }
        requires kind { cell_in column.cells.now i 1 < 256 }
        requires next_bound { self.old.next + 1 < 4294967296 }
        ensures { Becomes self.old self.new (send_one column.entry.rows column.entry.from column.entry.owner column.entry.cells.now marks.now i (out_in self.old)) }
    {
        if marks[i + 1] == 0 || self.news[i + 1] != 0 {
            return;
        }
        let x = column.sides(i);
        let y = self.numbers(column, i, 4);
        let z = self.numbers(column, i, 6);
        self.write_step(i, x, y, z);
    }

    // The steps that are marked and have no new number, in order.
    fn send(&mut self, column: Column, marks: &[u16])
        requires sendable { Sendable column.cells.now self.old.news.now self.old.next }
        requires marks_bound { count_in column.cells.now < length marks.now }
        ensures { Becomes self.old self.new (sent column.entry.rows column.entry.from column.entry.owner column.entry.cells.now marks.now (count_in column.entry.cells.now) (out_in self.old)) }
    {
        let n = step_count(column.cells);
        for i in 0..n {
            self.send_one(column, marks, i);
        }
    }
}

// Step s of a column and what it rests on, as far as it is not written yet.
pub fn batch(out: &mut Out, column: Column, s: u16)
    requires { Sendable column.cells.now out.old.news.now out.old.next }
    ensures keeps { Keeps out.old out.new }
    ensures batched { Batched column.entry.rows column.entry.from column.entry.owner column.entry.cells.now s (out_in out.old) (out_in out.new) }
{
    forget(out.news, column.from);
    let mut run = [0; NUMBER_RUN];
    let marks = &mut run[..step_count(column.cells) + 1];
    mark(column.cells, marks, s);
    out.send(column, marks);
}
