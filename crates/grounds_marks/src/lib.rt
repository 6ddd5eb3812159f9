// Which steps of a column one step rests on.
#![tactic(auto)]

ghost use Rattle.std.specs.Prelude.{◌≡◌, ◌+◌, ◌*◌, ◌<◌, length, replicate};
ghost use Rattle.grounds_laws.specs.Limits.{draft_size};
ghost use Rattle.grounds_laws.specs.Draft.{count_in};
ghost use Rattle.grounds_batches.specs.Marking.{noted, noted_four, mark_one, marked, marked_for};

use grounds_laws::DRAFT;

// Number r is marked, where it is not past a limit.
fn note(marks: &mut [u16], limit: usize, r: u16)
    requires { limit < length marks.old }
    ensures { marks.new ≡ noted limit r marks.old }
{
    let i = usize::from(r);
    if i <= limit {
        marks[i] = 1;
    }
}

// The numbers at four places of a column.
fn note_four(cells: &[u16], marks: &mut [u16], limit: usize, p: usize)
    requires limit_in_bounds { limit < length marks.old }
    requires p_in_bounds { p + 3 < length cells.now }
    ensures { marks.new ≡ noted_four limit cells.now p marks.old }
{
    // No loop: the promise names the four places.
    note(marks, limit, cells[p]);
    note(marks, limit, cells[p + 1]);
    note(marks, limit, cells[p + 2]);
    note(marks, limit, cells[p + 3]);
}

// What step i, counted from 0, cites is marked, where it is marked itself.
fn mark_one(cells: &[u16], marks: &mut [u16], i: usize)
    requires i_in_bounds { i + 1 < length marks.old }
    requires draft_size_in_bounds { i * draft_size + draft_size < length cells.now }
    ensures { marks.new ≡ mark_one cells.now i marks.old }
{
    if marks[i + 1] == 0 {
        return;
    }
    let p = i * DRAFT;
    // Kinds 1 and 2 cite no step.
    if cells[p + 1] <= 2 {
        return;
    }
    note_four(cells, marks, i, p + 4);
}

// From step n back to the first.
fn mark_steps(cells: &[u16], marks: &mut [u16], n: usize)
    requires n_in_bounds { n < length marks.old }
    requires draft_size_in_bounds { n * draft_size < length cells.now }
    ensures { marks.new ≡ marked cells.now n marks.old }
{
    for i in (0..n).rev() {
        mark_one(cells, marks, i);
    }
}

// Step s, and what it rests on, in marks of zeros, a place for each number of a step and one for 0.
pub fn mark(cells: &[u16], marks: &mut [u16], s: u16)
    requires draft_size_in_bounds { count_in cells.now * draft_size < length cells.now }
    requires marks_value { marks.old ≡ replicate (count_in cells.now + 1) 0 }
    ensures { marks.new ≡ marked_for cells.now s }
{
    let count = usize::from(cells[0]);
    note(marks, count, s);
    mark_steps(cells, marks, count);
}
