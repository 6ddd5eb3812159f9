// Steps in a column: place 0 is how many there are, and each has seven places after that.
ghost use Rattle.std.specs.Prelude.{◌≡◌, get_or};
ghost use Rattle.grounds_laws.specs.Draft.{count_in, Wrote, room_in, pushed, turned as back, linked as over};

use grounds_laws::{DRAFT, NUMBERS};

// A step: its kind, the two entries that it says are equal, and its four numbers.
// No enum: a column of steps holds the kind as its number, and the laws of grounds_laws speak of that column.
#[derive(Clone, Copy)]
pub(crate) struct Step {
    pub kind: u16,
    pub left: u16,
    pub right: u16,
    pub numbers: [u16; 4],
}

// Two entries that are equal, and the number of the step that says so.
#[derive(Clone, Copy)]
pub(crate) struct Equation {
    pub step: u16,
    pub left: u16,
    pub right: u16,
}

// How many steps a column has.
pub(crate) fn step_count(cells: &[u16]) -> u16
    ensures { result ≡ count_in cells.now }
{
    cells.first().copied().unwrap_or(0)
}

// Whether there is room for one step more.
fn has_room(cells: &[u16]) -> bool
    ensures { result ≡ room_in cells.now }
{
    let n = usize::from(step_count(cells));
    n + 1 < NUMBERS && n * DRAFT + DRAFT < cells.len()
}

// The number of one step more, or 0 where there is no room.
// No Option: steps that rest on it store the number, and 0 is none there.
pub(crate) fn push(cells: &mut [u16], step: Step) -> u16
    ensures { Wrote cells.new result (pushed cells.old step.kind step.left step.right (get_or step.numbers 0 0) (get_or step.numbers 1 0) (get_or step.numbers 2 0) (get_or step.numbers 3 0)) }
{
    if !has_room(cells) {
        return 0;
    }
    let n = usize::from(cells[0]);
    let p = n * DRAFT;
    cells[p + 1] = step.kind;
    cells[p + 2] = step.left;
    cells[p + 3] = step.right;
    cells[p + 4] = step.numbers[0];
    cells[p + 5] = step.numbers[1];
    cells[p + 6] = step.numbers[2];
    cells[p + 7] = step.numbers[3];
    cells[0] = (n + 1) as u16;
    (n + 1) as u16
}

// The number of the equation with its sides exchanged.
pub(crate) fn turned(cells: &mut [u16], e: Equation) -> u16
    ensures { Wrote cells.new result (back cells.old e.step e.left e.right) }
{
    if e.left == e.right {
        return e.step;
    }
    let step = Step {
        kind: 3,
        left: e.right,
        right: e.left,
        numbers: [e.step, 0, 0, 0],
    };
    push(cells, step)
}

// The number of the equation of the outer sides of two, of which the second begins where the first ends.
pub(crate) fn linked(cells: &mut [u16], first: Equation, second: Equation) -> u16
    ensures { Wrote cells.new result (over cells.old first.step second.step first.left first.right second.right) }
{
    if first.left == first.right {
        return second.step;
    }
    if first.right == second.right {
        return first.step;
    }
    let step = Step {
        kind: 4,
        left: first.left,
        right: second.right,
        numbers: [first.step, second.step, 0, 0],
    };
    push(cells, step)
}
