// Classes of entries, two numbers an entry: its label, and the step that says so.
ghost use Rattle.std.specs.Prelude.{◌≡◌, ◌≤◌, set};
ghost use Rattle.runs.specs.Runs.{row_count};
ghost use Rattle.grounds_numbers.specs.Limits.{most_numbers};
ghost use Rattle.grounds_laws.specs.Draft.{count_in, Wrote};
ghost use Rattle.grounds_laws.specs.Classes.{label_in, why_in, labelled, own_step, same as same_by, bridge as bridge_by, size_in, carry as carry_by, carried, moved, joined};
ghost use Rattle.grounds_classes.specs.Holding.{class_in, met, state_in, Adds, Becomes};

use super::draft::{Equation, linked, step_count, turned};
use super::keys::Entries;
use grounds_laws::CLASS;
use grounds_steps::EACH;

// Steps, and the classes of all entries that they show.
#[derive(Drop)]
pub(crate) struct Classes<'a> {
    pub cells: &'a mut [u16],
    pub table: &'a mut [u16],
}

// An entry's label, and 0 past the last place.
// No Option: labels are compared as they are read, and label_in of the laws has 0 there.
pub(crate) fn label(table: &[u16], x: u16) -> u16
    ensures { result ≡ label_in table.now x }
{
    table.get(usize::from(x) * CLASS).copied().unwrap_or(0)
}

// The step that an entry is equal to its label.
// No Option, as at push.
fn why(table: &[u16], x: u16) -> u16
    ensures { result ≡ why_in table.now x }
{
    table.get(usize::from(x) * CLASS + 1).copied().unwrap_or(0)
}

// An entry is equal to its label.
fn class_of(table: &[u16], x: u16) -> Equation
    ensures { result ≡ class_in table.now x }
{
    Equation {
        step: why(table, x),
        left: x,
        right: label(table, x),
    }
}

// A place past the table is not stored.
fn put(table: &mut [u16], at: usize, v: u16)
    ensures { table.new ≡ set table.old at v }
{
    if at < table.len() {
        table[at] = v;
    }
}

// The left side gets the right side for a label.
pub(crate) fn put_label(table: &mut [u16], e: Equation)
    ensures { table.new ≡ labelled table.old e.left e.right e.step }
{
    let i = usize::from(e.left) * CLASS;
    put(table, i, e.right);
    put(table, i + 1, e.step);
}

// The number of an entry's own step.
// No Option, as at push.
fn own(x: u16) -> u16
    ensures { result ≡ own_step x }
{
    if usize::from(x) < EACH { x + 1 } else { 0 }
}

// The number of the equation of two entries that are equal to one label.
pub(crate) fn meet(cells: &mut [u16], x: Equation, y: Equation) -> u16
    ensures { Wrote cells.new result (met cells.old x y) }
{
    if x.left == y.left {
        return own(x.left);
    }
    let back = Equation {
        step: turned(cells, y),
        left: y.right,
        right: y.left,
    };
    linked(cells, x, back)
}

// The number of x = y, where the two have one label.
pub fn same(cells: &mut [u16], table: &[u16], x: u16, y: u16) -> u16
    ensures { Wrote cells.new result (same_by cells.old table.now x y) }
{
    meet(cells, class_of(table, x), class_of(table, y))
}

impl<'a> Classes<'a> {
    // How many steps there are.
    pub(crate) fn step_count(&self) -> u16
        ensures { result ≡ count_in self.now.cells.now }
    {
        step_count(self.cells)
    }

    fn label(&self, x: u16) -> u16
        ensures { result ≡ label_in self.now.table.now x }
    {
        label(self.table, x)
    }

    // An entry is equal to its label.
    pub(crate) fn class(&self, x: u16) -> Equation
        ensures { result ≡ class_in self.now.table.now x }
    {
        class_of(self.table, x)
    }

    // How many of the first n entries have a label.
    fn size(&self, p: u16, n: usize) -> usize
        requires { n ≤ most_numbers }
        ensures { result ≡ size_in self.now.table.now p n }
    {
        let mut count: usize = 0;
        for z in 0..n {
            if self.label(z as u16) == p {
                count += 1;
            }
        }
        count
    }

    // The number of the equation of the labels of the two sides.
    fn bridge(&mut self, e: Equation) -> u16
        ensures { Adds self.old self.new result (bridge_by self.old.cells.now self.old.table.now e.step e.left e.right) }
    {
        let x = self.class(e.left);
        let y = self.class(e.right);
        let back = Equation {
            step: turned(self.cells, x),
            left: x.right,
            right: x.left,
        };
        let over = Equation {
            step: linked(self.cells, back, e),
            left: x.right,
            right: e.right,
        };
        linked(self.cells, over, y)
    }

    // Entry z gets the right side for a label, where its label is the left one.
    fn carry(&mut self, e: Equation, z: u16)
        ensures { Becomes self.old self.new (carry_by e.step e.left e.right z (state_in self.old)) }
    {
        let x = self.class(z);
        if x.right == e.left {
            let moved = Equation {
                step: linked(self.cells, x, e),
                left: z,
                right: e.right,
            };
            put_label(self.table, moved);
        }
    }

    // Each of the entries.
    fn carry_all(&mut self, entries: Entries, e: Equation)
        ensures { Becomes self.old self.new (carried e.step e.left e.right (row_count entries.entry.keys.now) (state_in self.old)) }
    {
        let n = entries.count();
        for z in 0..n {
            self.carry(e, z as u16);
        }
    }

    // The class of the left side moves to that of the right one.
    fn move_class(&mut self, entries: Entries, e: Equation)
        ensures { Becomes self.old self.new (moved (row_count entries.entry.keys.now) e.step e.left e.right (state_in self.old)) }
    {
        let left = self.label(e.left);
        let right = self.label(e.right);
        let step = self.bridge(e);
        self.carry_all(entries, Equation { step, left, right });
    }

    // The smaller of the classes of the two sides moves to the other.
    pub(crate) fn join(&mut self, entries: Entries, e: Equation)
        ensures { Becomes self.old self.new (joined (row_count entries.entry.keys.now) e.step e.left e.right (state_in self.old)) }
    {
        let n = entries.count();
        let a = self.size(self.label(e.left), n);
        let b = self.size(self.label(e.right), n);
        if a <= b {
            self.move_class(entries, e);
        } else {
            let step = turned(self.cells, e);
            let back = Equation {
                step,
                left: e.right,
                right: e.left,
            };
            self.move_class(entries, back);
        }
    }
}
