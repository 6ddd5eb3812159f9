// From no steps to closed classes: a reflexive step for each entry, the stated equations, and passes over each two entries.
ghost use Rattle.std.specs.Prelude.{◌≡◌, ◌+◌, ◌<◌, eqb};
ghost use Rattle.runs.specs.Runs.{row_count, rows_of};
ghost use Rattle.grounds_numbers.specs.Limits.{most_numbers};
ghost use Rattle.grounds_numbers.specs.Pairs.{pair_count, pairs_in};
ghost use Rattle.grounds_laws.specs.Draft.{count_in};
ghost use Rattle.grounds_laws.specs.Rounds.{start_one, started, pair_joined, state_one, stated, one_label, alike as alike_by};
ghost use Rattle.grounds_classes.specs.Settling.{row_passed_by, passed_by, rested_by};
ghost use Rattle.grounds_classes.specs.Holding.{state_in, Adds, Becomes};
ghost use Rattle.grounds_classes.specs.Uniting.{argued_in, congruence_in, united_in, apart_in, paired_in};

use super::classes::{Classes, label, meet, put_label};
use super::draft::{Equation, Step, push};
use super::keys::{Entries, Two};
use super::sides::{left_at, right_at};
use grounds_numbers::numbers::number_of;
use grounds_numbers::pairs::pair_count;
use grounds_steps::EACH;
use runs::count_in;

// Whether two entries have one label.
pub fn same_label(table: &[u16], x: u16, y: u16) -> bool
    ensures { result ≡ one_label table.now x y }
{
    label(table, x) == label(table, y)
}

impl<'a> Classes<'a> {
    fn same_label(&self, x: u16, y: u16) -> bool
        ensures { result ≡ one_label self.now.table.now x y }
    {
        same_label(self.table, x, y)
    }

    // Whether two entries have one symbol, and arguments with the same labels.
    fn alike(&self, two: Two) -> bool
        ensures { result ≡ alike_by (rows_of two.entry.entries.keys.now) self.now.table.now two.entry.x two.entry.y }
    {
        two.alike(self.table)
    }

    // Entry x gets a reflexive step, and its number for a label.
    fn start_one(&mut self, numbers: &[u16], x: usize)
        requires { x < most_numbers }
        ensures { Becomes self.old self.new (start_one numbers.now x (state_in self.old)) }
    {
        let left = x as u16;
        let right = number_of(numbers, x);
        let reflexive = Step {
            kind: 2,
            left,
            right,
            numbers: [0; 4],
        };
        let step = push(self.cells, reflexive);
        put_label(self.table, Equation { step, left, right });
    }

    // Each of the entries.
    pub(crate) fn start(&mut self, entries: Entries, numbers: &[u16])
        ensures { Becomes self.old self.new (started numbers.now (row_count entries.entry.keys.now) (state_in self.old)) }
    {
        let n = entries.count();
        for x in 0..n {
            self.start_one(numbers, x);
        }
    }

    // The classes of two entries are joined by a step of a kind, with one number, where their labels differ.
    pub(crate) fn join_pair(
        &mut self,
        entries: Entries,
        kind: u16,
        left: u16,
        right: u16,
        number: u16,
    )
        ensures { Becomes self.old self.new (pair_joined (row_count entries.entry.keys.now) kind left right number (state_in self.old)) }
    {
        if self.same_label(left, right) {
            return;
        }
        let said = Step {
            kind,
            left,
            right,
            numbers: [number, 0, 0, 0],
        };
        let step = push(self.cells, said);
        self.join(entries, Equation { step, left, right });
    }

    // The sides of stated equation i, counted from 0, are joined.
    fn state_one(&mut self, entries: Entries, pairs: &[u16], i: usize)
        requires { i + 1 < most_numbers }
        ensures { Becomes self.old self.new (state_one (row_count entries.entry.keys.now) (pairs_in pairs.now) i (state_in self.old)) }
    {
        self.join_pair(
            entries,
            1,
            left_at(pairs, i),
            right_at(pairs, i),
            (i + 1) as u16,
        );
    }

    // The sides of each stated equation are joined.
    pub(crate) fn state_all(&mut self, entries: Entries, pairs: &[u16])
        requires { pair_count pairs.now < most_numbers }
        ensures { Becomes self.old self.new (stated (row_count entries.entry.keys.now) (pairs_in pairs.now) (state_in self.old)) }
    {
        let m = pair_count(pairs);
        for i in 0..m {
            self.state_one(entries, pairs, i);
        }
    }

    // The number of a step for arguments i of two entries, or 0 past the last.
    // No Option, as at push.
    fn argue(&mut self, two: Two, i: usize) -> u16
        ensures { Adds self.old self.new result (argued_in two.entry i (state_in self.old)) }
    {
        if i < count_in(two.entries.keys, two.x) {
            let x = self.class(two.entries.argument(two.x, i));
            let y = self.class(two.entries.argument(two.y, i));
            meet(self.cells, x, y)
        } else {
            0
        }
    }

    // The number of the equation of two entries by their arguments.
    fn congruence(&mut self, two: Two) -> u16
        ensures { Adds self.old self.new result (congruence_in two.entry (state_in self.old)) }
    {
        let a = self.argue(two, 0);
        let b = self.argue(two, 1);
        let c = self.argue(two, 2);
        let d = self.argue(two, 3);
        let congruent = Step {
            kind: 5,
            left: two.x as u16,
            right: two.y as u16,
            numbers: [a, b, c, d],
        };
        push(self.cells, congruent)
    }

    // Two entries are joined by their arguments.
    fn unite(&mut self, two: Two)
        ensures { Becomes self.old self.new (united_in two.entry (state_in self.old)) }
    {
        let equal = Equation {
            step: self.congruence(two),
            left: two.x as u16,
            right: two.y as u16,
        };
        self.join(two.entries, equal);
    }

    // Two entries, whose labels differ, are joined where they agree.
    fn pair_apart(&mut self, two: Two)
        ensures { Becomes self.old self.new (apart_in two.entry (state_in self.old)) }
    {
        if self.alike(two) {
            self.unite(two);
        }
    }

    // Two entries are joined, where they agree.
    fn pair(&mut self, two: Two)
        ensures { Becomes self.old self.new (paired_in two.entry (state_in self.old)) }
    {
        if !self.same_label(two.x as u16, two.y as u16) {
            self.pair_apart(two);
        }
    }

    // Entry x, and each before it.
    fn row_pass(&mut self, entries: Entries, x: usize)
        requires { x < row_count entries.keys.now }
        ensures { Becomes self.old self.new (row_passed_by entries.entry.keys.now x (state_in self.old)) }
    {
        for y in 0..x {
            self.pair(Two { entries, x, y });
        }
    }

    // Each two entries.
    fn pass(&mut self, entries: Entries)
        ensures { Becomes self.old self.new (passed_by entries.entry.keys.now (state_in self.old)) }
    {
        let n = entries.count();
        for x in 0..n {
            self.row_pass(entries, x);
        }
    }

    // Each two entries; whether no step was written.
    fn rests(&mut self, entries: Entries) -> bool
        ensures state { Becomes self.old self.new (passed_by entries.entry.keys.now (state_in self.old)) }
        ensures test { result ≡ eqb (count_in self.new.cells.now) (count_in self.old.cells.now) }
    {
        let count = self.step_count();
        self.pass(entries);
        self.step_count() == count
    }

    // Passes till one writes no step.
    pub(crate) fn rounds(&mut self, entries: Entries)
        ensures { Becomes self.old self.new (rested_by entries.entry.keys.now (state_in self.old)) }
    {
        for _ in 0..EACH {
            if self.rests(entries) {
                return;
            }
        }
    }
}
