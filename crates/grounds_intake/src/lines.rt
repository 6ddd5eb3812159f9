// A line of the grounds, byte by byte, and what it says once it ends.
ghost use Rattle.std.specs.Prelude.{◌≡◌, ◌+◌, ◌≤◌, ◌<◌};
ghost use Rattle.runs.specs.Limits.{most_variables};
ghost use Rattle.grounds_intake.specs.Parsing.{assigns as assigns_by, place_of, places_of, formed as formed_by, word_of};
ghost use Rattle.grounds_intake.specs.Machine.{empty_line, open_line, pushed};

use crate::spaces::{grow, put};
use crate::{Buffer, LINE, STEP, STEP_DIGITS};
use runs::limits::{UNUSED, VARIABLES};
use text_lines::digits::value;

impl Buffer {
    pub(crate) fn empty() -> Self
        ensures { result ≡ empty_line }
    {
        Buffer {
            values: [0; LINE],
            size: 0,
            good: true,
        }
    }

    // The digits 0 and 8 are taken.
    pub(crate) fn open() -> Self
        ensures { result ≡ open_line }
    {
        let mut values = [0; LINE];
        values[1] = 8;
        Buffer {
            values,
            size: 2,
            good: true,
        }
    }

    pub(crate) fn push(&mut self, b: u8)
        ensures { self.new ≡ pushed self.old b }
    {
        let v = value(b);
        put(&mut self.values, self.size, v);
        self.size = grow(self.size, LINE);
        self.good = self.good && v < 16;
    }

    // Whether the line is of a kind, by its form alone.
    pub(crate) fn formed(&self, kind: u8, size: usize) -> bool
        ensures { result ≡ formed_by kind size self.now.good self.now.size self.now.values }
    {
        self.good && self.size == size && self.byte(0) == kind
    }

    // Word 0, 1 or 2 of a step, 0 where the line is none.
    pub(crate) fn word(&self, i: usize) -> u64
        requires { i ≤ 2 }
        ensures { result ≡ word_of self.now.good self.now.size self.now.values i }
    {
        if self.formed(STEP, STEP_DIGITS) {
            self.eight(i * 8 + 1)
        } else {
            0
        }
    }

    // Whether the line gives a count of at most 4, and exactly that many rows.
    fn assigns(&self) -> bool
        ensures { result ≡ assigns_by self.now.good self.now.size self.now.values }
    {
        let n = usize::from(self.byte(1));
        self.good && n <= VARIABLES && self.size == n * 2 + 4
    }

    fn place(&self, i: usize) -> u16
        requires { i < most_variables }
        ensures { result ≡ place_of self.now.good self.now.size self.now.values i }
    {
        if self.assigns() && i < usize::from(self.byte(1)) {
            u16::from(self.byte(i + 2))
        } else {
            UNUSED
        }
    }

    pub(crate) fn places(&self) -> [u16; VARIABLES]
        ensures { result ≡ places_of self.now.good self.now.size self.now.values }
    {
        [self.place(0), self.place(1), self.place(2), self.place(3)]
    }
}
