// Where the reading stands between two lines.
ghost use Rattle.std.specs.Prelude.{◌≡◌, ◌<◌};
ghost use Rattle.text_reader.specs.State.{start_state, passed_to, after, Within, numbers_in};

use super::entries::Entry;
use runs::limits::{LITERAL, PATTERN, ROW, SAID};
use text_runs::Filled;

// The place of the next line and its number, the rank of the last one, how many lines of each group there were, and how many symbols are noted.
#[derive(Clone, Copy, Debug, PartialEq, Eq)]
pub(crate) struct State {
    pub at: usize,
    pub line: u16,
    pub rank: u8,
    pub rows: usize,
    pub equations: usize,
    pub differences: usize,
    pub patterns: usize,
    pub literals: usize,
    pub terms: usize,
}

impl State {
    pub(crate) fn start() -> State
        ensures { result ≡ start_state }
    {
        State {
            at: 0,
            line: 1,
            rank: 0,
            rows: 0,
            equations: 0,
            differences: 0,
            patterns: 0,
            literals: 0,
            terms: 0,
        }
    }

    // One line further, to the line at the next place.
    fn passed(self, next: usize) -> State
        requires { self.line < 65535 }
        ensures { result ≡ passed_to self next }
    {
        State {
            at: next,
            line: self.line + 1,
            ..self
        }
    }

    // After a line that adds an entry, before the line at the next place.
    pub(crate) fn after(self, entry: Entry, next: usize) -> State
        requires { Within self }
        ensures { result ≡ after entry (passed_to self next) }
    {
        let s = self.passed(next);
        match entry {
            Entry::Row(_) => State {
                rank: 1,
                rows: s.rows + 1,
                terms: s.terms + 1,
                ..s
            },
            Entry::Equation(_) => State {
                rank: 2,
                equations: s.equations + 1,
                ..s
            },
            Entry::Difference(_) => State {
                rank: 2,
                differences: s.differences + 1,
                ..s
            },
            Entry::Variable(_) => State {
                rank: 3,
                patterns: s.patterns + 1,
                ..s
            },
            Entry::Symbol(_) => State {
                rank: 3,
                patterns: s.patterns + 1,
                terms: s.terms + 1,
                ..s
            },
            Entry::Equal(_) | Entry::Unequal(_) => State {
                rank: 4,
                literals: s.literals + 1,
                ..s
            },
        }
    }

    // How many numbers a text's lines fill.
    pub(crate) fn filled(self) -> Filled
        requires { Within self }
        ensures { result ≡ numbers_in self }
    {
        Filled {
            rows: self.rows * ROW,
            said: (self.equations + self.differences) * SAID,
            patterns: self.patterns * PATTERN,
            literals: self.literals * LITERAL,
        }
    }
}
