// The pieces that were read: the runs, filled so far, and beside them the symbol and the count of each line that has a symbol.
ghost use Rattle.std.specs.Prelude.{◌≡◌};
ghost use Rattle.text_reader.specs.Agree.{clash_of, clashes_in, Noted};
ghost use Rattle.text_reader.specs.Pieces.{no_pieces, noted, with_entry, NoteFits, Fits};

use super::entries::Entry;
use super::state::State;
use runs::limits::{LITERAL_RUN, PATTERN_RUN, PATTERNS, ROW_RUN, ROWS, SAID_RUN};
use runs::writing::{put_literal, put_pattern, put_row, put_said};
use text_lines::entries::Term;

// The lines with a symbol, at the most.
const TERMS: usize = ROWS + PATTERNS;

#[derive(Drop)]
pub(crate) struct Pieces {
    pub rows: [u16; ROW_RUN],
    pub said: [u16; SAID_RUN],
    pub patterns: [u16; PATTERN_RUN],
    pub literals: [u16; LITERAL_RUN],
    pub symbols: [u16; TERMS],
    pub counts: [u16; TERMS],
}

// 1 where two symbols are the same and their counts are not.
fn clash(g: u16, m: u16, f: u16, k: u16) -> usize
    ensures { result ≡ clash_of g m f k }
{
    usize::from(g == f && m != k)
}

impl Pieces {
    pub(crate) fn none() -> Self
        ensures { result ≡ no_pieces }
    {
        Pieces {
            rows: [0; ROW_RUN],
            said: [0; SAID_RUN],
            patterns: [0; PATTERN_RUN],
            literals: [0; LITERAL_RUN],
            symbols: [0; TERMS],
            counts: [0; TERMS],
        }
    }

    // How many of the first n lines with a symbol have the symbol f with another count than k. The loop has no way out but its end, so that
    // several are compared at a time. No iterator: it reads two arrays at one index.
    pub(crate) fn clashes(&self, n: usize, f: u16, k: u16) -> usize
        requires { Noted self.now.symbols self.now.counts n }
        ensures { result ≡ clashes_in self.now.symbols self.now.counts f k n }
    {
        let mut r = 0;
        for i in 0..n {
            r += clash(self.symbols[i], self.counts[i], f, k);
        }
        r
    }

    // The symbol of a term with its count, after n others.
    fn note(&mut self, n: usize, t: Term)
        requires { NoteFits n self.old }
        ensures { self.new ≡ noted n t self.old }
    {
        self.symbols[n] = t.head;
        self.counts[n] = u16::from(t.count);
    }

    // What a line adds, written to the end of its run, where a kind stands as its number.
    pub(crate) fn put(&mut self, entry: Entry, s: State)
        requires { Fits entry s self.old }
        ensures { self.new ≡ with_entry entry s self.old }
    {
        match entry {
            Entry::Row(t) => {
                put_row(&mut self.rows, s.rows, t.head, u16::from(t.count), t.places);
                self.note(s.terms, t);
            }
            Entry::Equation(p) => {
                put_said(
                    &mut self.said,
                    s.equations + s.differences,
                    2,
                    p.left,
                    p.right,
                )
            }
            Entry::Difference(p) => {
                put_said(
                    &mut self.said,
                    s.equations + s.differences,
                    3,
                    p.left,
                    p.right,
                )
            }
            Entry::Variable(v) => put_pattern(&mut self.patterns, s.patterns, 4, v, 0, [0; 4]),
            Entry::Symbol(t) => {
                let count = u16::from(t.count);
                put_pattern(&mut self.patterns, s.patterns, 5, t.head, count, t.places);
                self.note(s.terms, t);
            }
            Entry::Equal(p) => put_literal(&mut self.literals, s.literals, 6, p.left, p.right),
            Entry::Unequal(p) => put_literal(&mut self.literals, s.literals, 7, p.left, p.right),
        }
    }
}
