// What one line adds, or its fault. The look-ups come in the order of the refusals' numbers.
ghost use Rattle.std.specs.Prelude.{◌≡◌, ◌<◌, ◌+◌, length};
ghost use Rattle.text_lines.specs.Lines.{Legible};
ghost use Rattle.text_lines.specs.Entries.{TermLine};
ghost use Rattle.text_reader.specs.Agree.{Noted};
ghost use Rattle.text_reader.specs.Entries.{pair_in, term_in, variable_in};
ghost use Rattle.text_reader.specs.Lines.{Lined, EntryIs};

use super::faults::Fault;
use super::kinds::{Kind, kind_of, rank_of, size_of};
use super::pieces::Pieces;
use super::state::State;
use runs::limits::{DIFFERENCES, EQUATIONS, LITERALS, PATTERNS, PLACES, ROWS, VARIABLES};
use text_lines::entries::{Pair, Term, row_at, term_of};
use text_lines::lines::field;

#[derive(Clone, Copy, Debug, PartialEq, Eq)]
pub(crate) enum Entry {
    Row(Term),
    Equation(Pair),
    Difference(Pair),
    Variable(u16),
    Symbol(Term),
    Equal(Pair),
    Unequal(Pair),
}

// Two of n rows, where there is room.
fn pair_line(text: &[u8], at: usize, room: bool, n: usize) -> Result<Pair, Fault>
    requires { at + 5 < length text.now }
    ensures { result ≡ pair_in text.now at room n }
{
    if !room {
        return Err(Fault::NoRoom);
    }
    let left = row_at(text, at + 2, n).ok_or(Fault::RowMissing { byte: 2 })?;
    let right = row_at(text, at + 4, n).ok_or(Fault::RowMissing { byte: 4 })?;
    Ok(Pair { left, right })
}

fn variable_line(text: &[u8], at: usize, room: bool) -> Result<u16, Fault>
    requires { at + 3 < length text.now }
    ensures { result ≡ variable_in text.now at room }
{
    let v = field(text, at + 2);
    if room && usize::from(v) < VARIABLES {
        Ok(v)
    } else {
        Err(Fault::NoRoom)
    }
}

// A symbol over some of n rows, where there is room and no earlier line has the symbol with another count.
fn term_line(
    text: &[u8],
    end: usize,
    count: u16,
    room: bool,
    n: usize,
    s: State,
    pieces: &Pieces,
) -> Result<Term, Fault>
    requires { TermLine text.now s.at end count × Noted pieces.now.symbols pieces.now.counts s.terms }
    ensures { result ≡ term_in text.now s.at count room n pieces.now.symbols pieces.now.counts s.terms }
{
    if !room || PLACES < usize::from(count) {
        return Err(Fault::NoRoom);
    }
    let t = term_of(text, s.at, end, count as u8, n)?;
    if pieces.clashes(s.terms, t.head, u16::from(t.count)) == 0 {
        Ok(t)
    } else {
        Err(Fault::OtherCount)
    }
}

// The entry of a line of a kind that has the kind's length, names so many arguments and may stand here by its rank.
fn entry_of(
    text: &[u8],
    end: usize,
    kind: Kind,
    count: u16,
    s: State,
    pieces: &Pieces,
) -> Result<Entry, Fault>
    requires { Lined text.now end kind count s × Noted pieces.now.symbols pieces.now.counts s.terms }
    ensures { EntryIs text.now end s pieces.now.symbols pieces.now.counts result }
{
    let at = s.at;
    match kind {
        Kind::ContextRow => {
            term_line(text, end, count, s.rows < ROWS, s.rows, s, pieces).map(Entry::Row)
        }
        Kind::Equation => {
            pair_line(text, at, s.equations < EQUATIONS, s.rows).map(Entry::Equation)
        }
        Kind::Difference => {
            pair_line(text, at, s.differences < DIFFERENCES, s.rows).map(Entry::Difference)
        }
        Kind::VariablePattern => {
            variable_line(text, at, s.patterns < PATTERNS).map(Entry::Variable)
        }
        Kind::SymbolPattern => {
            term_line(
                text,
                end,
                count,
                s.patterns < PATTERNS,
                s.patterns,
                s,
                pieces,
            )
            .map(Entry::Symbol)
        }
        Kind::EqualLiteral => {
            pair_line(text, at, s.literals < LITERALS, s.patterns).map(Entry::Equal)
        }
        Kind::UnequalLiteral => {
            pair_line(text, at, s.literals < LITERALS, s.patterns).map(Entry::Unequal)
        }
    }
}

// The entry of a legible line that ends at a place.
pub(crate) fn entry_at(text: &[u8], end: usize, s: State, pieces: &Pieces) -> Result<Entry, Fault>
    requires { Legible text.now s.at end × Noted pieces.now.symbols pieces.now.counts s.terms }
    ensures { EntryIs text.now end s pieces.now.symbols pieces.now.counts result }
{
    let kind = kind_of(field(text, s.at)).ok_or(Fault::UnlistedKind)?;
    let count = size_of(text, s.at, end, kind).ok_or(Fault::WrongLength)?;
    if rank_of(kind) < s.rank {
        return Err(Fault::LowerRank);
    }
    entry_of(text, end, kind, count, s, pieces)
}
