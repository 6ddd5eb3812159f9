// What the fields of a line name: a row, two rows, or a symbol over rows; or the byte of the field that names no row.
ghost use Rattle.std.specs.Prelude.{◌≡◌, ◌≤◌, ◌<◌, ◌+◌, ◌*◌, length};
ghost use Rattle.text_lines.specs.Lines.{value_at};
ghost use Rattle.text_lines.specs.Entries.{found_in, argument_of, TermLine, TwoFields, symbol_at, term_from};

use super::lines::field;

#[derive(Clone, Copy, Debug, PartialEq, Eq)]
pub struct Pair {
    pub left: u16,
    pub right: u16,
}

// A symbol over as many rows as it has arguments; the places past them are 0.
#[derive(Clone, Copy, Debug, PartialEq, Eq)]
pub struct Term {
    pub head: u16,
    pub count: u8,
    pub places: [u16; 4],
}

// A field that names no row: the byte of the line where it begins.
#[derive(Clone, Copy, Debug, PartialEq, Eq)]
pub struct NoRow {
    pub byte: u16,
}

// The row that a field names, of the first n.
pub fn row_at(text: &[u8], at: usize, n: usize) -> Option<u16>
    requires { at + 1 < length text.now }
    ensures { result ≡ found_in n (value_at text.now at) }
{
    let v = field(text, at);
    if usize::from(v) < n { Some(v) } else { None }
}

// Argument k of the line at a place, or 0 past the last.
pub(crate) fn argument(text: &[u8], at: usize, k: u8, count: u8, n: usize) -> Result<u16, NoRow>
    requires few { k < 4 }
    requires inside { at + 8 + count * 2 ≤ length text.now }
    ensures { result ≡ argument_of text.now at k count n }
{
    if k < count {
        let byte = 8 + 2 * u16::from(k);
        row_at(text, at + usize::from(byte), n).ok_or(NoRow { byte })
    } else {
        Ok(0)
    }
}

fn symbol_at(text: &[u8], at: usize) -> u16
    requires { TwoFields text.now at }
    ensures { result ≡ symbol_at text.now at }
{
    let high = field(text, at);
    let low = field(text, at + 2);
    high * 256 + low
}

// The symbol and the arguments of a line that has count of them.
pub fn term_of(text: &[u8], at: usize, end: usize, count: u8, n: usize) -> Result<Term, NoRow>
    requires { TermLine text.now at end count }
    ensures { result ≡ term_from text.now at count n }
{
    let places = [
        argument(text, at, 0, count, n)?,
        argument(text, at, 1, count, n)?,
        argument(text, at, 2, count, n)?,
        argument(text, at, 3, count, n)?,
    ];
    let head = symbol_at(text, at + 2);
    Ok(Term {
        head,
        count,
        places,
    })
}
