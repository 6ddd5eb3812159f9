// Lines of a text: where a line ends, and its fields.
ghost use Rattle.std.specs.Prelude.{◌≡◌, ◌≤◌, ◌<◌, ◌+◌, min, length};
ghost use Rattle.meaning.specs.Text.{furthest};
ghost use Rattle.text_lines.specs.Lines.{Run, LineAt, value_at};

use super::digits::{digit_of, value};

// A line that refusal 1 is for: the byte that it names, counted from where the line begins.
#[derive(Clone, Copy, Debug, PartialEq, Eq)]
pub struct Illegible {
    pub byte: u16,
}

// The furthest byte that a refusal names.
const FURTHEST: usize = 65535;

// The first place from at on that holds no digit, or the length.
pub(crate) fn digits_end(text: &[u8], at: usize) -> usize
    requires { at ≤ length text.now }
    ensures run { Run text.now at result }
{
    for i in at..text.len() {
        if digit_of(text[i]).is_none() {
            return i;
        }
    }
    text.len()
}

impl Illegible {
    // A line that is refused after n digits.
    fn after(n: usize) -> Self
        ensures { result ≡ record { byte = min furthest n } }
    {
        Illegible {
            byte: FURTHEST.min(n) as u16,
        }
    }
}

// Where the line that begins at a place has its line feed.
pub fn line_at(text: &[u8], at: usize) -> Result<usize, Illegible>
    requires { at < length text.now }
    ensures line { LineAt text.now at result }
{
    let end = digits_end(text, at);
    let n = end - at;
    if end < text.len() && text[end] == b'\n' && n != 0 && n % 2 == 0 {
        Ok(end)
    } else {
        Err(Illegible::after(n))
    }
}

// The field whose first digit stands at a place.
pub fn field(text: &[u8], at: usize) -> u16
    requires { at + 1 < length text.now }
    ensures { result ≡ value_at text.now at }
{
    let high = u16::from(value(text[at]));
    let low = u16::from(value(text[at + 1]));
    high * 16 + low
}
