// Lines: two digits a byte, and a line feed.
ghost use Rattle.std.specs.Prelude.{◌≡◌, [], ◌∷◌, ◌+◌, ◌<◌, ◌≤◌, ◌/◌, length, take};
ghost use Rattle.std.proofs.lemmas.List.Edits.{sets};
ghost use Rattle.meaning.specs.Writing.{digit_of, hex, frame};
ghost use Rattle.reply_lines.specs.Pieces.{low8, Put, LineRoom};

// A line has so many fields at the most.
pub const FIELDS: usize = 8;

// A number's low byte.
pub fn low(x: u16) -> u8
    ensures { result ≡ low8 x }
{
    x.to_be_bytes()[1]
}

// A number's high byte.
pub fn high(x: u16) -> u8
    ensures { result ≡ x / 256 }
{
    x.to_be_bytes()[0]
}

fn digit(v: u8) -> u8
    requires { v < 16 }
    ensures { result ≡ digit_of v }
{
    if v < 10 { b'0' + v } else { b'A' + (v - 10) }
}

// A byte as two digits.
pub fn put_byte(b: u8, lent: &mut [u8], at: usize)
    requires { at + 2 ≤ length lent.old }
    ensures { lent.new ≡ sets lent.old at (hex (b ∷ [])) }
{
    lent[at] = digit(b / 16);
    lent[at + 1] = digit(b % 16);
}

// The line of the first n fields.
pub fn put_frame(fields: [u8; FIELDS], n: usize, lent: &mut [u8], at: usize) -> usize
    requires { LineRoom n at lent.old }
    ensures { Put lent.old at (frame (take n fields)) result lent.new }
{
    for (k, field) in fields[..n].iter().enumerate() {
        put_byte(*field, lent, at + 2 * k);
    }
    let end = at + 2 * n;
    lent[end] = b'\n';
    end + 1
}
