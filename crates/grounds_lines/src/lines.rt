// The lines of steps and of conclusions: two digits a byte, and a feed.
ghost use Rattle.std.specs.Prelude.{◌≡◌, ◌++◌, ◌+◌, ◌*◌, ◌<◌, ◌≤◌, length};
ghost use Rattle.std.proofs.lemmas.List.Edits.{sets};
ghost use Rattle.runs.specs.Limits.{most_literals};
ghost use Rattle.meaning.specs.Writing.{hex, frame};
ghost use Rattle.grounds_lines.specs.Lines.{octets, step_frame, cited_bytes, end_frame, end_of};

use grounds_verdict::Conclusions;
use reply_lines::hex::put_byte;

// So many low bytes of a number.
#[derive(Clone, Copy)]
struct Low(usize, u64);

// The low bytes of a number, the high one first; the low one is stored first.
fn put_number(x: Low, lent: &mut [u8], at: usize)
    requires { at + x.0 * 2 ≤ length lent.old }
    ensures { lent.new ≡ sets lent.old at (hex (octets x.0 x.1)) }
{
    let Low(n, mut rest) = x;
    // No to_be_bytes: the promise has each byte by division.
    for k in (0..n).rev() {
        put_byte((rest % 256) as u8, lent, at + k * 2);
        rest /= 256;
    }
}

// The low bytes of two numbers, one behind the other.
fn put_two(x: Low, y: Low, lent: &mut [u8], at: usize)
    requires { at + (x.0 + y.0) * 2 ≤ length lent.old }
    ensures { lent.new ≡ sets lent.old at (hex (octets x.0 x.1 ++ octets y.0 y.1)) }
{
    put_number(x, lent, at);
    put_number(y, lent, at + x.0 * 2);
}

// The same at the end of a line.
fn put_last(x: Low, y: Low, lent: &mut [u8], at: usize)
    requires { at + (x.0 + y.0) * 2 < length lent.old }
    ensures { lent.new ≡ sets lent.old at (frame (octets x.0 x.1 ++ octets y.0 y.1)) }
{
    put_two(x, y, lent, at);
    lent[at + (x.0 + y.0) * 2] = b'\n';
}

// A step by its three words.
pub(crate) fn put_step(x: u64, y: u64, z: u64, lent: &mut [u8], at: usize)
    requires { at + 51 ≤ length lent.old }
    ensures { lent.new ≡ sets lent.old at (step_frame x y z) }
{
    put_two(Low(1, 176), Low(8, x), lent, at);
    put_last(Low(8, y), Low(8, z), lent, at + 18);
}

// What stands behind the literal on a conclusion's line; the places that are not read hold zeros.
fn put_cited(first: u64, difference: u64, lent: &mut [u8], at: usize)
    requires { at + 23 ≤ length lent.old }
    ensures { lent.new ≡ sets lent.old at (frame (cited_bytes first difference)) }
{
    put_two(Low(4, first), Low(4, 0), lent, at);
    put_last(Low(2, difference), Low(1, 0), lent, at + 16);
}

// A conclusion by its fields.
fn put_fields(literal: u64, first: u64, difference: u64, lent: &mut [u8], at: usize)
    requires { at + 27 ≤ length lent.old }
    ensures { lent.new ≡ sets lent.old at (end_frame (record { literal = literal; first = first; difference = difference })) }
{
    put_two(Low(1, 177), Low(1, literal), lent, at);
    put_cited(first, difference, lent, at + 4);
}

// The conclusion of literal j, from 0; on the line literals are counted from 1.
pub(crate) fn put_end(d: Conclusions, j: usize, lent: &mut [u8], at: usize)
    requires j_lt_most_literals { j < most_literals }
    requires at_in_bounds { at + 27 ≤ length lent.old }
    ensures { lent.new ≡ sets lent.old at (end_frame (end_of d j)) }
{
    let literal = (j + 1) as u64;
    let first = u64::from(d.firsts[j]);
    let difference = u64::from(d.differences[j]);
    put_fields(literal, first, difference, lent, at);
}
