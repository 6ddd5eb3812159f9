// The lines of grounds, written piece by piece into a lent space.
// A space and a place in it stay two parameters: the writers of reply_lines take them so.
#![tactic(auto)]

mod lines;
pub mod opening;

ghost use Rattle.std.specs.Prelude.{◌≡◌};
ghost use Rattle.std.proofs.lemmas.List.Edits.{sets};
ghost use Rattle.grounds_lines.specs.Lines.{item_frame, size_at};
ghost use Rattle.grounds_lines.specs.Filling.{step_count, item_count, ItemRoom, Fills};

use grounds_steps::{WORDS, lower_in, sides_in, upper_in};
use grounds_verdict::Conclusions;
use lines::{put_end, put_step};
use runs::limits::LITERALS;

// How many bytes were written, and which item comes next.
#[derive(Clone, Copy)]
pub struct Filled {
    pub used: usize,
    pub next: usize,
}

// How many steps there are to write: no more than the run has places.
fn held(steps: &[[u64; WORDS]], many: usize) -> usize
    ensures { result ≡ step_count steps.now many }
{
    many.min(steps.len())
}

// How many lines there are: the steps, and a conclusion for each literal, of which there are 16 at most.
pub fn items(steps: &[[u64; WORDS]], many: usize, literals: usize) -> usize
    ensures counts { result ≡ item_count steps.now many literals }
{
    held(steps, many) + literals.min(LITERALS)
}

// How long the line of item p is, where the first n items are steps.
fn size(n: usize, p: usize) -> usize
    ensures { result ≡ size_at n p }
{
    if p < n { 51 } else { 27 }
}

// The line of item p, where the first n items are steps.
fn put_item(steps: &[[u64; WORDS]], n: usize, d: Conclusions, p: usize, lent: &mut [u8], at: usize)
    requires { ItemRoom steps.now n p lent.old at }
    ensures { lent.new ≡ sets lent.old at (item_frame steps.now n d p) }
{
    if p < n {
        put_step(
            sides_in(steps, p),
            upper_in(steps, p),
            lower_in(steps, p),
            lent,
            at,
        );
    } else {
        put_end(d, p - n, lent, at);
    }
}

// Writes whole lines from an item on, as many as there is room for.
pub fn fill(
    steps: &[[u64; WORDS]],
    many: usize,
    d: Conclusions,
    literals: usize,
    from: usize,
    space: &mut [u8],
) -> Filled
    ensures fills { Fills steps.now many d literals from space.old result space.new }
{
    let n = held(steps, many);
    let end = items(steps, many, literals);
    let mut used = 0;
    for at in from..end {
        let len = size(n, at);
        if space.len() - used < len {
            return Filled { used, next: at };
        }
        put_item(steps, n, d, at, space, used);
        used += len;
    }
    Filled {
        used,
        next: from.max(end),
    }
}
