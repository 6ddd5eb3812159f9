// A piece written at its place in a run that is lent. Where that is the run's end so far, the run then says one more.
ghost use Rattle.std.specs.Prelude.{◌++◌, ◌∷◌, [], ◌≡◌, ◌+◌, ◌*◌, ◌≤◌, length, take, drop};
ghost use Rattle.runs.specs.Limits.{row_size, said_size, pattern_size, literal_size};
ghost use Rattle.runs.specs.Runs.{put};

use super::limits::{LITERAL, PATTERN, PLACES, ROW, SAID};

// The numbers of a piece, from a place on.
fn copy(run: &mut [u16], at: usize, piece: &[u16])
    requires { at + length piece.now ≤ length run.old }
    ensures { run.new ≡ take at run.old ++ piece.now ++ drop (at + length piece.now) run.old }
{
    let end = at + piece.len();
    run[at..end].copy_from_slice(piece);
}

// Row n.
pub fn put_row(rows: &mut [u16], n: usize, symbol: u16, count: u16, places: [u16; PLACES])
    requires { n * row_size + row_size ≤ length rows.old }
    ensures { rows.new ≡ put row_size rows.old n (symbol ∷ count ∷ places) }
{
    let row = [symbol, count, places[0], places[1], places[2], places[3]];
    copy(rows, n * ROW, &row);
}

// Statement n.
// Beside put_literal: the name says which run it is, and the call is the same.
pub fn put_said(said: &mut [u16], n: usize, kind: u16, left: u16, right: u16)
    requires { n * said_size + said_size ≤ length said.old }
    ensures { said.new ≡ put said_size said.old n (kind ∷ left ∷ right ∷ []) }
{
    let statement = [kind, left, right];
    copy(said, n * SAID, &statement);
}

// Pattern row n.
pub fn put_pattern(
    patterns: &mut [u16],
    n: usize,
    kind: u16,
    head: u16,
    count: u16,
    places: [u16; PLACES],
)
    requires { n * pattern_size + pattern_size ≤ length patterns.old }
    ensures { patterns.new ≡ put pattern_size patterns.old n (kind ∷ head ∷ count ∷ places) }
{
    let pattern = [
        kind, head, count, places[0], places[1], places[2], places[3],
    ];
    copy(patterns, n * PATTERN, &pattern);
}

// Literal n.
pub fn put_literal(literals: &mut [u16], n: usize, sign: u16, left: u16, right: u16)
    requires { n * literal_size + literal_size ≤ length literals.old }
    ensures { literals.new ≡ put literal_size literals.old n (sign ∷ left ∷ right ∷ []) }
{
    let literal = [sign, left, right];
    copy(literals, n * LITERAL, &literal);
}
