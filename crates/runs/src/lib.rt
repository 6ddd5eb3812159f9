// A context and a rule as runs of numbers that are lent: how many pieces a run holds, and the numbers of each piece. The length carries the
// count, so one function serves runs of every length.
#![tactic(auto)]

ghost use Rattle.std.specs.Prelude.{◌≡◌, ◌<◌, eqb};
ghost use Rattle.runs.specs.Limits.{arg_places};
ghost use Rattle.runs.specs.Runs.{row_count, symbol_in, count_in, arg_in, said_count, kind_in, left_in, right_in, pattern_count, pattern_kind_in, head_in, pattern_count_in, pattern_arg_in, literal_count, sign_in};

use limits::{EQUAL, EQUATION, LITERAL, PATTERN, ROW, SAID, VARIABLE};

pub mod fit;
pub mod limits;
pub mod writing;

// A count for each kind of run, since the name says what it holds.
pub fn row_count(rows: &[u16]) -> usize
    ensures { result ≡ row_count rows.now }
{
    rows.len() / ROW
}

pub fn said_count(said: &[u16]) -> usize
    ensures { result ≡ said_count said.now }
{
    said.len() / SAID
}

pub fn pattern_count(patterns: &[u16]) -> usize
    ensures { result ≡ pattern_count patterns.now }
{
    patterns.len() / PATTERN
}

pub fn literal_count(literals: &[u16]) -> usize
    ensures { result ≡ literal_count literals.now }
{
    literals.len() / LITERAL
}

// The numbers of row i.
// A reader for each number, since the name says which it is; those of a statement serve literals too.
pub fn symbol_in(rows: &[u16], i: usize) -> u16
    requires { i < row_count rows.now }
    ensures { result ≡ symbol_in rows.now i }
{
    rows[i * ROW]
}

pub fn count_in(rows: &[u16], i: usize) -> usize
    requires { i < row_count rows.now }
    ensures { result ≡ count_in rows.now i }
{
    usize::from(rows[i * ROW + 1])
}

pub fn arg_in(rows: &[u16], i: usize, k: usize) -> usize
    requires i_bound { i < row_count rows.now }
    requires k_lt_arg_places { k < arg_places }
    ensures { result ≡ arg_in rows.now i k }
{
    usize::from(rows[i * ROW + 2 + k])
}

// The kind of statement k.
pub fn kind_in(said: &[u16], k: usize) -> u16
    requires { k < said_count said.now }
    ensures { result ≡ kind_in said.now k }
{
    said[k * SAID]
}

// Whether statement k is an equation; any other is a difference.
pub fn is_equation(said: &[u16], k: usize) -> bool
    requires { k < said_count said.now }
    ensures { result ≡ eqb (kind_in said.now k) 2 }
{
    kind_in(said, k) == EQUATION
}

// The sides of statement k, or of literal k.
pub fn left_in(said: &[u16], k: usize) -> usize
    requires { k < said_count said.now }
    ensures { result ≡ left_in said.now k }
{
    usize::from(said[k * SAID + 1])
}

pub fn right_in(said: &[u16], k: usize) -> usize
    requires { k < said_count said.now }
    ensures { result ≡ right_in said.now k }
{
    usize::from(said[k * SAID + 2])
}

// The numbers of pattern row i.
pub fn pattern_kind_in(patterns: &[u16], i: usize) -> u16
    requires { i < pattern_count patterns.now }
    ensures { result ≡ pattern_kind_in patterns.now i }
{
    patterns[i * PATTERN]
}

// Whether pattern row i is a variable; any other is a symbol.
pub fn is_variable(patterns: &[u16], i: usize) -> bool
    requires { i < pattern_count patterns.now }
    ensures { result ≡ eqb (pattern_kind_in patterns.now i) 4 }
{
    pattern_kind_in(patterns, i) == VARIABLE
}

pub fn head_in(patterns: &[u16], i: usize) -> u16
    requires { i < pattern_count patterns.now }
    ensures { result ≡ head_in patterns.now i }
{
    patterns[i * PATTERN + 1]
}

pub fn pattern_count_in(patterns: &[u16], i: usize) -> usize
    requires { i < pattern_count patterns.now }
    ensures { result ≡ pattern_count_in patterns.now i }
{
    usize::from(patterns[i * PATTERN + 2])
}

pub fn pattern_arg_in(patterns: &[u16], i: usize, k: usize) -> usize
    requires i_bound { i < pattern_count patterns.now }
    requires k_lt_arg_places { k < arg_places }
    ensures { result ≡ pattern_arg_in patterns.now i k }
{
    usize::from(patterns[i * PATTERN + 3 + k])
}

// The sign of literal k.
pub fn sign_in(literals: &[u16], k: usize) -> u16
    requires { k < literal_count literals.now }
    ensures { result ≡ sign_in literals.now k }
{
    literals[k * LITERAL]
}

// Whether literal k says that its sides are equal; any other says that they differ.
pub fn is_equal(literals: &[u16], k: usize) -> bool
    requires { k < literal_count literals.now }
    ensures { result ≡ eqb (sign_in literals.now k) 6 }
{
    sign_in(literals, k) == EQUAL
}
