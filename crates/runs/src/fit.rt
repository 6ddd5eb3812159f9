// Whether runs of any length say a well-formed context and a well-formed rule.
ghost use Rattle.std.specs.Prelude.{◌+◌, ◌<◌, ◌≤◌, length};
ghost use Rattle.runs.specs.Limits.{most_variables, arg_places};
ghost use Rattle.runs.specs.Runs.{row_count, said_count, pattern_count, head_in};
ghost use Rattle.runs.specs.Fit.{Decides, Every, PlacedAt, RowAt, NamedAt, PatternAt, FitContext, FitClause};

use super::limits::{LITERALS, PATTERN, PATTERNS, PLACES, ROW, VARIABLES};
use super::{
    count_in, head_in, is_variable, left_in, literal_count, pattern_count, pattern_count_in,
    right_in, row_count, said_count,
};

// Whether the arguments from a place on are at most four, each earlier than i.
fn placed(run: &[u16], at: usize, count: usize, i: usize) -> bool
    requires { at + arg_places ≤ length run.now }
    ensures { Decides result (PlacedAt run.now at count i) }
{
    if PLACES < count {
        return false;
    }
    for k in 0..count {
        if i <= usize::from(run[at + k]) {
            return false;
        }
    }
    true
}

fn row_placed(rows: &[u16], i: usize) -> bool
    requires { i < row_count rows.now }
    ensures { Decides result (RowAt rows.now i) }
{
    placed(rows, i * ROW + 2, count_in(rows, i), i)
}

// Beside patterns_placed: a closure for the test would be longer than the loop.
fn rows_placed(rows: &[u16]) -> bool
    ensures { Decides result (Every (row_count rows.now) (RowAt rows.now)) }
{
    let n = row_count(rows);
    for i in 0..n {
        if !row_placed(rows, i) {
            return false;
        }
    }
    true
}

// Whether statement k, or literal k, names rows below a limit.
fn pair_named(said: &[u16], limit: usize, k: usize) -> bool
    requires { k < said_count said.now }
    ensures { Decides result (NamedAt said.now limit k) }
{
    left_in(said, k) < limit && right_in(said, k) < limit
}

// Whether each of them does.
fn named(said: &[u16], limit: usize) -> bool
    ensures { Decides result (Every (said_count said.now) (NamedAt said.now limit)) }
{
    let n = said_count(said);
    for k in 0..n {
        if !pair_named(said, limit, k) {
            return false;
        }
    }
    true
}

fn variable_fits(patterns: &[u16], i: usize) -> bool
    requires { i < pattern_count patterns.now }
    ensures { Decides result (head_in patterns.now i < most_variables) }
{
    usize::from(head_in(patterns, i)) < VARIABLES
}

// Whether pattern row i is a variable, 0 to 3, or a symbol with at most four arguments, each an earlier pattern row.
fn pattern_placed(patterns: &[u16], i: usize) -> bool
    requires { i < pattern_count patterns.now }
    ensures { Decides result (PatternAt patterns.now i) }
{
    if is_variable(patterns, i) {
        return variable_fits(patterns, i);
    }
    placed(patterns, i * PATTERN + 3, pattern_count_in(patterns, i), i)
}

fn patterns_placed(patterns: &[u16]) -> bool
    ensures { Decides result (Every (pattern_count patterns.now) (PatternAt patterns.now)) }
{
    let n = pattern_count(patterns);
    for i in 0..n {
        if !pattern_placed(patterns, i) {
            return false;
        }
    }
    true
}

// A context of at most w rows and m statements.
pub fn fit_context(rows: &[u16], said: &[u16], w: usize, m: usize) -> bool
    ensures fit { Decides result (FitContext w m rows.now said.now) }
{
    let n = row_count(rows);
    if w < n {
        return false;
    }
    if m < said_count(said) {
        return false;
    }
    if !rows_placed(rows) {
        return false;
    }
    named(said, n)
}

pub fn fit_clause(patterns: &[u16], literals: &[u16]) -> bool
    ensures fit { Decides result (FitClause patterns.now literals.now) }
{
    let n = pattern_count(patterns);
    if PATTERNS < n {
        return false;
    }
    if LITERALS < literal_count(literals) {
        return false;
    }
    if !patterns_placed(patterns) {
        return false;
    }
    named(literals, n)
}
