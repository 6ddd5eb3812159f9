// The level of each pattern row, and the number of variables.
ghost use Rattle.std.specs.Prelude.{◌≡◌, ◌+◌, ◌<◌, length};
ghost use Rattle.meaning.specs.Rules.{variables as variables_of};
ghost use Rattle.meaning.specs.Values.{highest as highest_of, level_of, levels as levels_of};
ghost use Rattle.runs.specs.Limits.{most_variables};
ghost use Rattle.runs.specs.Runs.{pattern_count, pattern_args_in, pattern_in, patterns_of};
ghost use Rattle.runs.specs.Fit.{Every, PatternAt};
ghost use Rattle.search_plan.specs.Steps.{RowFit, ArgsFit, reached_of};

use runs::{head_in, is_variable, pattern_arg_in, pattern_count, pattern_count_in};

// A variable's level is its number and one.
fn over_variable(head: u16) -> u8
    requires { head < most_variables }
    ensures { result ≡ head + 1 }
{
    head as u8 + 1
}

// The highest level of the arguments of row i.
fn highest(patterns: &[u16], levels: &[u8], i: usize) -> u8
    requires { ArgsFit patterns.now (length levels.now) i }
    ensures { result ≡ highest_of levels.now (pattern_args_in patterns.now i) }
{
    let n = pattern_count_in(patterns, i);
    let mut most = 0;
    for k in 0..n {
        most = most.max(levels[pattern_arg_in(patterns, i, k)]);
    }
    most
}

// A symbol's level is the highest of its arguments'.
// Beside set_of: the values and what is made of a symbol's arguments differ, and so do the contracts.
fn level(patterns: &[u16], levels: &[u8], i: usize) -> u8
    requires { RowFit patterns.now (length levels.now) i }
    ensures { result ≡ level_of levels.now (pattern_in patterns.now i) }
{
    if is_variable(patterns, i) {
        return over_variable(head_in(patterns, i));
    }
    highest(patterns, levels, i)
}

// The level of each row.
// Beside sets: the two calls differ, and so do the contracts.
pub(crate) fn levels(patterns: &[u16], levels: &mut [u8])
    requires every { Every (pattern_count patterns.now) (PatternAt patterns.now) }
    requires levels_len { length levels.old ≡ pattern_count patterns.now }
    ensures { levels.new ≡ levels_of (patterns_of patterns.now) }
{
    let n = levels.len();
    for i in 0..n {
        let x = level(patterns, levels, i);
        levels[i] = x;
    }
}

// A variable's number and one, and 0 for a symbol.
// No Option: what counts is how many variables there are, and that is 0.
fn reached(patterns: &[u16], i: usize) -> u8
    requires { RowFit patterns.now i i }
    ensures { result ≡ reached_of (pattern_in patterns.now i) }
{
    if is_variable(patterns, i) {
        return over_variable(head_in(patterns, i));
    }
    0
}

// The highest variable number and one, or 0.
pub(crate) fn variables(patterns: &[u16]) -> u8
    requires { Every (pattern_count patterns.now) (PatternAt patterns.now) }
    ensures { result ≡ variables_of (patterns_of patterns.now) }
{
    let n = pattern_count(patterns);
    let mut most = 0;
    for i in 0..n {
        most = most.max(reached(patterns, i));
    }
    most
}
