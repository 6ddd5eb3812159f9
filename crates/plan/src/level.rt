// The level of each pattern row, and the number of variables.
ghost use Rattle.std.specs.Prelude.{◌≡◌, ◌+◌, ◌<◌, get_or, replicate};
ghost use Rattle.meaning.specs.Rules.{variables as variables_of};
ghost use Rattle.meaning.specs.Columns.{args_at, pattern_of};
ghost use Rattle.columns.specs.Lent.{patterns_in};
ghost use Rattle.meaning.specs.Values.{highest, level_of, levels as levels_of};
ghost use Rattle.plan.specs.Planning.{RuleFits, RowFits, ArgsFit, Levelled, reached_of};

use columns::Patterns;

// A variable's level is its number and one.
fn over_variable(head: u16) -> u8
    requires { head < 4 }
    ensures { result ≡ head + 1 }
{
    head as u8 + 1
}

// The highest entry that a column has for the arguments of row i.
pub(crate) fn over_args(patterns: &Patterns, column: &[u8; 64], i: usize) -> u8
    requires { ArgsFit patterns.now.counts.now patterns.now.args.now i }
    ensures { result ≡ highest column.now (args_at patterns.now.counts.now patterns.now.args.now i) }
{
    let n = usize::from(patterns.counts[i]);
    let mut most: u8 = 0;
    for k in 0..n {
        most = most.max(column[usize::from(patterns.args[i * 4 + k])]);
    }
    most
}

// A symbol's level is the highest of its arguments'.
fn level(patterns: &Patterns, levels: &[u8; 64], i: usize) -> u8
    requires { RowFits patterns.now i }
    ensures { result ≡ level_of levels.now (pattern_of (get_or patterns.now.kinds.now i 0) (get_or patterns.now.heads.now i 0) (args_at patterns.now.counts.now patterns.now.args.now i)) }
{
    if patterns.is_variable(i) {
        return over_variable(patterns.heads[i]);
    }
    over_args(patterns, levels, i)
}

pub(crate) fn levels(patterns: &Patterns) -> [u8; 64]
    requires { RuleFits patterns.now }
    ensures { Levelled (levels_of (patterns_in patterns.now)) result }
{
    let mut levels = [0; 64];
    for i in 0..patterns.rows {
        levels[i] = level(patterns, &levels, i);
    }
    levels
}

// A variable's number and one, and 0 for a symbol.
// No Option: what counts is how many variables there are, and that is 0.
fn reached(patterns: &Patterns, i: usize) -> u8
    requires { (i < 64) × (get_or patterns.now.kinds.now i 0 ≡ 4 → get_or patterns.now.heads.now i 0 < 4) }
    ensures { result ≡ reached_of patterns.now.kinds.now patterns.now.heads.now i }
{
    if patterns.is_variable(i) {
        return over_variable(patterns.heads[i]);
    }
    0
}

// The highest variable number and one, or 0.
// No Option: what counts is how many variables there are, and that is 0.
pub(crate) fn variables(patterns: &Patterns) -> u8
    requires { RuleFits patterns.now }
    ensures { result ≡ variables_of (patterns_in patterns.now) }
{
    let mut most: u8 = 0;
    for i in 0..patterns.rows {
        most = most.max(reached(patterns, i));
    }
    most
}
