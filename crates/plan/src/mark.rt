// Which pattern rows have a variable in their terms: 1 for each that has, and 0.
// Bytes and no bools: a symbol's mark is the highest of its arguments', as its level is.
ghost use Rattle.std.specs.Prelude.{◌≡◌};
ghost use Rattle.columns.specs.Lent.{patterns_in};
ghost use Rattle.meaning.specs.Pruning.{touches};
ghost use Rattle.plan.specs.Planning.{RuleFits, RowFits};
ghost use Rattle.plan.specs.Plans.{mark_of};
ghost use Rattle.plan.specs.Marks.{mark_at, Marked};

use crate::level::over_args;
use columns::Patterns;

// A truth value as a number.
pub(crate) fn digit(b: bool) -> u8
    ensures { result ≡ mark_of b }
{
    if b { 1 } else { 0 }
}

// The mark of row i by the marks of the rows before it: a symbol's is the highest of its arguments'.
fn mark(patterns: &Patterns, marks: &[u8; 64], v: u16, i: usize) -> u8
    requires { RowFits patterns.now i }
    ensures { result ≡ mark_at patterns.now.kinds.now patterns.now.heads.now patterns.now.counts.now patterns.now.args.now marks.now v i }
{
    if patterns.is_variable(i) {
        return digit(patterns.heads[i] == v);
    }
    over_args(patterns, marks, i)
}

pub(crate) fn marks(patterns: &Patterns, v: u16) -> [u8; 64]
    requires { RuleFits patterns.now }
    ensures { Marked (touches v (patterns_in patterns.now)) result }
{
    let mut marks = [0; 64];
    for i in 0..patterns.rows {
        marks[i] = mark(patterns, &marks, v, i);
    }
    marks
}
