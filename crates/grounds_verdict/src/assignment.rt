// The variables of a rule, and whether each has a context row.
ghost use Rattle.std.specs.Prelude.{◌≡◌};
ghost use Rattle.meaning.specs.Rules.{variables as variables_in};
ghost use Rattle.meaning.specs.Checking.{assigned_by};
ghost use Rattle.runs.specs.Runs.{patterns_of};
ghost use Rattle.grounds_verdict.specs.Tests.{FirstFalse};

use runs::limits::VARIABLES;
use runs::{head_in, is_variable, pattern_count};

// The number of variables of the pattern rows.
pub(crate) fn variables(patterns: &[u16]) -> usize
    ensures { result ≡ variables_in (patterns_of patterns.now) }
{
    let mut n = 0;
    for p in 0..pattern_count(patterns) {
        if is_variable(patterns, p) {
            n = n.max(usize::from(head_in(patterns, p)) + 1);
        }
    }
    n
}

// Whether variable v has a context row.
fn assigned(asg: [u16; VARIABLES], rows: usize, v: usize) -> bool
    ensures { result ≡ assigned_by rows asg v }
{
    v < VARIABLES && usize::from(asg[v]) < rows
}

// The first variable without a context row.
pub(crate) fn first_unassigned(asg: [u16; VARIABLES], rows: usize, n: usize) -> Option<usize>
    ensures { FirstFalse (assigned_by rows asg) n result }
{
    for v in 0..n {
        if !assigned(asg, rows, v) {
            return Some(v);
        }
    }
    None
}
