// The variables in the term of each pattern row, as bits: bit v is variable v.
ghost use Rattle.std.specs.Prelude.{◌≡◌, ◌^◌, ◌<◌, length};
ghost use Rattle.runs.specs.Limits.{most_variables};
ghost use Rattle.runs.specs.Runs.{pattern_count, pattern_args_in, pattern_in, patterns_of};
ghost use Rattle.runs.specs.Fit.{Every, PatternAt};
ghost use Rattle.search_plan.specs.Steps.{RowFit, ArgsFit};
ghost use Rattle.search_plan.specs.Sets.{union as union_of, set_of, sets as sets_of};

use runs::{head_in, is_variable, pattern_arg_in, pattern_count_in};

// One variable alone.
fn only(head: u16) -> u8
    requires { head < most_variables }
    ensures { result ≡ 2 ^ head }
{
    1 << head
}

// The variables of the arguments of row i.
fn union(patterns: &[u16], sets: &[u8], i: usize) -> u8
    requires { ArgsFit patterns.now (length sets.now) i }
    ensures { result ≡ union_of sets.now 0 (pattern_args_in patterns.now i) }
{
    let n = pattern_count_in(patterns, i);
    let mut all = 0;
    for k in 0..n {
        all = all | sets[pattern_arg_in(patterns, i, k)];
    }
    all
}

// Beside level: the values and what is made of a symbol's arguments differ, and so do the contracts.
fn set_of(patterns: &[u16], sets: &[u8], i: usize) -> u8
    requires { RowFit patterns.now (length sets.now) i }
    ensures { result ≡ set_of sets.now (pattern_in patterns.now i) }
{
    if is_variable(patterns, i) {
        return only(head_in(patterns, i));
    }
    union(patterns, sets, i)
}

// The variables of each row's term.
// Beside levels: the two calls differ, and so do the contracts.
pub(crate) fn sets(patterns: &[u16], sets: &mut [u8])
    requires every { Every (pattern_count patterns.now) (PatternAt patterns.now) }
    requires sets_len { length sets.old ≡ pattern_count patterns.now }
    ensures { sets.new ≡ sets_of (patterns_of patterns.now) }
{
    let n = sets.len();
    for i in 0..n {
        let x = set_of(patterns, sets, i);
        sets[i] = x;
    }
}
