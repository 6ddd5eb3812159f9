// What a search for the first breach of a rule rests on, found from the rule alone.
#![tactic(auto)]

ghost use Rattle.std.specs.Prelude.{◌≡◌, ◌≤◌, length, replicate};
ghost use Rattle.meaning.specs.Values.{levels as levels_of};
ghost use Rattle.runs.specs.Limits.{most_patterns};
ghost use Rattle.runs.specs.Runs.{patterns_of};
ghost use Rattle.runs.specs.Fit.{FitClause};
ghost use Rattle.search_plan.specs.Steps.{RuleFit};
ghost use Rattle.search_plan.specs.Sets.{sets as sets_of};
ghost use Rattle.search_plan.specs.Plans.{row_numbers, Ordered, plan_of, Plans};

use runs::fit::fit_clause;
use runs::limits::{PATTERNS, VARIABLES};
use runs::pattern_count;

mod arrange;
mod asked;
mod level;
mod reach;

// A level for each number of variables, and an end before the first.
pub const LEVELS: usize = VARIABLES + 1;

pub const ENDS: usize = LEVELS + 1;

// The levels of the pattern rows; the rows by level and then by row, those of level k from ends[k] up to ends[k + 1]; the variables in each row's
// term, as bits; those that literals reach, other than those that say p = p; and whether some literal says that p and p differ.
// Fixed memory, no heap: a number for each of 64 pattern rows.
#[derive(Clone, Copy)]
pub struct Plan {
    pub variables: u8,
    pub levels: [u8; PATTERNS],
    pub order: [u8; PATTERNS],
    pub ends: [u8; ENDS],
    pub reach: [u8; PATTERNS],
    pub asked: u8,
    pub never: bool,
}

// The level of each row, in a run of fixed length.
// Beside reach_numbers: the two calls differ, and so do the contracts.
fn level_numbers(patterns: &[u16]) -> [u8; PATTERNS]
    requires { RuleFit patterns.now }
    ensures { result ≡ row_numbers (levels_of (patterns_of patterns.now)) }
{
    let n = pattern_count(patterns);
    let mut run = [0; PATTERNS];
    level::levels(patterns, &mut run[..n]);
    run
}

// The variables of each row's term, in a run of fixed length.
// Beside level_numbers: the two calls differ, and so do the contracts.
fn reach_numbers(patterns: &[u16]) -> [u8; PATTERNS]
    requires { RuleFit patterns.now }
    ensures { result ≡ row_numbers (sets_of (patterns_of patterns.now)) }
{
    let n = pattern_count(patterns);
    let mut run = [0; PATTERNS];
    reach::sets(patterns, &mut run[..n]);
    run
}

#[derive(Clone, Copy)]
struct Reading {
    rows: [u8; PATTERNS],
    ends: [u8; ENDS],
}

fn ordered(levels: &[u8]) -> Reading
    requires { length levels.now ≤ most_patterns }
    ensures { Ordered levels.now result.rows result.ends }
{
    let mut rows = [0; PATTERNS];
    let ends = arrange::arrange(levels, &mut rows);
    Reading { rows, ends }
}

fn planned(patterns: &[u16], literals: &[u16]) -> Plan
    requires { FitClause patterns.now literals.now }
    ensures { result ≡ plan_of patterns.now literals.now }
{
    let n = pattern_count(patterns);
    let variables = level::variables(patterns);
    let levels = level_numbers(patterns);
    let Reading { rows: order, ends } = ordered(&levels[..n]);
    let reach = reach_numbers(patterns);
    let asked = asked::asked(literals, &reach[..n]);
    let never = asked::never(literals);
    Plan {
        variables,
        levels,
        order,
        ends,
        reach,
        asked,
        never,
    }
}

// The plan of a well-formed rule.
pub fn plan_clause(patterns: &[u16], literals: &[u16]) -> Option<Plan>
    ensures plans { Plans patterns.now literals.now result }
{
    if !fit_clause(patterns, literals) {
        return None;
    }
    Some(planned(patterns, literals))
}
