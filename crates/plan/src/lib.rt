// What a search for the first breach of a clause rests on, found from the clause alone.
// Beside search_plan, over runs: the search walks columns.
#![tactic(auto)]

ghost use Rattle.std.specs.Prelude.{◌≡◌};
ghost use Rattle.columns.specs.Lent.{WrittenIn, FitsRule};
ghost use Rattle.plan.specs.Plans.{PlannedBy, PlansFor};

use arrange::Order;
use columns::Rule;

mod arrange;
mod level;
mod mark;
mod reach;

// The levels of the pattern rows; the rows by level and then by row, those of level k from ends[k] up to ends[k + 1]; 1 for each variable that
// no literal reaches, other than those that say p = p; and whether some literal says that p and p differ.
// Fixed memory, no heap: a number for each of 64 pattern rows.
// Bytes and no bools in free: callers read and lend these marks.
#[derive(Clone, Copy)]
pub struct Plan {
    pub variables: u8,
    pub levels: [u8; 64],
    pub order: [u8; 64],
    pub ends: [u8; 6],
    pub free: [u8; 4],
    pub never: bool,
}

fn planned(rule: &Rule) -> Plan
    requires fit_clause { FitsRule rule.now }
    requires written { WrittenIn rule.now.patterns }
    ensures { PlannedBy rule.now result }
{
    let levels = level::levels(&rule.patterns);
    let Order { rows: order, ends } = arrange::arrange(&levels, rule.patterns.rows);
    let variables = level::variables(&rule.patterns);
    let free = reach::free(rule);
    let never = reach::never(&rule.literals);
    Plan {
        variables,
        levels,
        order,
        ends,
        free,
        never,
    }
}

// The plan, where the columns say a well-formed rule.
pub fn plan_clause(rule: &Rule) -> Option<Plan>
    ensures { PlansFor rule.now result }
{
    if !columns::fit_clause(rule) {
        return None;
    }
    Some(planned(rule))
}
