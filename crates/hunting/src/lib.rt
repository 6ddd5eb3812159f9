// The search over runs: they are laid out in columns once, with the marks of the busy classes, and then searched for the first breach, or for
// the first after an assignment.
#![tactic(auto)]

ghost use Rattle.std.specs.Prelude.{◌≡◌};
ghost use Rattle.runs.specs.Runs.{context_of, clause_of};
ghost use Rattle.differing.specs.Knowing.{Knows};
ghost use Rattle.search.specs.Hunting.{answer_of};
ghost use Rattle.search.specs.Finding.{found_by, later_by};
ghost use Rattle.hunting.specs.Laid.{Ready, MarkedIn, Lays, Sound, context_in, rule_in, nothing_known};

use differing::Classed;
use layout::{ContextColumns, RuleColumns, context_columns, rule_columns};
use runs::limits::{ROWS, VARIABLES};
use search::Reply;

// How many pairs of classes there are.
pub const PAIRS: usize = ROWS * ROWS;

// A context and a rule as a search takes them, the representatives of the rows, and the marks of the busy classes.
#[derive(Clone, Copy)]
pub struct Laid {
    context: ContextColumns,
    rule: RuleColumns,
    table: [u16; ROWS],
    busy: [u8; ROWS],
}

// What is known of pairs of classes before a search: nothing.
pub fn unknown() -> [u8; PAIRS]
    ensures { result ≡ nothing_known }
{
    differing::unknown()
}

// The marks of the busy classes of a context, by a table.
fn marks(context: &ContextColumns, table: &[u16; ROWS]) -> [u8; ROWS]
    ensures marks { MarkedIn context.now table.now result }
{
    let lent = context.lent();
    further::busy_classes(&lent, table)
}

// Laid out once, for any number of searches. The table is the context's closing.
pub fn lay<'a>(
    rows: &'a [u16],
    said: &'a [u16],
    patterns: &'a [u16],
    literals: &'a [u16],
    table: [u16; ROWS],
) -> Laid
    requires ready { Ready rows.now said.now patterns.now literals.now table }
    ensures lays { Lays rows.now said.now patterns.now literals.now table result }
{
    let context = context_columns(rows, said);
    let rule = rule_columns(patterns, literals);
    let busy = marks(&context, &table);
    Laid {
        context,
        rule,
        table,
        busy,
    }
}

// The first breach. What is known of pairs is kept, so that over many searches each is asked once.
pub fn hunt_with(l: Laid, known: &mut [u8; PAIRS]) -> Reply
    requires sound { Sound l }
    requires knows { Knows (context_in l) known.old }
    ensures hunts { result ≡ answer_of (found_by (context_in l) l.table (rule_in l)) }
    ensures knows { Knows (context_in l) known.new }
{
    let rule = l.rule.lent();
    let classed = Classed {
        context: l.context.lent(),
        closed: &l.table,
        busy: &l.busy,
    };
    search::find_with(&classed, &l.table, known, &rule)
}

// The first breach after an assignment.
pub fn hunt_after_with(l: Laid, known: &mut [u8; PAIRS], after: [u16; VARIABLES]) -> Reply
    requires sound { Sound l }
    requires knows { Knows (context_in l) known.old }
    ensures hunts { result ≡ answer_of (later_by (context_in l) l.table (rule_in l) after) }
    ensures knows { Knows (context_in l) known.new }
{
    let rule = l.rule.lent();
    let classed = Classed {
        context: l.context.lent(),
        closed: &l.table,
        busy: &l.busy,
    };
    search::next_with(&classed, &l.table, known, &rule, after)
}

// The first breach, over runs. The table is the context's closing.
pub fn hunt<'a>(
    rows: &'a [u16],
    said: &'a [u16],
    patterns: &'a [u16],
    literals: &'a [u16],
    table: [u16; ROWS],
) -> Reply
    requires ready { Ready rows.now said.now patterns.now literals.now table }
    ensures hunts { result ≡ answer_of (found_by (context_of rows.now said.now) table (clause_of patterns.now literals.now)) }
{
    let l = lay(rows, said, patterns, literals, table);
    let mut known = unknown();
    hunt_with(l, &mut known)
}
