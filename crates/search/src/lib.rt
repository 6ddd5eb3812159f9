// The first breach of a clause over a context, and the first after an assignment, by a table of representatives that is handed in. Whether two
// classes differ does not rest on that table: it asks the closing of the context.
#![tactic(auto)]

ghost use Rattle.std.specs.Prelude.{◌≡◌, ◌≤◌, ◌<◌, length};
ghost use Rattle.meaning.specs.Context.{differences_of};
ghost use Rattle.meaning.specs.Equality.{rep_at};
ghost use Rattle.columns.specs.Lent.{statements_in, context_in};
ghost use Rattle.differing.specs.Knowing.{LendsIn, Knows};
ghost use Rattle.search.specs.Finding.{FindsFor, Futile, NextFor, next_of, unfit_reply};

use columns::{Context, Rule, Statements};
use differing::Classed;

mod hunt;
mod literal;

// A breach of so many variables, none, or columns that are not well-formed.
// No Result of an Option: each of the three is told apart by callers.
#[derive(Clone, Copy)]
pub enum Kind {
    Breach(u8),
    Clear,
    Unfit,
}

// The rows of the variables stand beside the kind, unused places 255.
// The places are told with every kind, so they stand beside it.
#[derive(Clone, Copy)]
pub struct Reply {
    pub kind: Kind,
    pub places: [u16; 4],
}

fn unfit() -> Reply
    ensures { result ≡ unfit_reply }
{
    Reply {
        kind: Kind::Unfit,
        places: [255; 4],
    }
}

// Whether there can be no breach: some literal is p unequal p, and the context does not contradict itself.
fn futile(never: bool, statements: &Statements, table: [u16; 255], closed: &[u16; 255]) -> bool
    ensures { Futile never (rep_at table) (rep_at closed.now) (differences_of (statements_in statements.now)) result }
{
    never && closing::clash(statements, closed).is_none()
}

// The assignment of n rows that comes next after one.
fn later(after: [u16; 4], n: u8) -> [u32; 4]
    requires { (0 < n) × (n ≤ 4) }
    ensures { (result ≡ next_of n after) × (length after ≡ 4) }
{
    let mut next = [
        u32::from(after[0]),
        u32::from(after[1]),
        u32::from(after[2]),
        u32::from(after[3]),
    ];
    let k = usize::from(n - 1);
    next[k] = u32::from(after[k]) + 1;
    next
}

// The closing of the context, the marks of its busy classes and what is known of pairs are lent, so that over many searches each pair is asked once.
pub fn find_with(
    classed: &Classed,
    table: &[u16; 255],
    known: &mut [u8; 65025],
    rule: &Rule,
) -> Reply
    requires lends { LendsIn classed.now }
    requires knows { Knows (context_in classed.now.context) known.old }
    ensures finds_in { FindsFor classed.now.context table.now rule.now result }
    ensures knows_2 { Knows (context_in classed.now.context) known.new }
{
    if !columns::fit_context(&classed.context) {
        return unfit();
    }
    let Some(p) = plan::plan_clause(rule) else {
        return unfit();
    };
    if futile(p.never, &classed.context.statements, *table, classed.closed) {
        return hunt::clear();
    }
    hunt::start(classed, table, known, rule, &p, p.free, [0; 4])
}

// The context is closed here, and nothing is known of pairs.
pub fn find_in(context: &Context, table: &[u16; 255], rule: &Rule) -> Reply
    ensures { FindsFor context.now table.now rule.now result }
{
    let c = closing::close(context);
    let busy = further::busy_classes(context, &c.table);
    let mut known = differing::unknown();
    let classed = Classed {
        context: *context,
        closed: &c.table,
        busy: &busy,
    };
    find_with(&classed, table, &mut known, rule)
}

// The places of the assignment from the number of variables on are not read.
// Beside find_with: the two end early for reasons of their own.
pub fn next_with(
    classed: &Classed,
    table: &[u16; 255],
    known: &mut [u8; 65025],
    rule: &Rule,
    after: [u16; 4],
) -> Reply
    requires lends { LendsIn classed.now }
    requires knows { Knows (context_in classed.now.context) known.old }
    ensures next_in { NextFor classed.now.context table.now rule.now after result }
    ensures knows_2 { Knows (context_in classed.now.context) known.new }
{
    if !columns::fit_context(&classed.context) {
        return unfit();
    }
    let Some(p) = plan::plan_clause(rule) else {
        return unfit();
    };
    if p.variables == 0 {
        return hunt::clear();
    }
    let from = later(after, p.variables);
    hunt::start(classed, table, known, rule, &p, [0; 4], from)
}

// The places of the assignment from the number of variables on are not read.
// Beside find_in: what is closed here is lent to the one call.
pub fn next_in(context: &Context, table: &[u16; 255], rule: &Rule, after: [u16; 4]) -> Reply
    ensures { NextFor context.now table.now rule.now after result }
{
    let c = closing::close(context);
    let busy = further::busy_classes(context, &c.table);
    let mut known = differing::unknown();
    let classed = Classed {
        context: *context,
        closed: &c.table,
        busy: &busy,
    };
    next_with(&classed, table, &mut known, rule, after)
}
