// The search: variables in order, rows that are their own representatives rising, each literal tried as soon as its last variable is set.
ghost use Rattle.std.specs.Prelude.{◌≡◌, ◌||◌, ◌+◌, ◌≤◌, ◌<◌, eqb, set, take, replicate};
ghost use Rattle.meaning.specs.Rules.{found, nothing};
ghost use Rattle.meaning.specs.Equality.{rep_at};
ghost use Rattle.meaning.specs.Following.{differ_by};
ghost use Rattle.columns.specs.Lent.{rows_in, patterns_in, literals_in, context_in};
ghost use Rattle.differing.specs.Knowing.{ClosedIn, Knows};
ghost use Rattle.search.specs.Hunting.{stage_of, dead_of, start_of, rows_of, enter_from, answer_of, is_breach, Chosen};
ghost use Rattle.search.specs.Lent.{ReadyFor, HuntsIn, hunt_in, enter_in};

use crate::{Kind, Reply};
use columns::{Literals, Rule};
use differing::Classed;
use plan::Plan;
use values::chain::Ledger;
use values::value::Reading;

// What is searched: pattern rows that are read level by level, the rows of level k from ends[k] up to ends[k + 1] in their order, and literals,
// each tried at the level of its sides. A variable whose mark in free is 1 takes its first row alone, and the assignments begin with one.
// Bytes and no bools in free: the marks are the plan's.
#[derive(Clone, Copy)]
pub(crate) struct Hunt<'a> {
    classed: Classed<'a>,
    reading: Reading<'a>,
    literals: Literals<'a>,
    levels: &'a [u8; 64],
    ends: &'a [u8; 6],
    variables: u8,
    free: [u8; 4],
    from: [u32; 4],
}

pub(crate) fn clear() -> Reply
    ensures { result ≡ answer_of nothing }
{
    Reply {
        kind: Kind::Clear,
        places: [255; 4],
    }
}

fn breach(k: u8, chosen: [u16; 4]) -> Reply
    requires { (k ≤ 4) × Chosen k chosen }
    ensures { result ≡ answer_of (found (take k chosen)) }
{
    Reply {
        kind: Kind::Breach(k),
        places: chosen,
    }
}

fn is_breach(r: Reply) -> bool
    ensures { result ≡ is_breach r.kind }
{
    matches!(r.kind, Kind::Breach(_))
}

// Whether no later row of a variable is tried: a breach was found, or the variable takes its first row alone.
fn settled(r: Reply, alone: u8) -> bool
    ensures { result ≡ (is_breach r.kind || eqb alone 1) }
{
    is_breach(r) || alone == 1
}

// Variable k takes row i.
fn choose(chosen: [u16; 4], k: u8, i: usize) -> [u16; 4]
    requires { (k < 4) × (i < 255) }
    ensures { result ≡ set chosen k i }
{
    let mut c = chosen;
    c[usize::from(k)] = i as u16;
    c
}

// The row that variable k begins with: that of the assignment to start from while the rows before it are the assignment's, else row 0.
fn begins(from: [u32; 4], chosen: [u16; 4], k: u8) -> usize
    requires { k < 4 }
    ensures { result ≡ start_of from k chosen }
{
    let n = usize::from(k);
    for j in 0..n {
        if u32::from(chosen[j]) != from[j] {
            return 0;
        }
    }
    from[n] as usize
}

// The rows of level k are read and the literals of that level are tried; then the search goes on.
#[cycle(enter_seek)]
fn enter(hunt: &Hunt, known: &mut [u8; 65025], k: u8, chosen: [u16; 4], values: &[u32; 64]) -> Reply
    requires hunting { HuntsIn hunt.now }
    requires k_le_variables { (k ≤ hunt.now.variables) × Chosen k chosen }
    requires closed_by { ClosedIn hunt.now.classed }
    requires knows { Knows (context_in hunt.now.classed.context) known.old }
    ensures value { result ≡ answer_of (enter_in hunt.now k chosen values.now) }
    ensures knows_2 { Knows (context_in hunt.now.classed.context) known.new }
{
    let ends = hunt.ends;
    let j = usize::from(k);
    let v = values::value::read(
        &hunt.reading,
        usize::from(ends[j]),
        usize::from(ends[j + 1]),
        chosen,
        values,
    );
    if !crate::literal::all_pass(&hunt.classed, known, hunt.levels, &hunt.literals, k, &v) {
        return clear();
    }
    seek(hunt, known, k, chosen, &v)
}

// The first breach in which the variables before k have their chosen rows.
#[cycle(enter_seek)]
fn seek(hunt: &Hunt, known: &mut [u8; 65025], k: u8, chosen: [u16; 4], values: &[u32; 64]) -> Reply
    requires hunting { HuntsIn hunt.now }
    requires k_le_variables { (k ≤ hunt.now.variables) × Chosen k chosen }
    requires closed_by { ClosedIn hunt.now.classed }
    requires knows { Knows (context_in hunt.now.classed.context) known.old }
    ensures value { result ≡ answer_of (hunt_in hunt.now k chosen values.now) }
    ensures knows_2 { Knows (context_in hunt.now.classed.context) known.new }
{
    let Hunt {
        variables,
        free,
        from,
        ..
    } = *hunt;
    let Ledger { terms, table, .. } = hunt.reading.ledger;
    let rows = terms.rows;
    if variables <= k {
        return breach(k, chosen);
    }
    let alone = free[usize::from(k)];
    for i in begins(from, chosen, k)..rows {
        if usize::from(table[i]) != i {
            continue;
        }
        let r = enter(hunt, known, k + 1, choose(chosen, k, i), values);
        if settled(r, alone) {
            return r;
        }
    }
    clear()
}

// The first breach at or after an assignment.
// No struct: the first five are lent, and the last two are what the two kinds of search differ in.
pub(crate) fn start(
    classed: &Classed,
    table: &[u16; 255],
    known: &mut [u8; 65025],
    rule: &Rule,
    plan: &Plan,
    free: [u8; 4],
    from: [u32; 4],
) -> Reply
    requires ready { ReadyFor classed.now.context rule.now plan.now }
    requires closed_by { ClosedIn classed.now }
    requires knows { Knows (context_in classed.now.context) known.old }
    ensures value { result ≡ answer_of (enter_from (stage_of (rows_in classed.now.context.terms) (rep_at table.now) (patterns_in rule.now.patterns) plan.now.order plan.now.ends) (dead_of (differ_by (context_in classed.now.context)) plan.now.levels (literals_in rule.now.literals)) (rows_of (rep_at table.now) classed.now.context.terms.rows free from) plan.now.variables 0 (replicate 4 255) (replicate 64 0)) }
    ensures knows_2 { Knows (context_in classed.now.context) known.new }
{
    let terms = classed.context.terms;
    let chains = values::chain::link(terms.symbols, terms.rows);
    let values = [0; 64];
    let ledger = Ledger {
        terms,
        table,
        chains: &chains,
    };
    let reading = Reading {
        ledger,
        patterns: rule.patterns,
        order: &plan.order,
    };
    let hunt = Hunt {
        classed: *classed,
        reading,
        literals: rule.literals,
        levels: &plan.levels,
        ends: &plan.ends,
        variables: plan.variables,
        free,
        from,
    };
    enter(&hunt, known, 0, [255; 4], &values)
}
