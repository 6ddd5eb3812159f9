// The writer of grounds: the finder's reply, and for a breach the steps and conclusions that show it.
#![tactic(auto)]

mod drawing;

ghost use Rattle.std.specs.Prelude.{◌≡◌, ◌≤◌, ltb, length};
ghost use Rattle.grounds_steps.specs.Steps.{most_steps};
ghost use Rattle.writer.specs.Claims.{no_conclusions, Writes};
ghost use Rattle.writer.specs.Seeking.{bare_with, refused_with};
ghost use Rattle.writer.specs.Lent.{BrokenIn, DrawsIn, SeekableBy, SoughtBy};

use drawing::draw;
use finder::answered;
use grounds_steps::{STEPS, WORDS};
use grounds_verdict::Conclusions;
use hunting::hunt;
use replies::{Outcome, Refusal};
use ruling::rule;
use runs::limits::{LITERALS, ROWS, UNUSED, VARIABLES};
use runs::literal_count;
use search::Kind;

// The finder's reply, or refusal 10; how many steps were written, and a conclusion for each literal.
// The numbers are told with every outcome: they are 0 where there is no breach.
#[derive(Clone, Copy)]
pub struct Grounds {
    pub outcome: Outcome,
    pub places: [u16; VARIABLES],
    pub steps: usize,
    pub literals: usize,
    pub conclusions: Conclusions,
}

// A context and a rule, as runs.
#[derive(Clone, Copy)]
pub(crate) struct Problem<'a> {
    rows: &'a [u16],
    said: &'a [u16],
    patterns: &'a [u16],
    literals: &'a [u16],
}

// Zeros in every place.
pub fn no_conclusions() -> Conclusions
    ensures { result ≡ no_conclusions }
{
    Conclusions {
        firsts: [0; LITERALS],
        differences: [0; LITERALS],
    }
}

// A reply with nothing written.
fn bare(outcome: Outcome, places: [u16; VARIABLES]) -> Grounds
    ensures { result ≡ bare_with outcome places }
{
    Grounds {
        outcome,
        places,
        steps: 0,
        literals: 0,
        conclusions: no_conclusions(),
    }
}

fn refused(x: Refusal) -> Grounds
    ensures { result ≡ refused_with x }
{
    bare(Outcome::Refused(x), [UNUSED; VARIABLES])
}

// Whether there is room for too few steps.
fn cramped(steps: &[[u64; WORDS]]) -> bool
    ensures { result ≡ ltb (length steps.now) most_steps }
{
    steps.len() < STEPS
}

// The grounds for a breach of n variables.
// The room for all steps is asked in each contract: the run is lent and written, and a struct of it would only wrap it.
fn shown(problem: Problem, n: u8, places: [u16; VARIABLES], steps: &mut [[u64; WORDS]]) -> Grounds
    requires broken { BrokenIn problem places }
    requires room { most_steps ≤ length steps.old }
    ensures { DrawsIn problem.entry n places steps.old result steps.new }
{
    let support = draw(problem, places, steps);
    Grounds {
        outcome: Outcome::Breach(n),
        places,
        steps: support.steps,
        literals: literal_count(problem.literals),
        conclusions: support.conclusions,
    }
}

// The first breach by a table with its grounds, or none.
fn seek(problem: Problem, table: [u16; ROWS], steps: &mut [[u64; WORDS]]) -> Grounds
    requires seekable { SeekableBy problem table }
    requires room { most_steps ≤ length steps.old }
    ensures { SoughtBy problem.entry table steps.old result steps.new }
{
    let r = hunt(
        problem.rows,
        problem.said,
        problem.patterns,
        problem.literals,
        table,
    );
    let reply = answered(r.kind, r.places);
    match r.kind {
        Kind::Breach(n) => shown(problem, n, r.places, steps),
        // Two arms: the proof shows that the second is not reached.
        Kind::Clear => bare(reply.outcome, r.places),
        Kind::Unfit => bare(reply.outcome, r.places),
    }
}

// The finder's reply to a text, or refusal 10 where there is room for too few steps; after a breach, its grounds in the first places of the run.
pub fn write(text: &[u8], steps: &mut [[u64; WORDS]]) -> Grounds
    ensures writes { Writes text.now steps.old result steps.new }
{
    let ruled = rule(text);
    if let Err(x) = ruled.answer {
        return refused(x);
    }
    if cramped(steps) {
        return refused(Refusal {
            number: 10,
            line: 0,
            offset: 0,
        });
    }
    let told = ruled.told;
    let problem = Problem {
        rows: told.rows(),
        said: told.said(),
        patterns: told.patterns(),
        literals: told.literals(),
    };
    seek(problem, ruled.table, steps)
}
