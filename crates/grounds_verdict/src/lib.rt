// Grounds for a breach, judged: whether the assignment names context rows, each step follows from earlier ones, and each literal is concluded.
// What is lent has any length; `judge` makes the runs for a context of the length that a text may have.
#![tactic(auto)]

mod assignment;
mod citing;
mod literals;
mod owners;
mod steps;
mod table;
mod words;

ghost use Rattle.std.specs.Prelude.{true, false, ◌≡◌, ◌*◌, ◌≤◌, length};
ghost use Rattle.runs.specs.Limits.{most_rows, most_statements, most_literals};
ghost use Rattle.runs.specs.Fit.{FitContext, FitClause};
ghost use Rattle.runs.specs.Runs.{said_count, literal_count};
ghost use Rattle.grounds_numbers.specs.Limits.{pair_size};
ghost use Rattle.grounds_numbers.specs.Entries.{entries_of, entry_count, Filled};
ghost use Rattle.grounds_verdict.specs.Tests.{FirstFalse, follows_with, concluded_with};
ghost use Rattle.grounds_verdict.specs.Claims.{WellFormed, Chosen, Judged};

use assignment::{first_unassigned, variables};
use grounds_numbers::limits::{ENTRIES, ENTRY_RUN, PAIR, PAIR_RUN};
use grounds_numbers::pairs::stated;
use grounds_numbers::table::{entry_count, fill};
use grounds_steps::WORDS;
use runs::limits::{LITERALS, ROW, VARIABLES};
use runs::row_count;
use steps::Grounds;
use table::Table;

// What is wrong with grounds. Steps and literals are counted from 1, and variables from 0.
#[derive(Clone, Copy, PartialEq, Eq)]
pub enum Fault {
    Unassigned(usize),
    Bad(usize),
    Unconcluded(usize),
}

// A place for each literal; an absent conclusion cites step 0.
// Two columns: docs/GROUNDS.md hands them over so.
#[derive(Clone, Copy)]
pub struct Conclusions {
    pub firsts: [u32; LITERALS],
    pub differences: [u16; LITERALS],
}

// A context and a rule as runs, with an assignment to its variables, and the grounds that these break the rule.
#[derive(Clone, Copy)]
struct Claim<'a> {
    rows: &'a [u16],
    said: &'a [u16],
    patterns: &'a [u16],
    literals: &'a [u16],
    asg: [u16; VARIABLES],
    steps: &'a [[u64; WORDS]],
    conclusions: Conclusions,
}

impl<'a> Claim<'a> {
    // The first bad step.
    // Beside open_literal: a function for both would have to promise each field that it fills.
    fn bad_step(&self, table: Table, pairs: &mut [u16]) -> Option<usize>
        requires { said_count self.now.said.now * pair_size ≤ length pairs.old }
        ensures { FirstFalse (follows_with self.now.said.now self.now.literals.now table.entry.keys.now table.entry.numbers.now table.entry.rows self.now.steps.now) (length self.now.steps.now) result }
    {
        let m = stated(self.said, table.numbers, true, pairs) * PAIR;
        let grounds = Grounds {
            table,
            pairs: &pairs[..m],
            literals: self.literals,
            steps: self.steps,
        };
        grounds.first_bad()
    }

    // The first literal that the steps do not conclude.
    fn open_literal(&self, table: Table, pairs: &mut [u16]) -> Option<usize>
        requires literals_bound { literal_count self.now.literals.now ≤ most_literals }
        requires pair_size_in_bounds { said_count self.now.said.now * pair_size ≤ length pairs.old }
        ensures { FirstFalse (concluded_with self.now.said.now self.now.literals.now table.entry.numbers.now table.entry.rows self.now.steps.now self.now.conclusions) (literal_count self.now.literals.now) result }
    {
        let m = stated(self.said, table.numbers, false, pairs) * PAIR;
        let grounds = Grounds {
            table,
            pairs: &pairs[..m],
            literals: self.literals,
            steps: self.steps,
        };
        grounds.first_open(&self.conclusions)
    }

    // The verdict by the keys and the numbers of all entries.
    fn judge_by(&self, keys: &[u16], numbers: &[u16], pairs: &mut [u16]) -> Result<(), Fault>
        requires well_formed { WellFormed self.now.rows.now self.now.said.now self.now.patterns.now self.now.literals.now }
        requires chosen { Chosen self.now.rows.now self.now.patterns.now self.now.asg }
        requires filled { Filled (entries_of self.now.rows.now self.now.asg self.now.patterns.now) keys.now numbers.now (entry_count self.now.rows.now self.now.patterns.now) }
        requires pair_size_in_bounds { said_count self.now.said.now * pair_size ≤ length pairs.old }
        ensures { Judged self.now.rows.now self.now.said.now self.now.patterns.now self.now.literals.now self.now.asg self.now.steps.now self.now.conclusions result }
    {
        let table = Table {
            keys,
            numbers,
            rows: row_count(self.rows),
        };
        if let Some(i) = self.bad_step(table, pairs) {
            return Err(Fault::Bad(i + 1));
        }
        if let Some(j) = self.open_literal(table, pairs) {
            return Err(Fault::Unconcluded(j + 1));
        }
        Ok(())
    }

    // The verdict where each variable has a context row. The keys, the numbers and the pairs are made here.
    fn judge_steps(&self) -> Result<(), Fault>
        requires fit_context { FitContext most_rows most_statements self.now.rows.now self.now.said.now }
        requires fit_clause { FitClause self.now.patterns.now self.now.literals.now }
        requires chosen { Chosen self.now.rows.now self.now.patterns.now self.now.asg }
        ensures { Judged self.now.rows.now self.now.said.now self.now.patterns.now self.now.literals.now self.now.asg self.now.steps.now self.now.conclusions result }
    {
        let n = entry_count(self.rows, self.patterns);
        let mut keys = [0; ENTRY_RUN];
        let keys = &mut keys[..n * ROW];
        let mut numbers = [0; ENTRIES];
        let numbers = &mut numbers[..n];
        fill(self.rows, self.patterns, self.asg, keys, numbers);
        self.judge_by(keys, numbers, &mut [0; PAIR_RUN])
    }
}

// The first variable without a context row, else the first bad step, else the first literal not concluded; else the grounds are accepted.
// Seven parameters: its callers lend each of these apart.
pub fn judge(
    rows: &[u16],
    said: &[u16],
    patterns: &[u16],
    literals: &[u16],
    asg: [u16; VARIABLES],
    steps: &[[u64; WORDS]],
    d: Conclusions,
) -> Result<(), Fault>
    requires fit_context { FitContext most_rows most_statements rows.now said.now }
    requires fit_clause { FitClause patterns.now literals.now }
    ensures { Judged rows.now said.now patterns.now literals.now asg steps.now d result }
{
    if let Some(v) = first_unassigned(asg, row_count(rows), variables(patterns)) {
        return Err(Fault::Unassigned(v));
    }
    let claim = Claim {
        rows,
        said,
        patterns,
        literals,
        asg,
        steps,
        conclusions: d,
    };
    claim.judge_steps()
}
