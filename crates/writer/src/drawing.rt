// What shows a breach: steps, and a conclusion for each literal, from runs that say a context and a rule.
ghost use Rattle.std.specs.Prelude.{◌≡◌, ◌+◌, ◌≤◌, ◌<◌, length, replicate};
ghost use Rattle.std.specs.Option.{unwrap_or};
ghost use Rattle.runs.specs.Limits.{most_statements, most_literals};
ghost use Rattle.meaning.specs.Checking.{numbered};
ghost use Rattle.runs.specs.Runs.{said_count, statements_of, literal_count};
ghost use Rattle.grounds_steps.specs.Steps.{most_steps};
ghost use Rattle.grounds_numbers.specs.Limits.{pair_run};
ghost use Rattle.grounds_numbers.specs.Pairs.{pairs_of};
ghost use Rattle.grounds_numbers.specs.Entries.{Room};
ghost use Rattle.grounds_laws.specs.Limits.{number_run};
ghost use Rattle.grounds_laws.specs.Classes.{state_of};
ghost use Rattle.grounds_laws.specs.Rounds.{blank};
ghost use Rattle.grounds_conclusions.specs.Saying.{Says};
ghost use Rattle.grounds_words.specs.Emitting.{Batched};
ghost use Rattle.grounds_words.specs.Holding.{out_in, Keeps};
ghost use Rattle.writer.specs.Drawing.{owner_by, asked_of, said_to, Stated, Sayable, Drawable, Drew};
ghost use Rattle.writer.specs.Lent.{BrokenIn, EntriesIn, ClosedIn, ShowsIn, closed_in};

use super::Problem;
use grounds_classes::settle;
use grounds_conclusions::{Closed, Shown, say};
use grounds_laws::{CLASS_RUN, DRAFT_RUN, NUMBER_RUN};
use grounds_numbers::limits::{ENTRIES, ENTRY_RUN, PAIR, PAIR_RUN};
use grounds_numbers::numbers::number_after;
use grounds_numbers::pairs::stated;
use grounds_numbers::table::{entry_count, fill};
use grounds_steps::WORDS;
use grounds_verdict::Conclusions;
use grounds_words::{Column, Out, batch};
use runs::limits::{EQUAL, LITERALS, ROW, VARIABLES};
use runs::{left_in, literal_count, right_in, row_count, sign_in};

// A literal's kind, the numbers of its sides, and whose steps its own are.
#[derive(Clone, Copy)]
pub(crate) struct Asked {
    kind: u16,
    left: u16,
    right: u16,
    owner: u8,
}

// How many steps are written, and a conclusion for each literal.
#[derive(Clone, Copy)]
pub(crate) struct Support {
    pub steps: usize,
    pub conclusions: Conclusions,
}

// A breach: an assignment, and the keys and the numbers of all entries under it.
#[derive(Clone, Copy)]
pub(crate) struct Breach<'a> {
    problem: Problem<'a>,
    asg: [u16; VARIABLES],
    keys: &'a [u16],
    numbers: &'a [u16],
}

// Whose steps literal j's own are, counted from 0: an unequal literal's number, and 0 for an equal one.
// No Option: the words of steps hold this number.
fn owner_of(kind: u16, j: usize) -> u8
    requires { j < most_literals }
    ensures { result ≡ owner_by kind j }
{
    if kind == EQUAL { 0 } else { (j + 1) as u8 }
}

// Literal j, after n context rows.
fn ask(numbers: &[u16], literals: &[u16], n: usize, j: usize) -> Asked
    requires n_in_bounds { n ≤ length numbers.now }
    requires j_bound { j < literal_count literals.now }
    requires j_lt_most_literals { j < most_literals }
    ensures { result ≡ asked_of numbers.now literals.now n j }
{
    let kind = sign_in(literals, j);
    Asked {
        kind,
        left: number_after(numbers, n, left_in(literals, j)),
        right: number_after(numbers, n, right_in(literals, j)),
        owner: owner_of(kind, j),
    }
}

// The stated equations, or the stated differences, at the start of a run that is long enough for all; how many numbers they take.
fn state(said: &[u16], numbers: &[u16], equations: bool, pairs: &mut [u16]) -> usize
    requires said_bound { said_count said.now ≤ most_statements }
    requires pairs_len { length pairs.old ≡ pair_run }
    ensures { Stated (numbered numbers.now (pairs_of equations (statements_of said.now))) pairs.new result }
{
    stated(said, numbers, equations, pairs) * PAIR
}

// The classes of all entries, closed by the stated equations, with their steps, from zeros.
fn close_all(cells: &mut [u16], table: &mut [u16], breach: Breach)
    requires entries { EntriesIn breach }
    requires table_value { state_of cells.old table.old ≡ blank }
    ensures { state_of cells.new table.new ≡ closed_in breach.entry }
{
    let mut pairs = [0u16; PAIR_RUN];
    let m = state(breach.problem.said, breach.numbers, true, &mut pairs);
    settle(cells, table, breach.keys, breach.numbers, &pairs[..m]);
}

// What is said for a literal, in a column whose first steps are shared, so many of them.
fn say_after(cells: &mut [u16], closed: Closed, q: Asked, from: u16) -> Shown
    requires { 0 < length cells.old }
    ensures { Says cells.new result.first (unwrap_or result.difference 0) (said_to closed.entry.keys.now closed.entry.apart.now q closed.entry.table.now from cells.old) }
{
    cells[0] = from;
    say(cells, closed, q.kind, q.left, q.right)
}

// The turn of a literal: what its conclusion rests on, behind the steps that are written, of n context rows and so many shared steps.
fn draw_one(
    cells: &mut [u16],
    closed: Closed,
    q: Asked,
    n: usize,
    from: u16,
    out: &mut Out,
) -> Shown
    requires { Sayable closed.keys.now closed.apart.now q closed.table.now from cells.old out.old.news.now out.old.next }
    ensures says { Says cells.new result.first (unwrap_or result.difference 0) (said_to closed.entry.keys.now closed.entry.apart.now q closed.entry.table.now from cells.old) }
    ensures sends { Batched n from q.owner cells.new result.first (out_in out.old) (out_in out.new) }
    ensures keeps { Keeps out.old out.new }
{
    let s = say_after(cells, closed, q, from);
    let column = Column {
        cells,
        rows: n,
        from: usize::from(from),
        owner: q.owner,
    };
    batch(out, column, s.first);
    s
}

// One literal after the other, from closed classes, by the numbers of all entries and n context rows.
// A conclusion holds 0 for no difference.
fn draw_each(
    cells: &mut [u16],
    closed: Closed,
    numbers: &[u16],
    literals: &[u16],
    n: usize,
    out: &mut Out,
) -> Conclusions
    requires drawable { Drawable closed.keys.now numbers.now closed.apart.now literals.now n cells.old closed.table.now out.old.steps.now }
    requires news_value { out.old.news.now ≡ replicate number_run 0 }
    requires next_value { out.old.next ≡ 0 }
    ensures drew { Drew closed.entry.keys.now numbers.now closed.entry.apart.now literals.now n cells.old closed.entry.table.now out.old.steps.now (record { steps = out.new.next; conclusions = result }) out.new.steps.now }
    ensures keeps { Keeps out.old out.new }
{
    let from = cells[0];
    let many = literal_count(literals);
    let mut firsts = [0u32; LITERALS];
    let mut differences = [0u16; LITERALS];
    for j in 0..many {
        let q = ask(numbers, literals, n, j);
        let s = draw_one(cells, closed, q, n, from, out);
        firsts[j] = out.new_of(s.first);
        differences[j] = s.difference.unwrap_or(0);
    }
    Conclusions {
        firsts,
        differences,
    }
}

// By closed classes of all entries.
fn draw_closed(
    breach: Breach,
    cells: &mut [u16],
    table: [u16; CLASS_RUN],
    steps: &mut [[u64; WORDS]],
) -> Support
    requires { ClosedIn breach cells.old table steps.old }
    ensures { ShowsIn breach.entry.problem breach.entry.asg steps.old result steps.new }
{
    let mut pairs = [0u16; PAIR_RUN];
    let m = state(breach.problem.said, breach.numbers, false, &mut pairs);
    let closed = Closed {
        table: &table,
        keys: breach.keys,
        apart: &pairs[..m],
    };
    let mut news = [0u32; NUMBER_RUN];
    let mut out = Out {
        steps,
        news: &mut news,
        next: 0,
    };
    let n = row_count(breach.problem.rows);
    let literals = breach.problem.literals;
    let conclusions = draw_each(cells, closed, breach.numbers, literals, n, &mut out);
    Support {
        steps: out.next,
        conclusions,
    }
}

// By the keys and the numbers of all entries.
fn draw_by(breach: Breach, steps: &mut [[u64; WORDS]]) -> Support
    requires entries { EntriesIn breach }
    requires room { most_steps ≤ length steps.old }
    ensures { ShowsIn breach.entry.problem breach.entry.asg steps.old result steps.new }
{
    let mut cells = [0u16; DRAFT_RUN];
    let mut table = [0u16; CLASS_RUN];
    close_all(&mut cells, &mut table, breach);
    draw_closed(breach, &mut cells, table, steps)
}

// The keys and the numbers of all entries are filled here.
fn draw_in(
    problem: Problem,
    asg: [u16; VARIABLES],
    keys: &mut [u16],
    numbers: &mut [u16],
    steps: &mut [[u64; WORDS]],
) -> Support
    requires broken { BrokenIn problem asg }
    requires entry_room { Room problem.rows.now problem.patterns.now keys.old numbers.old }
    requires room { most_steps ≤ length steps.old }
    ensures { ShowsIn problem.entry asg steps.old result steps.new }
{
    fill(problem.rows, problem.patterns, asg, keys, numbers);
    let breach = Breach {
        problem,
        asg,
        keys,
        numbers,
    };
    draw_by(breach, steps)
}

// What shows that an assignment breaks the rule.
pub(crate) fn draw(problem: Problem, asg: [u16; VARIABLES], steps: &mut [[u64; WORDS]]) -> Support
    requires broken { BrokenIn problem asg }
    requires room { most_steps ≤ length steps.old }
    ensures { ShowsIn problem.entry asg steps.old result steps.new }
{
    let mut keys = [0u16; ENTRY_RUN];
    let mut numbers = [0u16; ENTRIES];
    let n = entry_count(problem.rows, problem.patterns);
    let m = n * ROW;
    draw_in(problem, asg, &mut keys[..m], &mut numbers[..n], steps)
}
