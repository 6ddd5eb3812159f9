// A text read into runs, its context closed, and ruled on: the reader's refusal, then 8, then 9, or a rule that is ready.
#![tactic(auto)]

ghost use Rattle.std.specs.Prelude.{◌≡◌, ◌<◌};
ghost use Rattle.runs.specs.Limits.{most_statements};
ghost use Rattle.ruling.specs.Claims.{ClosesText, Rules};
ghost use Rattle.ruling.specs.Order.{Low, contradicted_by, judged_by, ruled_by};

use replies::Refusal;
use runs::limits::{LITERAL, ROWS};
use text_runs::Told;

// What was read, the representatives of its rows, and the first stated difference that contradicts them.
#[derive(Clone, Copy)]
pub struct Closed {
    pub told: Told,
    pub table: [u16; ROWS],
    pub clash: Option<usize>,
}

// A rule to be searched for, or refusal 1 to 9; what was read, and the representatives of its rows.
// What was read is told of a refused text too (that of the empty text), so the answer is no Result around it.
#[derive(Clone, Copy)]
pub struct Ruled {
    pub answer: Result<(), Refusal>,
    pub told: Told,
    pub table: [u16; ROWS],
}

// A text read and its context closed. Where the reader refuses, the runs are those of the empty text.
pub fn close(text: &[u8]) -> Closed
    ensures closes { ClosesText text.now result }
{
    let told = text_reader::read(text);
    let table = classes::close(told.rows(), told.said()).table;
    let clash = classes::clash(told.said(), &table);
    Closed { told, table, clash }
}

// Refusal 9, for the stated difference n. It is told by its number, counted from 1.
pub fn contradicted(n: usize) -> Refusal
    requires { n < most_statements }
    ensures refuses { result ≡ contradicted_by n }
{
    Refusal {
        number: 9,
        line: (n + 1) as u16,
        offset: 0,
    }
}

// Refusal 8, then 9.
pub fn judge(literals: usize, clash: Option<usize>) -> Result<(), Refusal>
    requires { Low clash }
    ensures { result ≡ judged_by literals clash }
{
    if literals == 0 {
        return Err(Refusal {
            number: 8,
            line: 0,
            offset: 0,
        });
    }
    match clash {
        Some(n) => Err(contradicted(n)),
        None => Ok(()),
    }
}

// The reader's refusal, then 8, then 9.
fn answer_for(
    first: Result<(), Refusal>,
    literals: usize,
    clash: Option<usize>,
) -> Result<(), Refusal>
    requires { Low clash }
    ensures { result ≡ ruled_by first literals clash }
{
    first?;
    judge(literals, clash)
}

// A text read and its context closed, or refused before anything is searched for.
pub fn rule(text: &[u8]) -> Ruled
    ensures rules { Rules text.now result }
{
    let Closed { told, table, clash } = close(text);
    let answer = answer_for(told.answer, told.filled.literals / LITERAL, clash);
    Ruled {
        answer,
        told,
        table,
    }
}
