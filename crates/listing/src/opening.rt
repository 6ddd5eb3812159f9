// An input made ready to be listed: read and closed once, or refused with a line.
ghost use Rattle.std.specs.Prelude.{◌≡◌};
ghost use Rattle.listing.specs.Opening.{limited_by, Headed, Opens};

use crate::State;
use hunting::Laid;
use replies::{INPUT_LIMIT, Refusal};
use reply_lines::{Line, no_line, refusal_line};

// What the program prints first, and what the list is filled from. A refused input has a line and nothing to list.
#[derive(Clone, Copy)]
pub struct Opened {
    pub line: Line,
    pub state: State,
    pub laid: Laid,
}

// Refusal 11 before everything else.
fn limit(length: usize, answer: Result<(), Refusal>) -> Result<(), Refusal>
    ensures { result ≡ limited_by length answer }
{
    if INPUT_LIMIT < length {
        return Err(Refusal {
            number: 11,
            line: 0,
            offset: 0,
        });
    }
    answer
}

// The refusal's line, or none, and where the list begins.
fn begin(answer: Result<(), Refusal>) -> (Line, State)
    ensures { Headed answer result.0 result.1 }
{
    match answer {
        Ok(()) => (no_line(), State::Start),
        Err(x) => (refusal_line(x), State::Done),
    }
}

// Where the reader refuses, it is the empty text that is laid out.
pub fn open(input: &[u8]) -> Opened
    ensures opens { Opens input.now result }
{
    let p = ruling::rule(input);
    let (line, state) = begin(limit(input.len(), p.answer));
    let laid = finder::lay(p.told, p.table);
    Opened { line, state, laid }
}
