// The reader: any bytes to the runs that say a context and a rule, or the first fault by number, line and byte.
#![tactic(auto)]

mod entries;
mod faults;
mod kinds;
mod lines;
mod pieces;
mod state;

ghost use Rattle.std.specs.Prelude.{◌≡◌};
ghost use Rattle.text_runs.specs.Reads.{Reads};
ghost use Rattle.text_reader.specs.Pieces.{no_pieces};
ghost use Rattle.text_reader.specs.Lines.{Ends, told_refused};

use lines::take_line;
use pieces::Pieces;
use replies::Refusal;
use runs::limits::{LITERAL_RUN, PATTERN_RUN, ROW_RUN, SAID_RUN};
use state::State;
use text_runs::{Filled, Told};

// All lines, one after the other.
// No `for`: how far a line goes is known only when it is read.
fn fill(text: &[u8], pieces: &mut Pieces) -> Result<State, Refusal>
    requires { pieces.old ≡ no_pieces }
    ensures ends { Ends text.now result pieces.new }
{
    let mut s = State::start();
    while s.at < text.len() {
        s = take_line(text, s, pieces).map_err(|fault| fault.refusal(s.line))?;
    }
    Ok(s)
}

// A refusal, with the runs of the empty text.
fn refused(x: Refusal) -> Told
    ensures { result ≡ told_refused x }
{
    Told {
        answer: Err(x),
        filled: Filled {
            rows: 0,
            said: 0,
            patterns: 0,
            literals: 0,
        },
        rows: [0; ROW_RUN],
        said: [0; SAID_RUN],
        patterns: [0; PATTERN_RUN],
        literals: [0; LITERAL_RUN],
    }
}

// What a text of any length says, or its first fault.
pub fn read(text: &[u8]) -> Told
    ensures reads { Reads text.now result }
{
    let mut pieces = Pieces::none();
    match fill(text, &mut pieces) {
        Ok(s) => Told {
            answer: Ok(()),
            filled: s.filled(),
            rows: pieces.rows,
            said: pieces.said,
            patterns: pieces.patterns,
            literals: pieces.literals,
        },
        Err(x) => refused(x),
    }
}
