// The first line of a program's output, and what its grounds are printed from.
ghost use Rattle.grounds_lines.specs.Opening.{Opens};

use grounds_steps::WORDS;
use grounds_verdict::Conclusions;
use replies::INPUT_LIMIT;
use reply_lines::{Line, over_line, reply_line};

// The line; and for a breach how many steps stand in the run, how many literals there are, and their conclusions.
#[derive(Clone, Copy)]
pub struct Opened {
    pub line: Line,
    pub steps: usize,
    pub literals: usize,
    pub conclusions: Conclusions,
}

// Refusal 11 first, with nothing written; else the writer's reply and what it wrote.
pub fn open(input: &[u8], steps: &mut [[u64; WORDS]]) -> Opened
    ensures opens { Opens input.now steps.old result steps.new }
{
    if INPUT_LIMIT < input.len() {
        return Opened {
            line: over_line(),
            steps: 0,
            literals: 0,
            conclusions: writer::no_conclusions(),
        };
    }
    let r = writer::write(input, steps);
    Opened {
        line: reply_line(r.outcome, r.places),
        steps: r.steps,
        literals: r.literals,
        conclusions: r.conclusions,
    }
}
