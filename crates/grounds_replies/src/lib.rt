// What the program `verify` prints.
#![tactic(auto)]

ghost use Rattle.std.specs.Prelude.{◌≡◌, ◌%◌, take};
ghost use Rattle.grounds_verdict.specs.Claims.{fault_of, verdict_of};
ghost use Rattle.reply_lines.specs.Prints.{Prints};
ghost use Rattle.grounds_replies.specs.Claims.{verdict_line, line_of, Answered, PrintsFor};

use grounds_intake::Parser;
use grounds_judgement::judge;
use grounds_steps::{STEPS, WORDS};
use grounds_verdict::Fault;
use replies::{INPUT_LIMIT, Refusal};
use reply_lines::{Line, line_of, over_line, refusal_line};

// A number's low byte.
fn low(n: usize) -> u8
    ensures { result ≡ n % 256 }
{
    n.to_be_bytes()[7]
}

// The line of a fault: a variable or a literal is one byte, and a step four.
fn fault_line(fault: Fault) -> Line
    ensures { Prints (verdict_line (fault_of fault)) result.bytes result.len }
{
    match fault {
        Fault::Unassigned(v) => line_of([11, 1, low(v), 0, 0, 0, 0, 0], 3),
        Fault::Bad(n) => {
            let bytes = n.to_be_bytes();
            line_of([11, 2, bytes[4], bytes[5], bytes[6], bytes[7], 0, 0], 6)
        }
        Fault::Unconcluded(n) => line_of([11, 3, low(n), 0, 0, 0, 0, 0], 3),
    }
}

// The line of a verdict.
fn verdict_line(verdict: Result<(), Fault>) -> Line
    ensures { Prints (verdict_line (verdict_of verdict)) result.bytes result.len }
{
    match verdict {
        Ok(()) => line_of([11, 0, 0, 0, 0, 0, 0, 0], 2),
        Err(x) => fault_line(x),
    }
}

// The line of a judgement.
fn outcome_line(outcome: Result<Result<(), Fault>, Refusal>) -> Line
    ensures { Prints (line_of outcome) result.bytes result.len }
{
    match outcome {
        Ok(verdict) => verdict_line(verdict),
        Err(x) => refusal_line(x),
    }
}

// The first n of some bytes or steps, or all of them.
fn front<T>(items: &[T], n: usize) -> &[T]
    ensures { result.now ≡ take n items.now }
{
    let m = n.min(items.len());
    &items[..m]
}

// The judgement on what was taken in.
fn outcome(p: Parser, text: &[u8], steps: &[[u64; WORDS]]) -> Result<Result<(), Fault>, Refusal>
    ensures { Answered p text.now steps.now result }
{
    let text = front(text, p.head.size);
    let steps = front(steps, p.steps);
    judge(text, p.places, steps, p.noted.conclusions)
}

// The line for what was taken in: 11 for a text or steps that are too long, else the judgement on the grounds.
pub fn reply<'a>(p: Parser, text: &'a [u8], steps: &'a [[u64; WORDS]]) -> Line
    ensures prints { PrintsFor p text.now steps.now result }
{
    if INPUT_LIMIT < p.head.size || STEPS < p.steps {
        return over_line();
    }
    outcome_line(outcome(p, text, steps))
}
