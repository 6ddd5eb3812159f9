// What the programs print for an input.
#![tactic(auto)]

ghost use Rattle.std.specs.Prelude.{◌≡◌, replicate};
ghost use Rattle.outputs.specs.Claims.{normal_limit, PrintsFound, PrintsNormal};

use replies::INPUT_LIMIT;
use reply_lines::{Line, no_line, over_line, refusal_line, reply_line};

// The most bytes that a normal text has.
pub const NORMAL_SPACE: usize = 7898;

// What is printed: so many bytes of the lent space, and then the line.
#[derive(Clone, Copy)]
pub struct Parts {
    pub text: usize,
    pub line: Line,
}

// What the finder program prints.
pub fn find_prints(input: &[u8]) -> Line
    ensures prints { PrintsFound input.now result }
{
    if INPUT_LIMIT < input.len() {
        return over_line();
    }
    let r = finder::find(input);
    reply_line(r.outcome, r.places)
}

// Space for any normal text.
pub fn normal_space() -> [u8; NORMAL_SPACE]
    ensures zeros { result ≡ replicate normal_limit 0 }
{
    [0; NORMAL_SPACE]
}

// What the normaliser program prints.
pub fn normalise_prints(input: &[u8], space: &mut [u8]) -> Parts
    ensures prints { PrintsNormal input.now space.old result space.new }
{
    if INPUT_LIMIT < input.len() {
        return Parts {
            text: 0,
            line: over_line(),
        };
    }
    match normaliser::normalise(input, space) {
        Ok(text) => Parts {
            text,
            line: no_line(),
        },
        Err(x) => Parts {
            text: 0,
            line: refusal_line(x),
        },
    }
}
