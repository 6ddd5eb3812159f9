// The checker of anybody's grounds for a breach of a text's rule: a refusal of the text, or the verdict on the grounds.
#![tactic(auto)]

ghost use Rattle.grounds_judgement.specs.Claims.{JudgesTo};

use grounds_steps::WORDS;
use grounds_verdict::{Conclusions, Fault};
use replies::Refusal;
use ruling::rule;
use runs::limits::VARIABLES;

// The verdict on the grounds; or the refusal of the text, as the finder's.
pub fn judge(
    text: &[u8],
    asg: [u16; VARIABLES],
    steps: &[[u64; WORDS]],
    d: Conclusions,
) -> Result<Result<(), Fault>, Refusal>
    ensures judges { JudgesTo text.now asg steps.now d result }
{
    let ruled = rule(text);
    ruled.answer?;
    let told = &ruled.told;
    Ok(grounds_verdict::judge(
        told.rows(),
        told.said(),
        told.patterns(),
        told.literals(),
        asg,
        steps,
        d,
    ))
}
