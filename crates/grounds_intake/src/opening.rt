// Where the text ends: before the first line that begins with the digits 08.
ghost use Rattle.std.specs.Prelude.{◌≡◌};
ghost use Rattle.grounds_intake.specs.Machine.{phase_after, end_after, start_after, head_after};

use crate::spaces::grow;
use crate::{Head, Phase};
use replies::INPUT_LIMIT;

// The most bytes that a text may have, and one more.
const PAST_TEXT: usize = INPUT_LIMIT + 1;

#[tactic(auto, using(crate::proofs::Ways::phases))]
impl Phase {
    // After a byte of the text.
    fn after(self, b: u8) -> Phase
        ensures { result ≡ phase_after self b }
    {
        match (self, b) {
            (_, b'\n') => Phase::Start,
            (Phase::Start, b'0') => Phase::Zero,
            (Phase::Zero, b'8') => Phase::Assignment,
            _ => Phase::Inside,
        }
    }
}

#[tactic(auto, using(crate::proofs::Ways::phases))]
impl Head {
    // After a byte of the text.
    pub(crate) fn after(self, b: u8) -> Head
        ensures { result ≡ head_after self b }
    {
        let phase = self.phase.after(b);
        let size = grow(self.size, PAST_TEXT);
        let start = self.start;
        match phase {
            Phase::Start => Head {
                phase,
                size,
                start: size,
            },
            Phase::Assignment => Head {
                phase,
                size: start,
                start,
            },
            _ => Head { phase, size, start },
        }
    }
}
