// The conclusions that were given: of two for one literal the first counts, and one for a literal past the most is not kept.
ghost use Rattle.std.specs.Prelude.{◌≡◌};
ghost use Rattle.grounds_intake.specs.Machine.{no_conclusions, noted as noted_by};

use crate::{Buffer, Noted};
use grounds_verdict::Conclusions;
use runs::limits::LITERALS;

impl Noted {
    pub(crate) fn none() -> Self
        ensures { result ≡ no_conclusions }
    {
        Noted {
            conclusions: Conclusions {
                firsts: [0; LITERALS],
                differences: [0; LITERALS],
            },
            given: [0; LITERALS],
        }
    }

    // One conclusion more: its literal, counted from 1, its step and its difference.
    pub(crate) fn note(self, l: &Buffer) -> Self
        ensures { result ≡ noted_by self l.now.values }
    {
        let mut noted = self;
        let literal = usize::from(l.byte(1));
        if literal != 0 && literal <= LITERALS && noted.given[literal - 1] == 0 {
            noted.conclusions.firsts[literal - 1] = l.four(2);
            noted.conclusions.differences[literal - 1] = l.two(10);
            noted.given[literal - 1] = 1;
        }
        noted
    }
}
