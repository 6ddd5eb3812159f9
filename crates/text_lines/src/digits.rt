// The digits 0 to 9 and A to F. Only this file knows how a byte gives its value.
ghost use Rattle.std.specs.Prelude.{◌≡◌};
ghost use Rattle.meaning.specs.Text.{digit};
ghost use Rattle.text_lines.specs.Digits.{digit_of};

// What stands for the value of a byte that is no digit: `digit` of meaning/specs/Text says so.
const NO_DIGIT: u8 = 255;

// The value of a digit.
#[tactic(auto, using(crate::proofs::Formula::ways))]
pub(crate) fn digit_of(b: u8) -> Option<u8>
    ensures { result ≡ digit_of b }
{
    match b {
        b'0'..=b'9' => Some(b - b'0'),
        b'A'..=b'F' => Some(b - b'A' + 10),
        _ => None,
    }
}

// The value of a digit, and 255 for any other byte.
pub fn value(b: u8) -> u8
    ensures { result ≡ digit b }
{
    digit_of(b).unwrap_or(NO_DIGIT)
}
