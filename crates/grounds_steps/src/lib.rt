// The steps of grounds as they are lent: one after the other, three words of 64 bits a step. The first word has the owner, the kind and the
// sides, and the other two have the four numbers.
#![tactic(auto)]

ghost use Rattle.std.specs.Prelude.{◌≡◌, ◌<◌, length, set};
ghost use Rattle.grounds_steps.specs.Steps.{words_of, word_in};

use runs::limits::LITERALS;

// The most steps that are shared, or of one literal.
pub const EACH: usize = 16384;

// And in the whole.
pub const STEPS: usize = (LITERALS + 1) * EACH;

// The words of a step.
pub const WORDS: usize = 3;

// How many values an owner, a kind or a mark has, how many the number of a row, and how many one of the four numbers.
pub const BYTE: u64 = 256;

pub const ROW: u64 = BYTE * BYTE;

pub const NUMBER: u64 = ROW * ROW;

// What the first word is divided by to have a field at its end: the right side's mark, the left side's row and mark, the kind and the owner. The
// right side's row stands there.
pub const RIGHT_MARK: u64 = ROW;

pub const LEFT_ROW: u64 = RIGHT_MARK * BYTE;

pub const LEFT_MARK: u64 = LEFT_ROW * ROW;

pub const KIND: u64 = LEFT_MARK * BYTE;

pub const OWNER: u64 = KIND * BYTE;

// The owner, the kind and the sides of step i.
// Three readers, since the name says which word of a step it is.
pub fn sides_in(steps: &[[u64; WORDS]], i: usize) -> u64
    requires { i < length steps.now }
    ensures { result ≡ word_in steps.now i 0 }
{
    steps[i][0]
}

// Its first two numbers.
pub fn upper_in(steps: &[[u64; WORDS]], i: usize) -> u64
    requires { i < length steps.now }
    ensures { result ≡ word_in steps.now i 1 }
{
    steps[i][1]
}

// Its last two numbers.
pub fn lower_in(steps: &[[u64; WORDS]], i: usize) -> u64
    requires { i < length steps.now }
    ensures { result ≡ word_in steps.now i 2 }
{
    steps[i][2]
}

// The words of step i. A step past the space is not stored.
pub fn put_step(steps: &mut [[u64; WORDS]], i: usize, x: u64, y: u64, z: u64)
    ensures stores { steps.new ≡ set steps.old i (words_of x y z) }
{
    if i < steps.len() {
        steps[i] = [x, y, z];
    }
}
