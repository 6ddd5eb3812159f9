// The bytes of a line by the values of its digits, high byte first.
ghost use Rattle.std.specs.Prelude.{◌≡◌, ◌≤◌};
ghost use Rattle.grounds_intake.specs.Parsing.{byte_of, two_of, four_of, eight_of};

use crate::Buffer;

#[tactic(auto, using(crate::proofs::Ways::bytes))]
impl Buffer {
    pub(crate) fn byte(&self, i: usize) -> u8
        requires { i ≤ 24 }
        ensures { result ≡ byte_of self.now.values i }
    {
        let high = u16::from(self.values[i * 2]);
        let low = u16::from(self.values[i * 2 + 1]);
        ((high * 16 + low) % 256) as u8
    }

    // Each over the one before it: a function over the size would need a table of types.
    pub(crate) fn two(&self, i: usize) -> u16
        requires { i ≤ 23 }
        ensures { result ≡ two_of self.now.values i }
    {
        u16::from(self.byte(i)) * 256 + u16::from(self.byte(i + 1))
    }

    pub(crate) fn four(&self, i: usize) -> u32
        requires { i ≤ 21 }
        ensures { result ≡ four_of self.now.values i }
    {
        u32::from(self.two(i)) * 65536 + u32::from(self.two(i + 2))
    }

    pub(crate) fn eight(&self, i: usize) -> u64
        requires { i ≤ 17 }
        ensures { result ≡ eight_of self.now.values i }
    {
        u64::from(self.four(i)) * 4294967296 + u64::from(self.four(i + 4))
    }
}
