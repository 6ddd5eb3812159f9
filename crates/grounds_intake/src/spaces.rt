// The spaces that are lent: a place past one is not stored.
ghost use Rattle.std.specs.Prelude.{◌≡◌, set};
ghost use Rattle.grounds_intake.specs.Machine.{grown};

// One more, up to a bound.
pub(crate) fn grow(n: usize, most: usize) -> usize
    ensures { result ≡ grown n most }
{
    if n < most { n + 1 } else { n }
}

pub(crate) fn put(space: &mut [u8], at: usize, b: u8)
    ensures { space.new ≡ set space.old at b }
{
    if at < space.len() {
        space[at] = b;
    }
}
