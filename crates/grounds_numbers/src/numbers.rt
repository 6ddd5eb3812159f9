// Numbers read off a run.
ghost use Rattle.std.specs.Prelude.{◌≡◌, ◌+◌, ◌≤◌, length};
ghost use Rattle.meaning.specs.Values.{number_at};

// The number of an entry, and 0 past the last.
pub fn number_of(numbers: &[u16], entry: usize) -> u16
    ensures { result ≡ number_at numbers.now entry }
{
    numbers.get(entry).copied().unwrap_or(0)
}

// The number of an entry that is counted from an offset on, and 0 past the last.
pub fn number_after(numbers: &[u16], offset: usize, entry: usize) -> u16
    requires { offset ≤ length numbers.now }
    ensures { result ≡ number_at numbers.now (offset + entry) }
{
    numbers[offset..].get(entry).copied().unwrap_or(0)
}
