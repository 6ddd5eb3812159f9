// Words of 64 bits: a step's owner, kind and sides in one, and its numbers in two.
ghost use Rattle.std.specs.Prelude.{◌≡◌, ◌<◌};
ghost use Rattle.grounds_batches.specs.Sending.{new_of, new_in, word_in, numbers_word};
ghost use Rattle.grounds_words.specs.Emitting.{MarkOf, RowOf};

// A step's new number; step 0 is none.
// No Option: the words of a step hold the number, and 0 is none there.
pub fn new_of(news: &[u32], r: u16) -> u32
    ensures { result ≡ new_of news.now r }
{
    if r == 0 {
        return 0;
    }
    news.get(usize::from(r)).copied().unwrap_or(0)
}

// What a step's number becomes; kinds 1 and 2 cite no step.
fn new_in(news: &[u32], kind: u16, r: u16) -> u32
    ensures { result ≡ new_in news.now kind r }
{
    if kind <= 2 {
        u32::from(r)
    } else {
        new_of(news, r)
    }
}

// Two numbers in a word.
pub(crate) fn numbers_word(news: &[u32], kind: u16, a: u16, b: u16) -> u64
    ensures { result ≡ numbers_word news.now kind a b }
{
    let high = u64::from(new_in(news, kind, a));
    let low = u64::from(new_in(news, kind, b));
    high * 4294967296 + low
}

// 0 for a context row, 1 for a pattern row.
fn mark_of(rows: usize, x: u16) -> u64
    ensures { MarkOf rows x result }
{
    if usize::from(x) < rows { 0 } else { 1 }
}

// The row of an entry, in the context or among the pattern rows.
fn row_of(rows: usize, x: u16) -> u64
    ensures { RowOf rows x result }
{
    let i = usize::from(x);
    let row = if i < rows { i } else { i - rows };
    row as u64
}

// A step's owner, its kind and its two sides in a word.
pub(crate) fn sides_word(rows: usize, owner: u8, kind: u16, x: u16, y: u16) -> u64
    requires { kind < 256 }
    ensures { result ≡ word_in rows owner kind x y }
{
    let high = u64::from(owner) * 72057594037927936 + u64::from(kind) * 281474976710656;
    let left = mark_of(rows, x) * 1099511627776 + row_of(rows, x) * 16777216;
    let right = mark_of(rows, y) * 65536 + row_of(rows, y);
    high + left + right
}
