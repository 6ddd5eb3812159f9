// The finder and the normaliser for programs in other languages: a reply is one number, since C takes it so, and what it hands over stands in the
// caller's space.
#![tactic(auto)]

pub mod table;

ghost use Rattle.std.specs.Prelude.{◌≡◌};
ghost use Rattle.boundary.specs.Claims.{Answers, Proceeds, Settles};
ghost use Rattle.boundary.specs.Packs.{packed_by, packed_outcome, Told, Small, packed_answer};

use replies::{Outcome, Refusal, Reply};

// Kind 10, with the number, the place and the offset above it.
fn pack_refusal(x: Refusal) -> u64
    ensures { result ≡ packed_by x }
{
    let number = u64::from(x.number);
    let place = u64::from(x.line);
    let offset = u64::from(x.offset);
    10 + 256 * number + 65536 * place + 4294967296 * offset
}

fn pack_outcome(outcome: Outcome) -> u64
    ensures { result ≡ packed_outcome outcome }
{
    match outcome {
        Outcome::Breach(n) => 8 + 256 * u64::from(n),
        Outcome::Clear => 9,
        Outcome::Refused(x) => pack_refusal(x),
    }
}

// The number of a reply. Only a breach has rows to hand over.
fn tell(reply: Reply, rows: &mut [u16; 4]) -> u64
    ensures { Told reply rows.old result rows.new }
{
    let Reply { outcome, places } = reply;
    if let Outcome::Breach(_) = outcome {
        *rows = places;
    }
    pack_outcome(outcome)
}

// uint64_t checker_find(const uint8_t *text, size_t length, uint16_t rows[4])
pub fn checker_find(text: &[u8], rows: &mut [u16; 4]) -> u64
    ensures answers { Answers text.now rows.old result rows.new }
{
    tell(finder::find(text), rows)
}

// uint64_t checker_next(const uint8_t *text, size_t length, uint16_t rows[4])
pub fn checker_next(text: &[u8], rows: &mut [u16; 4]) -> u64
    ensures proceeds { Proceeds text.now rows.old result rows.new }
{
    let after = *rows;
    tell(finder::next(text, after), rows)
}

fn pack_written(written: Result<usize, Refusal>) -> u64
    requires { Small written }
    ensures { result ≡ packed_answer written }
{
    match written {
        Ok(n) => 256 * (n as u64),
        Err(x) => pack_refusal(x),
    }
}

// uint64_t checker_normalise(const uint8_t *text, size_t length, uint8_t *lent, size_t room)
pub fn checker_normalise(text: &[u8], lent: &mut [u8]) -> u64
    ensures settles { Settles text.now lent.old result lent.new }
{
    pack_written(normaliser::normalise(text, lent))
}
