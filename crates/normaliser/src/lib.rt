// The normaliser: the one canonical text of a context, or a refusal.
// A space and a place in it stay two parameters: the writers of reply_lines take them so.
#![tactic(auto)]

mod keys;
mod normal;

ghost use Rattle.meaning.specs.Text.{narrow};
ghost use Rattle.meaning.specs.Replies.{Writes};
ghost use Rattle.normaliser.specs.Claims.{written_by};

use normal::write_normal;
use replies::Refusal;
use ruling::{Closed, contradicted};

// The normal text of a text's context, into the first bytes of the lent space, and how many they are; or the refusal.
pub fn normalise(text: &[u8], lent: &mut [u8]) -> Result<usize, Refusal>
    ensures writes { Writes narrow text.now lent.old (written_by result) lent.new }
{
    let Closed { told, table, clash } = ruling::close(text);
    told.answer?;
    if let Some(n) = clash {
        return Err(contradicted(n));
    }
    write_normal(told.rows(), told.said(), &table, lent)
}
