// The finder: the first breach of a text's rule, or the first after an assignment, none, or a refusal.
#![tactic(auto)]

ghost use Rattle.std.specs.Prelude.{◌≡◌};
ghost use Rattle.hunting.specs.Laid.{Ready, Lays};
ghost use Rattle.ruling.specs.Claims.{rows_in, said_in, patterns_in, literals_in};
ghost use Rattle.finder.specs.Claims.{Filled, refused_with, answered_with, Prepares, Finds};
ghost use Rattle.finder.specs.Later.{Follows};

use hunting::{Laid, hunt_after_with, hunt_with, unknown};
use replies::{Outcome, Refusal, Reply};
use ruling::rule;
use runs::limits::{ROWS, UNUSED, VARIABLES};
use search::Kind;
use text_runs::Told;

// A refusal, with no places.
pub fn refused(x: Refusal) -> Reply
    ensures refuses { result ≡ refused_with x }
{
    Reply {
        outcome: Outcome::Refused(x),
        places: [UNUSED; VARIABLES],
    }
}

// What was read, laid out for a search. The table is the context's closing.
pub fn lay(t: Told, table: [u16; ROWS]) -> Laid
    requires filled { Filled t }
    requires ready { Ready (rows_in t) (said_in t) (patterns_in t) (literals_in t) table }
    ensures lays { Lays (rows_in t) (said_in t) (patterns_in t) (literals_in t) table result }
{
    hunting::lay(t.rows(), t.said(), t.patterns(), t.literals(), table)
}

// What a search answers. What is well-formed is never told unfit; if it were, a refusal of a number that no text gets would say so.
pub fn answered(kind: Kind, places: [u16; VARIABLES]) -> Reply
    ensures answers { result ≡ answered_with kind places }
{
    let outcome = match kind {
        Kind::Breach(n) => Outcome::Breach(n),
        Kind::Clear => Outcome::Clear,
        Kind::Unfit => Outcome::Refused(Refusal {
            number: 0,
            line: 0,
            offset: 0,
        }),
    };
    Reply { outcome, places }
}

// A text that was read, closed and ruled on, laid out for a search; or the refusal.
fn prepare(text: &[u8]) -> Result<Laid, Refusal>
    ensures { Prepares text.now result }
{
    let p = rule(text);
    p.answer?;
    Ok(lay(p.told, p.table))
}

// The first breach of a text's rule, none, or the refusal.
pub fn find(text: &[u8]) -> Reply
    ensures finds { Finds text.now result }
{
    match prepare(text) {
        Ok(l) => {
            let r = hunt_with(l, &mut unknown());
            answered(r.kind, r.places)
        }
        Err(x) => refused(x),
    }
}

// The first breach made of representatives after an assignment, none, or the refusal.
pub fn next(text: &[u8], after: [u16; VARIABLES]) -> Reply
    ensures follows { Follows text.now after result }
{
    match prepare(text) {
        Ok(l) => {
            let r = hunt_after_with(l, &mut unknown(), after);
            answered(r.kind, r.places)
        }
        Err(x) => refused(x),
    }
}
