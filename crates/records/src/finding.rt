// The finder over runs of any length.
ghost use Rattle.records.specs.Claims.{FindsRuns};

use classes::Answer;
use finder::{answered, refused};
use replies::Reply;
use runs::fit::fit_clause;
use runs::literal_count;

// The first breach of a rule in a context, both in runs; none, or refusal 8 or 9. There is no reply where one of the two is not well-formed.
pub fn find_runs<'a>(
    rows: &'a [u16],
    said: &'a [u16],
    patterns: &'a [u16],
    literals: &'a [u16],
) -> Option<Reply>
    ensures finds { FindsRuns rows.now said.now patterns.now literals.now result }
{
    if !fit_clause(patterns, literals) {
        return None;
    }
    let closed = classes::close(rows, said);
    if let Answer::Unfit = closed.answer {
        return None;
    }
    let clash = classes::clash(said, &closed.table);
    if let Err(x) = ruling::judge(literal_count(literals), clash) {
        return Some(refused(x));
    }
    let r = hunting::hunt(rows, said, patterns, literals, closed.table);
    Some(answered(r.kind, r.places))
}
