// The finder over records for programs in other languages: a reply is one number, and the rows of a breach stand in the caller's space.
ghost use Rattle.boundary.specs.Rows.{AnswersRows};

use super::tell;
use records::{ClauseColumns, Row, Statements};

// uint64_t checker_find_rows(const checker_row *rows, size_t count, const checker_statements *said, const checker_rule *rule, uint16_t places[4])
pub fn checker_find_rows(
    rows: &[Row],
    said: &Statements,
    rule: &ClauseColumns,
    places: &mut [u16; 4],
) -> u64
    ensures answers { AnswersRows rows.now said.now rule.now places.old result places.new }
{
    match records::find(rows, *said, *rule) {
        Some(reply) => tell(reply, places),
        None => 11,
    }
}
