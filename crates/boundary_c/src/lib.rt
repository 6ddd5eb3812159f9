// What C links of `boundary`: each export calls the function of its name, and promises what that promises.
#![tactic(auto)]

ghost use Rattle.boundary.specs.Claims.{Answers, Proceeds, Settles};
ghost use Rattle.boundary.specs.Rows.{AnswersRows};

use records::{ClauseColumns, Row, Statements};

// uint64_t checker_find(const uint8_t *text, size_t length, uint16_t rows[4])
// Beside checker_next: C calls each by its name.
#[unsafe(no_mangle)]
pub extern "C" fn checker_find(text: &[u8], rows: &mut [u16; 4]) -> u64
    ensures answers { Answers text.now rows.old result rows.new }
{
    boundary::checker_find(text, rows)
}

// uint64_t checker_next(const uint8_t *text, size_t length, uint16_t rows[4])
#[unsafe(no_mangle)]
pub extern "C" fn checker_next(text: &[u8], rows: &mut [u16; 4]) -> u64
    ensures proceeds { Proceeds text.now rows.old result rows.new }
{
    boundary::checker_next(text, rows)
}

// uint64_t checker_normalise(const uint8_t *text, size_t length, uint8_t *lent, size_t room)
#[unsafe(no_mangle)]
pub extern "C" fn checker_normalise(text: &[u8], lent: &mut [u8]) -> u64
    ensures settles { Settles text.now lent.old result lent.new }
{
    boundary::checker_normalise(text, lent)
}

// uint64_t checker_find_rows(const checker_row *rows, size_t count, const checker_statements *said, const checker_rule *rule, uint16_t places[4])
#[unsafe(no_mangle)]
pub extern "C" fn checker_find_rows(
    rows: &[Row],
    said: &Statements,
    rule: &ClauseColumns,
    places: &mut [u16; 4],
) -> u64
    ensures answers { AnswersRows rows.now said.now rule.now places.old result places.new }
{
    boundary::table::checker_find_rows(rows, said, rule, places)
}
