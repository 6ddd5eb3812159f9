// Records, statements and a rule laid out in runs. A run has room for one piece more than the most, so that too many are told as too many.
// No iterators: statements and a rule come in columns, as C hands them over, and one index serves them and the run.
ghost use Rattle.std.specs.Prelude.{◌∷◌, ◌≡◌, suc, ◌+◌, ◌*◌, ◌≤◌, length, take};
ghost use Rattle.runs.specs.Limits.{most_rows, most_statements, most_patterns, most_literals, row_size, said_size, pattern_size, literal_size, arg_places};
ghost use Rattle.runs.specs.Runs.{put};
ghost use Rattle.records.specs.Layouts.{told, least, places_at, rows_laid, said_laid, patterns_laid, literals_laid};

use crate::{ClauseColumns, Statements, Table};
use runs::limits::{LITERAL, LITERALS, PATTERN, PATTERNS, PLACES, ROW, ROWS, SAID, STATEMENTS};
use runs::writing::{put_literal, put_pattern, put_row, put_said};

const ROW_SPACE: usize = (ROWS + 1) * ROW;

const SAID_SPACE: usize = (STATEMENTS + 1) * SAID;

const PATTERN_SPACE: usize = (PATTERNS + 1) * PATTERN;

const LITERAL_SPACE: usize = (LITERALS + 1) * LITERAL;

// How many are told: all, or one more than the most.
pub(crate) fn many(count: usize, most: usize) -> usize
    requires { most ≤ most_statements }
    ensures { (result ≡ told most count) × (result ≤ suc most) }
{
    count.min(most + 1)
}

// How many there are, or the most.
fn few(count: usize, most: usize) -> usize
    ensures { (result ≡ least most count) × (result ≤ most) }
{
    count.min(most)
}

pub(crate) fn rows_run(t: Table) -> [u16; ROW_SPACE]
    ensures { take (told most_rows t.count * row_size) result ≡ rows_laid t }
{
    let rows = t.rows;
    let mut run = [0; ROW_SPACE];
    for i in 0..few(t.count, ROWS) {
        let row = rows[i];
        // The four places one by one: the proof joins them.
        let places = [row.args[0], row.args[1], row.args[2], row.args[3]];
        put_row(&mut run, i, row.symbol, u16::from(row.count), places);
    }
    run
}

// Beside literals_run: the columns and the capacities are those of two structs of C.
pub(crate) fn said_run(s: Statements) -> [u16; SAID_SPACE]
    ensures { take (told most_statements s.count * said_size) result ≡ said_laid s }
{
    let mut run = [0; SAID_SPACE];
    for i in 0..few(s.count, STATEMENTS) {
        put_said(&mut run, i, u16::from(s.kinds[i]), s.lefts[i], s.rights[i]);
    }
    run
}

// The four places of row i.
fn places_at(args: &[u16], i: usize) -> [u16; PLACES]
    requires { i * arg_places + arg_places ≤ length args.now }
    ensures { result ≡ places_at args.now i }
{
    let at = i * PLACES;
    [args[at], args[at + 1], args[at + 2], args[at + 3]]
}

// Pattern row i, from its columns.
fn put_columns(run: &mut [u16], i: usize, kind: u8, head: u16, count: u8, places: [u16; PLACES])
    requires { i * pattern_size + pattern_size ≤ length run.old }
    ensures { run.new ≡ put pattern_size run.old i (kind ∷ head ∷ count ∷ places) }
{
    put_pattern(run, i, u16::from(kind), head, u16::from(count), places);
}

pub(crate) fn patterns_run(k: ClauseColumns) -> [u16; PATTERN_SPACE]
    ensures { take (told most_patterns k.patterns * pattern_size) result ≡ patterns_laid k }
{
    let mut run = [0; PATTERN_SPACE];
    for i in 0..few(k.patterns, PATTERNS) {
        let places = places_at(&k.args, i);
        put_columns(&mut run, i, k.kinds[i], k.heads[i], k.counts[i], places);
    }
    run
}

pub(crate) fn literals_run(k: ClauseColumns) -> [u16; LITERAL_SPACE]
    ensures { take (told most_literals k.literals * literal_size) result ≡ literals_laid k }
{
    let mut run = [0; LITERAL_SPACE];
    for i in 0..few(k.literals, LITERALS) {
        put_literal(&mut run, i, u16::from(k.signs[i]), k.lefts[i], k.rights[i]);
    }
    run
}
