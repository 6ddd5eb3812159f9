// Runs laid out in columns, for a search that reads columns. Every place is set, those past the last piece too.
#![tactic(auto)]

ghost use Rattle.std.specs.Prelude.{◌≡◌, ◌+◌, ◌*◌, ◌≤◌, ◌<◌, length};
ghost use Rattle.meaning.specs.Columns.{pad};
ghost use Rattle.runs.specs.Limits.{arg_places};
ghost use Rattle.runs.specs.Runs.{each};
ghost use Rattle.layout.specs.Lending.{LendsContext, LendsRule};
ghost use Rattle.layout.specs.Columns.{number_at, in_byte, byte_at, arg_at, Reaches, context_laid, rule_laid, Few, FewRule};

use columns::{Context, Literals, Patterns, Rule, Statements, Terms};
use runs::limits::{LITERAL, LITERALS, PATTERN, PATTERNS, PLACES, ROW, ROWS, SAID, STATEMENTS};
use runs::{literal_count, pattern_count, row_count, said_count};

const ROW_PLACES: usize = ROWS * PLACES;

const PATTERN_PLACES: usize = PATTERNS * PLACES;

// Rows with a symbol, a count and four places for arguments; statements with their kind; how many of each. Unused places are 0.
// Fixed memory, no heap: arrays of the capacities, and how much of them is filled.
#[derive(Clone, Copy)]
pub struct ContextColumns {
    pub rows: usize,
    pub symbols: [u16; ROWS],
    pub counts: [u8; ROWS],
    pub args: [u16; ROW_PLACES],
    pub statements: usize,
    pub kinds: [u8; STATEMENTS],
    pub lefts: [u16; STATEMENTS],
    pub rights: [u16; STATEMENTS],
}

// Pattern rows with their kind, a head, a count and four places for arguments; literals with their sign; how many of each. Unused places are 0.
// Fixed memory, no heap: arrays of the capacities, and how much of them is filled.
#[derive(Clone, Copy)]
pub struct RuleColumns {
    pub patterns: usize,
    pub kinds: [u8; PATTERNS],
    pub heads: [u16; PATTERNS],
    pub counts: [u8; PATTERNS],
    pub args: [u16; PATTERN_PLACES],
    pub literals: usize,
    pub signs: [u8; LITERALS],
    pub lefts: [u16; LITERALS],
    pub rights: [u16; LITERALS],
}

impl ContextColumns {
    // The columns, lent.
    pub fn lent(&self) -> Context<'_>
        ensures lends { LendsContext self.now result }
    {
        Context {
            terms: Terms {
                symbols: &self.symbols,
                counts: &self.counts,
                args: &self.args,
                rows: self.rows,
            },
            statements: Statements {
                kinds: &self.kinds,
                lefts: &self.lefts,
                rights: &self.rights,
                count: self.statements,
            },
        }
    }
}

impl RuleColumns {
    // The columns, lent.
    pub fn lent(&self) -> Rule<'_>
        ensures lends { LendsRule self.now result }
    {
        Rule {
            patterns: Patterns {
                kinds: &self.kinds,
                heads: &self.heads,
                counts: &self.counts,
                args: &self.args,
                rows: self.patterns,
            },
            literals: Literals {
                signs: &self.signs,
                lefts: &self.lefts,
                rights: &self.rights,
                count: self.literals,
            },
        }
    }
}

// A number in a byte: one that is too large becomes 255, which is no kind and no count.
fn in_byte(v: u16) -> u8
    ensures { result ≡ in_byte v }
{
    u8::try_from(v).unwrap_or(255)
}

// A number of piece i.
fn number_in(run: &[u16], i: usize, size: usize, from: usize) -> u16
    requires { i * size + from < length run.now }
    ensures { result ≡ number_at run.now size from i }
{
    run[i * size + from]
}

// One number of each of n pieces, and 0 past them.
fn numbers<const N: usize>(run: &[u16], n: usize, size: usize, from: usize) -> [u16; N]
    requires reaches { Reaches (length run.now) size (from + 1) n }
    requires room { n ≤ N }
    ensures { result ≡ pad N (each (number_at run.now size from) n) }
{
    let mut out = [0; N];
    for i in 0..n {
        out[i] = number_in(run, i, size, from);
    }
    out
}

// The same in bytes. No one function for both: a number is a number of two bytes as it is, and a byte only where it fits.
fn bytes<const N: usize>(run: &[u16], n: usize, size: usize, from: usize) -> [u8; N]
    requires reaches { Reaches (length run.now) size (from + 1) n }
    requires room { n ≤ N }
    ensures { result ≡ pad N (each (byte_at run.now size from) n) }
{
    let mut out = [0; N];
    for i in 0..n {
        out[i] = in_byte(number_in(run, i, size, from));
    }
    out
}

// Four numbers of each of n pieces, and 0 past them.
fn arguments<const N: usize>(run: &[u16], n: usize, size: usize, from: usize) -> [u16; N]
    requires reaches { Reaches (length run.now) size (from + arg_places) n }
    requires room { n * arg_places ≤ N }
    ensures { result ≡ pad N (each (arg_at run.now size from) (n * arg_places)) }
{
    let mut out = [0; N];
    for x in 0..n * PLACES {
        out[x] = number_in(run, x / PLACES, size, from + x % PLACES);
    }
    out
}

pub fn context_columns<'a>(rows: &'a [u16], said: &'a [u16]) -> ContextColumns
    requires { Few rows.now said.now }
    ensures laid { result ≡ context_laid rows.now said.now }
{
    let n = row_count(rows);
    let m = said_count(said);
    ContextColumns {
        rows: n,
        symbols: numbers(rows, n, ROW, 0),
        counts: bytes(rows, n, ROW, 1),
        args: arguments(rows, n, ROW, 2),
        statements: m,
        kinds: bytes(said, m, SAID, 0),
        lefts: numbers(said, m, SAID, 1),
        rights: numbers(said, m, SAID, 2),
    }
}

pub fn rule_columns<'a>(patterns: &'a [u16], literals: &'a [u16]) -> RuleColumns
    requires { FewRule patterns.now literals.now }
    ensures laid { result ≡ rule_laid patterns.now literals.now }
{
    let n = pattern_count(patterns);
    let m = literal_count(literals);
    RuleColumns {
        patterns: n,
        kinds: bytes(patterns, n, PATTERN, 0),
        heads: numbers(patterns, n, PATTERN, 1),
        counts: bytes(patterns, n, PATTERN, 2),
        args: arguments(patterns, n, PATTERN, 3),
        literals: m,
        signs: bytes(literals, m, LITERAL, 0),
        lefts: numbers(literals, m, LITERAL, 1),
        rights: numbers(literals, m, LITERAL, 2),
    }
}
