// Whether columns say a well-formed context and a well-formed clause.
// Beside runs::fit, over runs: the search walks columns.
#![tactic(auto)]

ghost use Rattle.std.specs.Prelude.{true, ◌≡◌, ◌+◌, ◌*◌, ◌≤◌, ◌<◌, length, eqb, get_or};
ghost use Rattle.columns.specs.Fit.{Decides, Every, PlacedAt, NamedAt, PatternAt};
ghost use Rattle.columns.specs.Lent.{LaidIn, WrittenIn, Fits, FitsRule};

// The rows of a context: row i is a symbol over its first counts[i] places of args, of which each row has four.
// Parallel arrays: the search over them promises what it does for any columns that are lent.
// No enum: columns hold numbers, of which 2 is an equation, 4 a variable and 6 equal; any other number is the other kind.
#[derive(Clone, Copy)]
pub struct Terms<'a> {
    pub symbols: &'a [u16; 255],
    pub counts: &'a [u8; 255],
    pub args: &'a [u16; 1020],
    pub rows: usize,
}

// The statements of a context: an equation or a difference of two rows.
#[derive(Clone, Copy)]
pub struct Statements<'a> {
    pub kinds: &'a [u8; 510],
    pub lefts: &'a [u16; 510],
    pub rights: &'a [u16; 510],
    pub count: usize,
}

impl<'a> Statements<'a> {
    // Whether statement k is an equation; past the last place none is.
    pub fn is_equation(&self, k: usize) -> bool
        ensures kind { result ≡ eqb (get_or self.now.kinds.now k 0) 2 }
        ensures inside { result ≡ true → k < 510 }
    {
        kind_at(self.kinds, k) == 2
    }
}

// What a column holds for statement k, and 0 past its end.
fn kind_at(kinds: &[u8; 510], k: usize) -> u8
    ensures kind { result ≡ get_or kinds.now k 0 }
    ensures past { 510 ≤ k → result ≡ 0 }
{
    if k < kinds.len() { kinds[k] } else { 0 }
}

#[derive(Clone, Copy)]
pub struct Context<'a> {
    pub terms: Terms<'a>,
    pub statements: Statements<'a>,
}

// The pattern rows of a rule: a variable, whose number is its head, or a symbol over earlier pattern rows.
#[derive(Clone, Copy)]
pub struct Patterns<'a> {
    pub kinds: &'a [u8; 64],
    pub heads: &'a [u16; 64],
    pub counts: &'a [u8; 64],
    pub args: &'a [u16; 256],
    pub rows: usize,
}

impl<'a> Patterns<'a> {
    // Whether pattern row i is a variable.
    pub fn is_variable(&self, i: usize) -> bool
        requires { i < 64 }
        ensures { result ≡ eqb (get_or self.now.kinds.now i 0) 4 }
    {
        self.kinds[i] == 4
    }
}

// The literals of a rule: an equation or a difference of two pattern rows.
#[derive(Clone, Copy)]
pub struct Literals<'a> {
    pub signs: &'a [u8; 16],
    pub lefts: &'a [u16; 16],
    pub rights: &'a [u16; 16],
    pub count: usize,
}

impl<'a> Literals<'a> {
    // Whether literal l says that its sides are equal.
    pub fn is_equal(&self, l: usize) -> bool
        requires { l < 16 }
        ensures { result ≡ eqb (get_or self.now.signs.now l 0) 6 }
    {
        self.signs[l] == 6
    }
}

#[derive(Clone, Copy)]
pub struct Rule<'a> {
    pub patterns: Patterns<'a>,
    pub literals: Literals<'a>,
}

// Whether row i has at most four arguments, each an earlier row.
fn placed(counts: &[u8], args: &[u16], i: usize) -> bool
    requires i_in_bounds { i < length counts.now }
    requires i_in_bounds_2 { i * 4 + 4 ≤ length args.now }
    ensures { Decides result (PlacedAt counts.now args.now i) }
{
    let n = usize::from(counts[i]);
    if 4 < n {
        return false;
    }
    for k in 0..n {
        if i <= usize::from(args[i * 4 + k]) {
            return false;
        }
    }
    true
}

fn rows_placed(counts: &[u8], args: &[u16], rows: usize) -> bool
    requires rows_in_bounds { rows ≤ length counts.now }
    requires rows_in_bounds_2 { rows * 4 ≤ length args.now }
    ensures { Decides result (Every rows (PlacedAt counts.now args.now)) }
{
    for i in 0..rows {
        if !placed(counts, args, i) {
            return false;
        }
    }
    true
}

// Whether the first n pairs name rows below a limit.
fn named(lefts: &[u16], rights: &[u16], n: usize, limit: usize) -> bool
    requires n_in_bounds { n ≤ length lefts.now }
    requires n_in_bounds_2 { n ≤ length rights.now }
    ensures { Decides result (Every n (NamedAt lefts.now rights.now limit)) }
{
    for j in 0..n {
        if limit <= usize::from(lefts[j]) || limit <= usize::from(rights[j]) {
            return false;
        }
    }
    true
}

// Whether pattern row i is a variable, 0 to 3, or a symbol with at most four arguments, each an earlier pattern row.
// No struct: what is asked of the places is known of slices.
fn pattern_placed(
    kinds: &[u8; 64],
    heads: &[u16; 64],
    counts: &[u8],
    args: &[u16],
    i: usize,
) -> bool
    requires i_bound { i < 64 }
    requires i_in_bounds { i < length counts.now }
    requires i_in_bounds_2 { i * 4 + 4 ≤ length args.now }
    ensures { Decides result (PatternAt kinds.now heads.now counts.now args.now i) }
{
    if kinds[i] == 4 {
        heads[i] < 4
    } else {
        placed(counts, args, i)
    }
}

fn patterns_placed(
    kinds: &[u8; 64],
    heads: &[u16; 64],
    counts: &[u8],
    args: &[u16],
    patterns: usize,
) -> bool
    requires patterns_bound { patterns ≤ 64 }
    requires patterns_in_bounds { patterns ≤ length counts.now }
    requires patterns_in_bounds_2 { patterns * 4 ≤ length args.now }
    ensures { Decides result (Every patterns (PatternAt kinds.now heads.now counts.now args.now)) }
{
    for i in 0..patterns {
        if !pattern_placed(kinds, heads, counts, args, i) {
            return false;
        }
    }
    true
}

pub fn fit_context(context: &Context) -> bool
    ensures fit { Decides result (Fits context.now) }
    ensures laid { result ≡ true → LaidIn context.now.terms }
{
    let Terms {
        counts,
        args,
        rows,
        ..
    } = context.terms;
    let Statements {
        lefts,
        rights,
        count,
        ..
    } = context.statements;
    if 255 < rows {
        return false;
    }
    if 510 < count {
        return false;
    }
    if !rows_placed(counts, args, rows) {
        return false;
    }
    named(lefts, rights, count, rows)
}

pub fn fit_clause(rule: &Rule) -> bool
    ensures fit { Decides result (FitsRule rule.now) }
    ensures laid { result ≡ true → WrittenIn rule.now.patterns }
{
    let Patterns {
        kinds,
        heads,
        counts,
        args,
        rows,
    } = rule.patterns;
    let Literals {
        lefts,
        rights,
        count,
        ..
    } = rule.literals;
    if 64 < rows {
        return false;
    }
    if 16 < count {
        return false;
    }
    if !patterns_placed(kinds, heads, counts, args, rows) {
        return false;
    }
    named(lefts, rights, count, rows)
}
