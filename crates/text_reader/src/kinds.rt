// The kinds of line: their numbers, lengths and ranks. A new kind has an entry in each look-up here.
ghost use Rattle.std.specs.Prelude.{◌≡◌};
ghost use Rattle.text_lines.specs.Lines.{Legible};
ghost use Rattle.text_reader.specs.Kinds.{Looked, fixed_size, term_size, SizeIs, meant_kind, kind_rank};

use text_lines::lines::field;

#[derive(Clone, Copy, Debug, PartialEq, Eq)]
pub(crate) enum Kind {
    ContextRow,
    Equation,
    Difference,
    VariablePattern,
    SymbolPattern,
    EqualLiteral,
    UnequalLiteral,
}

pub(crate) fn kind_of(n: u16) -> Option<Kind>
    ensures { Looked n result }
{
    match n {
        1 => Some(Kind::ContextRow),
        2 => Some(Kind::Equation),
        3 => Some(Kind::Difference),
        4 => Some(Kind::VariablePattern),
        5 => Some(Kind::SymbolPattern),
        6 => Some(Kind::EqualLiteral),
        7 => Some(Kind::UnequalLiteral),
        _ => None,
    }
}

// So many digits, of which none says how many arguments there are.
#[tactic(auto, using(crate::proofs::Kinded::mine))]
fn fixed(long: usize, digits: usize) -> Option<u16>
    ensures { result ≡ fixed_size long digits }
{
    if long == digits { Some(0) } else { None }
}

// A kind, a symbol, a count, and so many arguments.
#[tactic(auto, using(crate::proofs::Kinded::mine))]
fn counted(text: &[u8], at: usize, end: usize) -> Option<u16>
    requires { Legible text.now at end }
    ensures { result ≡ term_size text.now at end }
{
    let long = end - at;
    if long < 8 {
        return None;
    }
    let count = field(text, at + 6);
    if long == 8 + usize::from(count) * 2 {
        Some(count)
    } else {
        None
    }
}

// How many arguments the line from a place to an end names, where it has its kind's length.
pub(crate) fn size_of(text: &[u8], at: usize, end: usize, kind: Kind) -> Option<u16>
    requires { Legible text.now at end }
    ensures { SizeIs text.now at end (meant_kind kind) result }
{
    match kind {
        Kind::ContextRow | Kind::SymbolPattern => counted(text, at, end),
        Kind::VariablePattern => fixed(end - at, 4),
        Kind::Equation | Kind::Difference | Kind::EqualLiteral | Kind::UnequalLiteral => {
            fixed(end - at, 6)
        }
    }
}

pub(crate) fn rank_of(kind: Kind) -> u8
    ensures { result ≡ kind_rank kind }
{
    match kind {
        Kind::ContextRow => 1,
        Kind::Equation | Kind::Difference => 2,
        Kind::VariablePattern | Kind::SymbolPattern => 3,
        Kind::EqualLiteral | Kind::UnequalLiteral => 4,
    }
}
