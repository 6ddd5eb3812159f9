// Whether literals hold, by the values of their pattern rows.
ghost use Rattle.std.specs.Prelude.{◌≡◌, not, ◌<◌, get_or};
ghost use Rattle.meaning.specs.Columns.{literal_of};
ghost use Rattle.meaning.specs.Pruning.{fails, due};
ghost use Rattle.meaning.specs.Following.{differ_by};
ghost use Rattle.columns.specs.Fit.{NamedAt};
ghost use Rattle.columns.specs.Lent.{context_in, literals_in};
ghost use Rattle.differing.specs.Knowing.{ClosedIn, Knows};
ghost use Rattle.search.specs.Testing.{TestedIn, passes_of};

use columns::Literals;
use differing::Classed;

// Whether literal l holds, where it is one of those whose last variable has just been set.
// No struct: what is known is written, and the rest is read.
fn passes(
    classed: &Classed,
    known: &mut [u8; 65025],
    levels: &[u8; 64],
    literals: &Literals,
    l: usize,
    level: u8,
    values: &[u32; 64],
) -> bool
    requires closed_by { ClosedIn classed.now }
    requires knows { Knows (context_in classed.now.context) known.old }
    requires l_bound { (l < 16) × NamedAt literals.now.lefts.now literals.now.rights.now 64 l }
    ensures value { result ≡ passes_of (differ_by (context_in classed.now.context)) (due level levels.now) values.now (literal_of (get_or literals.now.signs.now l 0) (get_or literals.now.lefts.now l 0) (get_or literals.now.rights.now l 0)) }
    ensures knows_2 { Knows (context_in classed.now.context) known.new }
{
    let Literals { lefts, rights, .. } = *literals;
    let p = usize::from(lefts[l]);
    let q = usize::from(rights[l]);
    if levels[p].max(levels[q]) != level {
        return true;
    }
    let n = values[p];
    let m = values[q];
    if literals.is_equal(l) {
        return n == m;
    }
    differing::ask(classed, known, n, m)
}

// Whether every literal holds whose last variable has just been set.
pub(crate) fn all_pass(
    classed: &Classed,
    known: &mut [u8; 65025],
    levels: &[u8; 64],
    literals: &Literals,
    level: u8,
    values: &[u32; 64],
) -> bool
    requires closed_by { ClosedIn classed.now }
    requires knows { Knows (context_in classed.now.context) known.old }
    requires tested { TestedIn literals.now }
    ensures value { result ≡ not (fails (differ_by (context_in classed.now.context)) (due level levels.now) values.now (literals_in literals.now)) }
    ensures knows_2 { Knows (context_in classed.now.context) known.new }
{
    for l in 0..literals.count {
        if !passes(classed, known, levels, literals, l, level, values) {
            return false;
        }
    }
    true
}
