// The variables that no literal reaches, and literals that never hold.
ghost use Rattle.std.specs.Prelude.{◌||◌, ◌≡◌, ◌≤◌, ◌<◌, eqb, get_or};
ghost use Rattle.meaning.specs.Columns.{literal_of};
ghost use Rattle.columns.specs.Fit.{NamedAt};
ghost use Rattle.columns.specs.Lent.{literals_in, rule_in};
ghost use Rattle.plan.specs.Planning.{RuleFits};
ghost use Rattle.plan.specs.Reach.{idle as idle_of, free_by, self_unequal, never as never_of};
ghost use Rattle.plan.specs.Plans.{mark_of, Frees};
ghost use Rattle.plan.specs.Marks.{reaches as reaches_of, none_reaches, NamedIn};

use crate::mark::{digit, marks};
use columns::{Literals, Rule};

// Whether a literal is p = p.
// No enum: the column holds numbers, of which 6 is an equal literal.
fn idle(sign: u8, p: u16, q: u16) -> bool
    ensures { result ≡ idle_of (literal_of sign p q) }
{
    sign == 6 && p == q
}

fn either(x: u8, y: u8) -> bool
    ensures { result ≡ (eqb x 1 || eqb y 1) }
{
    x == 1 || y == 1
}

// Whether a side of literal l is marked, where the literal is asked.
fn reaches(literals: &Literals, marks: &[u8; 64], l: usize) -> bool
    requires { (l < 16) × NamedAt literals.now.lefts.now literals.now.rights.now 64 l }
    ensures { result ≡ reaches_of marks.now (literal_of (get_or literals.now.signs.now l 0) (get_or literals.now.lefts.now l 0) (get_or literals.now.rights.now l 0)) }
{
    let p = literals.lefts[l];
    let q = literals.rights[l];
    if idle(literals.signs[l], p, q) {
        return false;
    }
    either(marks[usize::from(p)], marks[usize::from(q)])
}

// Whether no literal that is asked has a marked side.
fn none_reaches(literals: &Literals, marks: &[u8; 64]) -> bool
    requires { NamedIn literals.now }
    ensures { result ≡ none_reaches marks.now (literals_in literals.now) }
{
    for l in 0..literals.count {
        if reaches(literals, marks, l) {
            return false;
        }
    }
    true
}

// 1 where no literal that is asked reaches variable v, and 0.
fn free_at(rule: &Rule, v: u16) -> u8
    requires rule_fit { RuleFits rule.now.patterns }
    requires named { NamedIn rule.now.literals }
    ensures { result ≡ mark_of (free_by (rule_in rule.now) v) }
{
    let marks = marks(&rule.patterns, v);
    digit(none_reaches(&rule.literals, &marks))
}

pub(crate) fn free(rule: &Rule) -> [u8; 4]
    requires rule_fit { RuleFits rule.now.patterns }
    requires named { NamedIn rule.now.literals }
    ensures { Frees (rule_in rule.now) result }
{
    let mut free = [0; 4];
    for v in 0..4 {
        free[usize::from(v)] = free_at(rule, v);
    }
    free
}

// Whether a literal is p unequal p.
// No enum: the column holds numbers, of which 6 is an equal literal.
fn self_unequal(sign: u8, p: u16, q: u16) -> bool
    ensures { result ≡ self_unequal (literal_of sign p q) }
{
    sign != 6 && p == q
}

pub(crate) fn never(literals: &Literals) -> bool
    requires { literals.now.count ≤ 16 }
    ensures { result ≡ never_of (literals_in literals.now) }
{
    for l in 0..literals.count {
        if self_unequal(literals.signs[l], literals.lefts[l], literals.rights[l]) {
            return true;
        }
    }
    false
}
