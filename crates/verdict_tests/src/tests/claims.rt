// Whether a polyhedron judges a claim, and its verdict.
ghost use Rattle.std.specs.Prelude.{◌≡◌, ◌<◌, ◌^◌, All};
ghost use Rattle.std.specs.Bool.{OnTrue};
ghost use Rattle.prog_theory.specs.Within.{IsNumberWithin};
ghost use Rattle.prog_tree.specs.Terms.{term_of};
ghost use Rattle.prog_tree.specs.Words.{word_of};
ghost use Rattle.cone_reports.specs.Readings.{SuitsWord};

use dom_core::Domain;
use dom_poly::PolyDomain;
use prog_tree::{Claim, Side, SideWord, Term};
use trop_scalar::Numeric;

// Whether a side may have this word in the order of numbers, or in the reverse one.
fn suits(reversed: bool, word: SideWord) -> bool
    ensures { OnTrue result (SuitsWord reversed (word_of word)) }
{
    match word {
        SideWord::One => true,
        SideWord::Max => !reversed,
        SideWord::Min => reversed,
    }
}

// Whether the term stands at a coordinate below `n`, with a number as a program may have it.
fn stands(term: Term, n: u32) -> bool
    ensures { OnTrue result ((term.coord < n) × IsNumberWithin (2 ^ 31) (term_of term)) }
{
    term.coord < n && term.add.unsigned_abs() <= 2_147_483_648
}

// Whether each of the terms does.
fn stand(terms: &[Term], n: u32) -> bool
    ensures { OnTrue result (All (λ t. (t.coord < n) × IsNumberWithin (2 ^ 31) (term_of t)) terms.now) }
{
    for term in terms {
        if !stands(*term, n) {
            return false;
        }
    }
    true
}

// Whether a polyhedron of `n - 1` variables judges the side.
fn judges(side: &Side, n: u32, reversed: bool) -> bool
    ensures word { OnTrue result (SuitsWord reversed side.now.word) }
    ensures coordinates { OnTrue result (All (λ t. t.coord < n) side.now.terms) }
    ensures numbers { OnTrue result (All (IsNumberWithin (2 ^ 31)) side.now.terms) }
{
    if !suits(reversed, side.word()) {
        return false;
    }
    stand(side.terms().as_slice(), n)
}

// Whether the value proves the claim; none where the claim is of another mode, or of more variables.
pub(super) fn verdict<S: Numeric>(value: &PolyDomain<S>, claim: &Claim) -> Option<bool> {
    let n = value.poly().rows().n();
    if !judges(&claim.left, n, S::REVERSED) {
        return None;
    }
    if !judges(&claim.right, n, S::REVERSED) {
        return None;
    }
    Some(value.proves(claim))
}
