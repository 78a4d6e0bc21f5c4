// Whether a claim is one on the variables of a zone, and whether the zone proves it.
ghost use Rattle.std.specs.Prelude.{◌≡◌, ◌≤◌, ◌^◌, All};
ghost use Rattle.std.specs.Bool.{OnTrue};
ghost use Rattle.prog_theory.specs.Within.{IsNumberWithin};
ghost use Rattle.prog_tree.specs.Terms.{term_of};

use dom_core::Domain;
use dom_zone::ZoneDomain;
use prog_tree::{Claim, Side, Term};

// Whether the term stands at a coordinate up to `vars`, with a number as a program may have it.
fn stands(term: Term, vars: u32) -> bool
    ensures { OnTrue result ((term.coord ≤ vars) × IsNumberWithin (2 ^ 31) (term_of term)) }
{
    term.coord <= vars && term.add.unsigned_abs() <= 2_147_483_648
}

// Whether each of the terms does.
fn stand(terms: &[Term], vars: u32) -> bool
    ensures { OnTrue result (All (λ t. (t.coord ≤ vars) × IsNumberWithin (2 ^ 31) (term_of t)) terms.now) }
{
    for term in terms {
        if !stands(*term, vars) {
            return false;
        }
    }
    true
}

// Whether each term of the side does.
fn fits(side: &Side, vars: u32) -> bool
    ensures coordinates { OnTrue result (All (λ t. t.coord ≤ vars) side.now.terms) }
    ensures numbers { OnTrue result (All (IsNumberWithin (2 ^ 31)) side.now.terms) }
{
    stand(side.terms().as_slice(), vars)
}

// Whether the zone proves the claim; none where the claim is of more variables.
pub(super) fn verdict(value: &ZoneDomain, claim: &Claim) -> Option<bool> {
    let vars = value.vars();
    if !fits(&claim.left, vars) {
        return None;
    }
    if !fits(&claim.right, vars) {
        return None;
    }
    Some(value.proves(claim))
}
