//! Whether a zone proves the claim of an assert, pair by pair of terms.
ghost use Rattle.std.specs.Prelude.{◌≡◌, ◌≤◌, ◌^◌, ◌↔◌, suc, All, Any, IsTrue};
ghost use Rattle.prog_theory.specs.Fits.{FitsTerm};
ghost use Rattle.prog_theory.specs.Within.{IsNumberWithin};
ghost use Rattle.prog_tree.specs.Terms.{term_of};
ghost use Rattle.prog_tree.specs.Claims.{claim_of};
ghost use Rattle.dom_core.specs.Claims.{FitsClaim};
ghost use Rattle.prog_tree.specs.Words.{word_of};
ghost use Rattle.zone_theory.specs.Claims.{Below, SideBelow, Compared};
ghost use Rattle.zone_lists.specs.Zones.{matrix_in};
ghost use Rattle.dom_zone.specs.Values.{IsSmallTable};
ghost use Rattle.dom_zone.specs.Claims.{AtEach, is_proven, AreTerms};

use crate::value::ZoneDomain;
use prog_tree::{Claim, Rel, Side, SideWord, Term, Terms};
use zone_tables::{Table, bound_at, is_at_most};

// Whether the left term is at most the right one at each state of the zone.
fn holds(bounds: &Table, vars: usize, left: &Term, right: &Term) -> bool
    requires few { vars ≤ 63 }
    requires sound { IsSmallTable vars bounds.now }
    requires left { FitsTerm vars (term_of left.now) }
    requires right { FitsTerm vars (term_of right.now) }
    requires left_number { IsNumberWithin (2 ^ 31) (term_of left.now) }
    requires right_number { IsNumberWithin (2 ^ 31) (term_of right.now) }
    ensures { IsTrue result ↔ AtEach vars (matrix_in vars bounds.now) (term_of left.now) (term_of right.now) }
{
    let bound = bound_at(
        bounds.as_slice(),
        vars + 1,
        left.coord as usize,
        right.coord as usize,
    );
    is_at_most(bound, i128::from(right.add) - i128::from(left.add))
}

// Whether the left term is at most one of the right ones.
fn below_one(bounds: &Table, vars: usize, left: &Term, rights: &Terms) -> bool
    requires few { vars ≤ 63 }
    requires sound { IsSmallTable vars bounds.now }
    requires left { FitsTerm vars (term_of left.now) }
    requires number { IsNumberWithin (2 ^ 31) (term_of left.now) }
    requires terms { AreTerms vars rights.now }
    ensures { IsTrue result ↔ Any (λ x. AtEach vars (matrix_in vars bounds.now) (term_of left.now) x) rights.now }
{
    for k in 0..rights.len() {
        if holds(bounds, vars, left, rights.get(k)) {
            return true;
        }
    }
    false
}

// Whether the left term is at most each of the right ones.
fn below_each(bounds: &Table, vars: usize, left: &Term, rights: &Terms) -> bool
    requires few { vars ≤ 63 }
    requires sound { IsSmallTable vars bounds.now }
    requires left { FitsTerm vars (term_of left.now) }
    requires number { IsNumberWithin (2 ^ 31) (term_of left.now) }
    requires terms { AreTerms vars rights.now }
    ensures { IsTrue result ↔ All (λ x. AtEach vars (matrix_in vars bounds.now) (term_of left.now) x) rights.now }
{
    for k in 0..rights.len() {
        if !holds(bounds, vars, left, rights.get(k)) {
            return false;
        }
    }
    true
}

// Whether one of the left terms is at most the right one.
fn above_one(bounds: &Table, vars: usize, lefts: &Terms, right: &Term) -> bool
    requires few { vars ≤ 63 }
    requires sound { IsSmallTable vars bounds.now }
    requires right { FitsTerm vars (term_of right.now) }
    requires number { IsNumberWithin (2 ^ 31) (term_of right.now) }
    requires terms { AreTerms vars lefts.now }
    ensures { IsTrue result ↔ Any (λ x. AtEach vars (matrix_in vars bounds.now) x (term_of right.now)) lefts.now }
{
    for k in 0..lefts.len() {
        if holds(bounds, vars, lefts.get(k), right) {
            return true;
        }
    }
    false
}

// Whether each left term is at most one of the right ones.
fn each_below_one(bounds: &Table, vars: usize, lefts: &Terms, rights: &Terms) -> bool
    requires few { vars ≤ 63 }
    requires sound { IsSmallTable vars bounds.now }
    requires lefts { AreTerms vars lefts.now }
    requires rights { AreTerms vars rights.now }
    ensures { IsTrue result ↔ All (λ l. Any (λ r. AtEach vars (matrix_in vars bounds.now) l r) rights.now) lefts.now }
{
    for k in 0..lefts.len() {
        if !below_one(bounds, vars, lefts.get(k), rights) {
            return false;
        }
    }
    true
}

// Whether each left term is at most each of the right ones.
fn each_below_each(bounds: &Table, vars: usize, lefts: &Terms, rights: &Terms) -> bool
    requires few { vars ≤ 63 }
    requires sound { IsSmallTable vars bounds.now }
    requires lefts { AreTerms vars lefts.now }
    requires rights { AreTerms vars rights.now }
    ensures { IsTrue result ↔ All (λ l. All (λ r. AtEach vars (matrix_in vars bounds.now) l r) rights.now) lefts.now }
{
    for k in 0..lefts.len() {
        if !below_each(bounds, vars, lefts.get(k), rights) {
            return false;
        }
    }
    true
}

// Whether one of the left terms is at most one of the right ones.
fn one_below_one(bounds: &Table, vars: usize, lefts: &Terms, rights: &Terms) -> bool
    requires few { vars ≤ 63 }
    requires sound { IsSmallTable vars bounds.now }
    requires lefts { AreTerms vars lefts.now }
    requires rights { AreTerms vars rights.now }
    ensures { IsTrue result ↔ Any (λ l. Any (λ r. AtEach vars (matrix_in vars bounds.now) l r) rights.now) lefts.now }
{
    for k in 0..lefts.len() {
        if below_one(bounds, vars, lefts.get(k), rights) {
            return true;
        }
    }
    false
}

// Whether each right term has a left one that is at most it.
fn each_above_one(bounds: &Table, vars: usize, lefts: &Terms, rights: &Terms) -> bool
    requires few { vars ≤ 63 }
    requires sound { IsSmallTable vars bounds.now }
    requires lefts { AreTerms vars lefts.now }
    requires rights { AreTerms vars rights.now }
    ensures { IsTrue result ↔ All (λ r. Any (λ l. AtEach vars (matrix_in vars bounds.now) l r) lefts.now) rights.now }
{
    for k in 0..rights.len() {
        if !above_one(bounds, vars, lefts, rights.get(k)) {
            return false;
        }
    }
    true
}

// Whether terms with a word are at most others with a word. A side of one term is its greatest and its least.
fn are_below(
    bounds: &Table,
    vars: usize,
    left: SideWord,
    lefts: &Terms,
    right: SideWord,
    rights: &Terms,
) -> bool
    requires few { vars ≤ 63 }
    requires sound { IsSmallTable vars bounds.now }
    requires lefts { AreTerms vars lefts.now }
    requires rights { AreTerms vars rights.now }
    ensures { IsTrue result ↔
        Below (AtEach vars (matrix_in vars bounds.now)) (word_of left) lefts.now (word_of right) rights.now }
{
    match left {
        SideWord::One => match right {
            SideWord::Max => each_below_one(bounds, vars, lefts, rights),
            SideWord::One => each_below_each(bounds, vars, lefts, rights),
            SideWord::Min => each_below_each(bounds, vars, lefts, rights),
        },
        SideWord::Max => match right {
            SideWord::Min => each_below_each(bounds, vars, lefts, rights),
            SideWord::One => each_below_one(bounds, vars, lefts, rights),
            SideWord::Max => each_below_one(bounds, vars, lefts, rights),
        },
        SideWord::Min => match right {
            SideWord::Max => one_below_one(bounds, vars, lefts, rights),
            SideWord::One => each_above_one(bounds, vars, lefts, rights),
            SideWord::Min => each_above_one(bounds, vars, lefts, rights),
        },
    }
}

// Whether the left side is at most the right one.
fn is_side_below(bounds: &Table, vars: usize, left: &Side, right: &Side) -> bool
    requires few { vars ≤ 63 }
    requires sound { IsSmallTable vars bounds.now }
    requires left { AreTerms vars left.now.terms }
    requires right { AreTerms vars right.now.terms }
    ensures { IsTrue result ↔ SideBelow (AtEach vars (matrix_in vars bounds.now)) left.now right.now }
{
    let above = right.word();
    are_below(
        bounds,
        vars,
        left.word(),
        left.terms(),
        above,
        right.terms(),
    )
}

// Whether the claim is proved on the zone.
fn is_shown(bounds: &Table, vars: usize, claim: &Claim) -> bool
    requires few { vars ≤ 63 }
    requires sound { IsSmallTable vars bounds.now }
    requires left { AreTerms vars (claim_of claim.now).left.terms }
    requires right { AreTerms vars (claim_of claim.now).right.terms }
    ensures { IsTrue result ↔ Compared (AtEach vars (matrix_in vars bounds.now)) (claim_of claim.now).rel
        (claim_of claim.now).left (claim_of claim.now).right }
{
    match claim.rel {
        Rel::Le => is_side_below(bounds, vars, &claim.left, &claim.right),
        Rel::Ge => is_side_below(bounds, vars, &claim.right, &claim.left),
        Rel::Same => {
            is_side_below(bounds, vars, &claim.left, &claim.right)
                && is_side_below(bounds, vars, &claim.right, &claim.left)
        }
    }
}

impl ZoneDomain {
    // Whether it proves the claim. The empty zone proves each.
    pub(crate) fn shows(&self, claim: &Claim) -> bool
        requires { FitsClaim self.now.vars (claim_of claim.now) }
        ensures { IsTrue result ↔ is_proven (claim_of claim.now) self.now }
    {
        match &self.bounds {
            None => true,
            Some(bounds) => is_shown(bounds, self.vars as usize, claim),
        }
    }
}
