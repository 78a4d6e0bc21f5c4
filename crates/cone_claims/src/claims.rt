// Whether rows prove a claim.
ghost use Rattle.std.specs.Prelude.{◌≡◌, ◌↔◌, ◌≤◌, IsTrue, All, length};
ghost use Rattle.trop_theory.specs.Vectors.{row_size, rows_size, AreWide};
ghost use Rattle.trop_theory.specs.Inequalities.{IsTrueAt};
ghost use Rattle.trop_theory.specs.Combinations.{IsCombination};
ghost use Rattle.trop_theory.specs.Sizes.{most_entry};
ghost use Rattle.prog_tree.specs.Claims.{claim_of};
ghost use Rattle.cone_reports.specs.Readings.{claim_inequalities, IsProvenOn};
ghost use Rattle.cone_claims.specs.Terms.{IsOn, IsClaimOn};

use crate::sums::{at_most, both_ways, side_at};
use prog_tree::{Claim, Rel};
use trop_row::{Gens, Row};
use trop_scalar::Numeric;

// Whether each inequality of the claim is true at the row.
fn is_true_at<S: Numeric>(claim: &Claim, row: &Row<S>) -> bool
    requires fits { IsClaimOn (length row.now) (claim_of claim.now) }
    requires size { row_size S.ring row.now ≤ most_entry }
    requires long { 1 ≤ length row.now }
    ensures { IsTrue result ↔ All (λ p. IsTrueAt S.ring p row.now)
        (claim_inequalities S.ring S.numbering S.REVERSED (length row.now) (claim_of claim.now)) }
{
    let left = side_at(&claim.left, row);
    let right = side_at(&claim.right, row);
    match claim.rel {
        Rel::Le => at_most(left, right),
        Rel::Ge => at_most(right, left),
        Rel::Same => both_ways(left, right),
    }
}

// Whether it is so at each of the rows.
fn is_true_at_each<S: Numeric>(claim: &Claim, rows: &[Row<S>], n: u32) -> bool
    requires at_least { 1 ≤ n }
    requires fits { IsClaimOn n (claim_of claim.now) }
    requires wide { AreWide n rows.now }
    requires size { rows_size S.ring rows.now ≤ most_entry }
    ensures { IsTrue result ↔ All (λ g. All (λ p. IsTrueAt S.ring p g)
        (claim_inequalities S.ring S.numbering S.REVERSED n (claim_of claim.now))) rows.now }
{
    for row in rows {
        if !is_true_at(claim, row) {
            return false;
        }
    }
    true
}

/// Whether the claim is proven on the combinations of the rows: each of its one or two inequalities, as the semiring
/// reads them, is true at every combination.
pub fn proven_by<S: Numeric>(rows: &Gens<S>, claim: &Claim) -> bool
    requires fits { IsClaimOn rows.now.n (claim_of claim.now) }
    requires size { rows_size S.ring rows.now.rows ≤ most_entry }
    ensures { IsTrue result ↔ IsProvenOn S.ring S.numbering S.REVERSED rows.now.n
        (IsCombination S.ring rows.now.n rows.now.rows) (claim_of claim.now) }
{
    is_true_at_each(claim, rows.as_slice(), rows.n())
}
