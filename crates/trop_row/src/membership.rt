//! Whether a row is a combination of others.
ghost use Rattle.std.specs.Prelude.{◌≡◌, ◌≢◌, ◌<◌, ◌≤◌, ◌↔◌, List, IsTrue, MatchOption, IfSome, IsNone, length, Any, slice_index_or};
ghost use Rattle.trop_theory.specs.Sizes.{most_entry};
ghost use Rattle.trop_theory.specs.Vectors.{entry, row_size, rows_size, AreWide};
ghost use Rattle.trop_theory.specs.Combinations.{IsCombination};
ghost use Rattle.trop_theory.specs.Residual.{Meets, IsFirstUnmet};

use crate::entries::{is_zero, meets_at};
use crate::gens::Gens;
use crate::row::Row;
use trop_scalar::Scalar;

// The place of a row of which a multiple lies below the target and meets its entry t.
pub(crate) fn row_that_meets<S: Scalar>(rows: &[Row<S>], target: &[S], t: usize) -> Option<usize>
    requires wide { AreWide (length target.now) rows.now }
    requires within { t < length target.now }
    requires finite { entry S.ring target.now t ≢ S.ring.zero }
    requires row_sizes { rows_size S.ring rows.now ≤ most_entry }
    requires target_size { row_size S.ring target.now ≤ most_entry }
    ensures within { IfSome result (λ i. i < length rows.now) }
    ensures meets { MatchOption result (Any (Meets S.ring target.now t) rows.now → ⊥)
        (λ i. (d : List S) → Meets S.ring target.now t (slice_index_or rows.now i d)) }
{
    for i in 0..rows.len() {
        if meets_at(rows[i].as_slice(), target, t) {
            return Some(i);
        }
    }
    None
}

// Whether there is such a row.
fn some_meets_of<S: Scalar>(rows: &[Row<S>], target: &[S], t: usize) -> bool
    requires wide { AreWide (length target.now) rows.now }
    requires within { t < length target.now }
    requires finite { entry S.ring target.now t ≢ S.ring.zero }
    requires row_sizes { rows_size S.ring rows.now ≤ most_entry }
    requires target_size { row_size S.ring target.now ≤ most_entry }
    ensures { IsTrue result ↔ Any (Meets S.ring target.now t) rows.now }
{
    row_that_meets(rows, target, t).is_some()
}

/// Whether a multiple of the row lies below the target and meets its entry at `t`, which is finite.
pub fn meets<S: Scalar>(row: &Row<S>, target: &Row<S>, t: u32) -> bool
    requires lengths { length row.now ≡ length target.now }
    requires within { t < length target.now }
    requires finite { entry S.ring target.now t ≢ S.ring.zero }
    requires row_size { row_size S.ring row.now ≤ most_entry }
    requires target_size { row_size S.ring target.now ≤ most_entry }
    ensures { IsTrue result ↔ Meets S.ring target.now t row.now }
{
    meets_at(row.as_slice(), target.as_slice(), t as usize)
}

/// Whether a multiple of some row of the list lies below the target and meets its entry at `t`, which is finite.
pub fn some_meets<S: Scalar>(gens: &Gens<S>, target: &Row<S>, t: u32) -> bool
    requires wide { length target.now ≡ gens.now.n }
    requires within { t < length target.now }
    requires finite { entry S.ring target.now t ≢ S.ring.zero }
    requires row_sizes { rows_size S.ring gens.now.rows ≤ most_entry }
    requires target_size { row_size S.ring target.now ≤ most_entry }
    ensures { IsTrue result ↔ Any (Meets S.ring target.now t) gens.now.rows }
{
    some_meets_of(gens.as_slice(), target.as_slice(), t as usize)
}

// The first coordinate of the target, other than the zero there, that no row meets; none where it is a combination.
fn first_unmet_of<S: Scalar>(rows: &[Row<S>], target: &[S]) -> Option<usize>
    requires wide { AreWide (length target.now) rows.now }
    requires row_sizes { rows_size S.ring rows.now ≤ most_entry }
    requires target_size { row_size S.ring target.now ≤ most_entry }
    ensures within { IfSome result (λ t. t < length target.now) }
    ensures first { MatchOption result (IsCombination S.ring (length target.now) rows.now target.now)
        (IsFirstUnmet S.ring rows.now target.now) }
{
    for t in 0..target.len() {
        if !is_zero(target[t]) && !some_meets_of(rows, target, t) {
            return Some(t);
        }
    }
    None
}

/// The first coordinate at which the row is finite and that no row of the list meets, scaled by the greatest element
/// that keeps it below; none exactly where the row is a combination of the rows of the list, a sum of multiples of them
/// (residuation: Butkovic, Schneider, Sergeev, Generators, extremals and bases of max cones, 2007).
pub fn first_unmet<S: Scalar>(gens: &Gens<S>, row: &Row<S>) -> Option<u32>
    requires wide { length row.now ≡ gens.now.n }
    requires row_sizes { rows_size S.ring gens.now.rows ≤ most_entry }
    requires target_size { row_size S.ring row.now ≤ most_entry }
    ensures within { IfSome result (λ t. t < gens.now.n) }
    ensures none { IsNone result ↔ IsCombination S.ring gens.now.n gens.now.rows row.now }
    ensures first { MatchOption result (IsCombination S.ring gens.now.n gens.now.rows row.now)
        (IsFirstUnmet S.ring gens.now.rows row.now) }
{
    match first_unmet_of(gens.as_slice(), row.as_slice()) {
        None => None,
        Some(t) => Some(t as u32),
    }
}

/// Whether the row is a combination of the rows of the list: a sum of multiples of them.
pub fn member<S: Scalar>(gens: &Gens<S>, row: &Row<S>) -> bool
    requires wide { length row.now ≡ gens.now.n }
    requires row_sizes { rows_size S.ring gens.now.rows ≤ most_entry }
    requires target_size { row_size S.ring row.now ≤ most_entry }
    ensures { IsTrue result ↔ IsCombination S.ring gens.now.n gens.now.rows row.now }
{
    first_unmet(gens, row).is_none()
}
