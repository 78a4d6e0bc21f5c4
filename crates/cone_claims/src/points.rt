// Whether rows have a combination with a finite coordinate 0, also behind a guard.
ghost use Rattle.std.specs.Prelude.{◌≡◌, ◌≢◌, ◌+◌, ◌≤◌, ◌↔◌, Any, IsTrue, length};
ghost use Rattle.trop_theory.specs.Vectors.{entry, row_size, rows_size, AreWide};
ghost use Rattle.trop_theory.specs.Inequalities.{IsIn, InGuard, inequality_size};
ghost use Rattle.trop_theory.specs.Combinations.{IsCombination};
ghost use Rattle.trop_theory.specs.Sizes.{most_entry};
ghost use Rattle.cone_reports.specs.Images.{HasPoint};
ghost use Rattle.cone_claims.specs.Points.{IsKeptPoint, IsDroppedPoint, HasRight, Shows};

use trop_row::{Gens, Ineq, Row};
use trop_scalar::{Numeric, Scalar};

// Whether it is other than the zero.
fn is_finite<S: Scalar>(x: S) -> bool
    ensures { IsTrue result ↔ (x ≢ S.ring.zero) }
{
    x != S::zero()
}

// Whether some row has a finite coordinate 0.
fn some_finite<S: Scalar>(rows: &[Row<S>], n: u32) -> bool
    requires at_least { 1 ≤ n }
    requires wide { AreWide n rows.now }
    ensures { IsTrue result ↔ Any (λ g. entry S.ring g 0 ≢ S.ring.zero) rows.now }
{
    for row in rows {
        if is_finite(row.get(0)) {
            return true;
        }
    }
    false
}

/// Whether some combination of the rows has a finite coordinate 0.
pub fn has_point<S: Numeric>(rows: &Gens<S>) -> bool
    ensures { IsTrue result ↔ HasPoint S.ring (IsCombination S.ring rows.now.n rows.now.rows) }
{
    some_finite(rows.as_slice(), rows.n())
}

// Whether the inequality is true at the row, whose coordinate 0 is finite.
fn is_kept_point<S: Scalar>(row: &Row<S>, ineq: &Ineq<S>, n: u32) -> bool
    requires at_least { 1 ≤ n }
    requires inside { IsIn n ineq.now }
    requires wide { length row.now ≡ n }
    requires sizes { row_size S.ring row.now + inequality_size S.ring ineq.now ≤ most_entry }
    ensures { IsTrue result ↔ IsKeptPoint S.ring ineq.now row.now }
{
    ineq.holds(row) && is_finite(row.get(0))
}

// Whether it is false there.
fn is_dropped_point<S: Scalar>(row: &Row<S>, ineq: &Ineq<S>, n: u32) -> bool
    requires at_least { 1 ≤ n }
    requires inside { IsIn n ineq.now }
    requires wide { length row.now ≡ n }
    requires sizes { row_size S.ring row.now + inequality_size S.ring ineq.now ≤ most_entry }
    ensures { IsTrue result ↔ IsDroppedPoint S.ring ineq.now row.now }
{
    !ineq.holds(row) && is_finite(row.get(0))
}

// Whether it is true at the row, and its right side has a finite sum there.
fn has_right<S: Scalar>(row: &Row<S>, ineq: &Ineq<S>, n: u32) -> bool
    requires inside { IsIn n ineq.now }
    requires wide { length row.now ≡ n }
    requires sizes { row_size S.ring row.now + inequality_size S.ring ineq.now ≤ most_entry }
    ensures { IsTrue result ↔ HasRight S.ring ineq.now row.now }
{
    ineq.holds(row) && is_finite(row.dot(ineq.right()))
}

/// What a row may show of an inequality.
#[derive(Clone, Copy)]
pub(crate) enum Shown {
    /// It is true at the row, whose coordinate 0 is finite.
    Kept,
    /// It is false at the row, whose coordinate 0 is finite.
    Dropped,
    /// It is true at the row, and its right side has a finite sum there.
    Right,
}

// Whether the row shows it.
fn shows<S: Scalar>(row: &Row<S>, ineq: &Ineq<S>, n: u32, what: Shown) -> bool
    requires at_least { 1 ≤ n }
    requires inside { IsIn n ineq.now }
    requires wide { length row.now ≡ n }
    requires sizes { row_size S.ring row.now + inequality_size S.ring ineq.now ≤ most_entry }
    ensures { IsTrue result ↔ Shows S.ring ineq.now what row.now }
{
    match what {
        Shown::Kept => is_kept_point(row, ineq, n),
        Shown::Dropped => is_dropped_point(row, ineq, n),
        Shown::Right => has_right(row, ineq, n),
    }
}

// Whether some row shows it.
fn some_shows<S: Scalar>(rows: &[Row<S>], ineq: &Ineq<S>, n: u32, what: Shown) -> bool
    requires at_least { 1 ≤ n }
    requires inside { IsIn n ineq.now }
    requires wide { AreWide n rows.now }
    requires sizes { rows_size S.ring rows.now + inequality_size S.ring ineq.now ≤ most_entry }
    ensures { IsTrue result ↔ Any (Shows S.ring ineq.now what) rows.now }
{
    for row in rows {
        if shows(row, ineq, n, what) {
            return true;
        }
    }
    false
}

/// Whether some combination of the rows at which the inequality is true has a finite coordinate 0: a row at which it is
/// true has one, or a row at which it is false, while the right side has a finite sum at some row at which it is true.
pub fn guard_has_point<S: Numeric>(rows: &Gens<S>, ineq: &Ineq<S>) -> bool
    requires inside { IsIn rows.now.n ineq.now }
    requires sizes { rows_size S.ring rows.now.rows + inequality_size S.ring ineq.now ≤ most_entry }
    ensures { IsTrue result ↔ HasPoint S.ring
        (InGuard S.ring (IsCombination S.ring rows.now.n rows.now.rows) ineq.now) }
{
    let n = rows.n();
    let list = rows.as_slice();
    some_shows(list, ineq, n, Shown::Kept)
        || (some_shows(list, ineq, n, Shown::Dropped) && some_shows(list, ineq, n, Shown::Right))
}
