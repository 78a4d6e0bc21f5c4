//! Whether an inequality is valid on a cone.
ghost use Rattle.std.specs.Prelude.{◌+◌, ◌≤◌, ◌↔◌, All, IsTrue};
ghost use Rattle.trop_theory.specs.Vectors.{rows_size, AreWide};
ghost use Rattle.trop_theory.specs.Inequalities.{IsIn, IsTrueAt, IsValidOn, inequality_size};
ghost use Rattle.trop_theory.specs.Combinations.{IsCombination};
ghost use Rattle.trop_theory.specs.Sizes.{most_entry};

use trop_row::{Gens, Ineq, Row};
use trop_scalar::Scalar;

// Whether the inequality is true at each row.
fn holds_at_each<S: Scalar>(ineq: &Ineq<S>, rows: &[Row<S>], n: u32) -> bool
    requires inside { IsIn n ineq.now }
    requires wide { AreWide n rows.now }
    requires sizes { rows_size S.ring rows.now + inequality_size S.ring ineq.now ≤ most_entry }
    ensures { IsTrue result ↔ All (IsTrueAt S.ring ineq.now) rows.now }
{
    for row in rows {
        if !ineq.holds(row) {
            return false;
        }
    }
    true
}

/// Whether the inequality is valid on the combinations of the rows.
pub fn is_valid<S: Scalar>(ineq: &Ineq<S>, rows: &Gens<S>) -> bool
    requires inside { IsIn rows.now.n ineq.now }
    requires sizes { rows_size S.ring rows.now.rows + inequality_size S.ring ineq.now ≤ most_entry }
    ensures { IsTrue result ↔ IsValidOn S.ring (IsCombination S.ring rows.now.n rows.now.rows) ineq.now }
{
    holds_at_each(ineq, rows.as_slice(), rows.n())
}
