//! The first row of a list at which an inequality is false.
ghost use Rattle.std.specs.Prelude.{◌≡◌, ◌+◌, ◌^◌, ◌≤◌, All, IfNone, IfSome, length};
ghost use Rattle.trop_theory.specs.Vectors.{rows_size, AreWide};
ghost use Rattle.trop_theory.specs.Inequalities.{IsTrueAt, inequality_size};
ghost use Rattle.trop_lean.specs.Turns.{IsFirstFalse};

use trop_row::{Ineq, Row};
use trop_scalar::Scalar;

/// The place of the first row at which the inequality is false; none where it is true at each.
pub fn first_false<S: Scalar>(ineq: &Ineq<S>, rows: &[Row<S>]) -> Option<u32>
    requires wide { AreWide (length ineq.now.left) rows.now }
    requires sizes { rows_size S.ring rows.now + inequality_size S.ring ineq.now ≤ 2 ^ 62 }
    requires few { length rows.now ≤ 2 ^ 31 }
    ensures none { IfNone result (All (IsTrueAt S.ring ineq.now) rows.now) }
    ensures some { IfSome result (IsFirstFalse S.ring ineq.now rows.now) }
{
    for k in 0..rows.len() {
        if !ineq.holds(&rows[k]) {
            return Some(k as u32);
        }
    }
    None
}
