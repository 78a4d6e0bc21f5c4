//! The check that rows show each inequality of a list to be needed.
ghost use Rattle.std.specs.Prelude.{◌≡◌, ◌+◌, ◌^◌, ◌<◌, ◌≤◌, ◌↔◌, ℕ, All, IsTrue, length, remove, slice_index_or};
ghost use Rattle.trop_theory.specs.Vectors.{row_size, rows_size};
ghost use Rattle.std.specs.Bool.{OnTrue};
ghost use Rattle.trop_theory.specs.Inequalities.{Inequality, IsIn, IsValidOn, Solves, inequality_size, system_size};
ghost use Rattle.trop_duality.specs.Lean.{Certifies};
ghost use Rattle.trop_lean.specs.Certificates.{IsAsWanted, FailsAlone};

use trop_row::{Gens, Ineq, Row, System};
use trop_scalar::Scalar;

// Whether the inequality of place `j` is false at the row of place `k` where these are one place, and true where they
// are two.
fn is_as_wanted<S: Scalar>(ineq: &Ineq<S>, row: &Row<S>, j: usize, k: usize) -> bool
    requires lengths { length row.now ≡ length ineq.now.left }
    requires sizes { row_size S.ring row.now + inequality_size S.ring ineq.now ≤ 2 ^ 62 }
    ensures { IsTrue result ↔ IsAsWanted S.ring j k ineq.now row.now }
{
    if j == k {
        !ineq.holds(row)
    } else {
        ineq.holds(row)
    }
}

// Whether the row makes the inequality at place `k` false and each other one true.
fn fails_alone<S: Scalar>(kept: &[Ineq<S>], row: &Row<S>, k: usize) -> bool
    requires wide { All (IsIn (length row.now)) kept.now }
    requires sizes { system_size S.ring kept.now + row_size S.ring row.now ≤ 2 ^ 62 }
    ensures { IsTrue result ↔ FailsAlone S.ring kept.now k row.now }
{
    for j in 0..kept.len() {
        if !is_as_wanted(&kept[j], row, j, k) {
            return false;
        }
    }
    true
}

/// Whether there is one row for each inequality, which makes this one false and each other one true. Where it is so,
/// none of the inequalities follows from the others.
pub fn certify<S: Scalar>(kept: &System<S>, rows: &Gens<S>) -> bool
    requires width { rows.now.n ≡ kept.now.n }
    requires sizes { system_size S.ring kept.now.inequalities + rows_size S.ring rows.now.rows ≤ 2 ^ 62 }
    ensures certified { IsTrue result ↔ Certifies S.ring kept.now.inequalities rows.now.rows }
    ensures needed { OnTrue result ((k : ℕ) (p : Inequality S) → k < length kept.now.inequalities →
        IsValidOn S.ring (Solves S.ring kept.now.n (remove kept.now.inequalities k))
        (slice_index_or kept.now.inequalities k p) → ⊥) }
{
    let inequalities = kept.as_slice();
    let rows = rows.as_slice();
    if inequalities.len() != rows.len() {
        return false;
    }
    for k in 0..rows.len() {
        if !fails_alone(inequalities, &rows[k], k) {
            return false;
        }
    }
    true
}
