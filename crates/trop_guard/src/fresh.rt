// Whether a mixed row is a new extreme row of the smaller cone.
ghost use Rattle.std.specs.Prelude.{◌≡◌, ◌^◌, ◌<◌, ◌≤◌, ◌↔◌, ℕ, IsTrue, length};
ghost use Rattle.trop_theory.specs.Vectors.{row_size};
ghost use Rattle.trop_guard.specs.Fresh.{IsFreshAt};
ghost use Rattle.trop_guard.specs.Parts.{AreParts};

use crate::lower::{has_lower, is_zero};
use crate::parts::Parts;
use trop_row::{Ineq, Row, some_meets};
use trop_scalar::Scalar;

// Whether x is fresh at t.
fn is_fresh_at<S: Scalar>(ineq: &Ineq<S>, parts: &Parts<S>, x: &Row<S>, t: u32) -> bool
    requires parts { AreParts S.ring parts.now.kept.n ineq.now parts.now.kept.rows parts.now.rights.items
        parts.now.dropped.rows }
    requires long { length x.now ≡ parts.now.kept.n }
    requires within { t < parts.now.kept.n }
    requires size { row_size S.ring x.now ≤ 2 ^ 60 }
    ensures { IsTrue result ↔ IsFreshAt S.ring ineq.now parts.now.kept.rows parts.now.dropped.rows x.now t }
{
    if is_zero(x.get(t)) {
        return false;
    }
    if some_meets(&parts.kept, x, t) {
        return false;
    }
    !has_lower(ineq, parts, x, t)
}

// Whether x is fresh at some coordinate.
pub fn is_fresh<S: Scalar>(ineq: &Ineq<S>, parts: &Parts<S>, x: &Row<S>) -> bool
    requires parts { AreParts S.ring parts.now.kept.n ineq.now parts.now.kept.rows parts.now.rights.items
        parts.now.dropped.rows }
    requires long { length x.now ≡ parts.now.kept.n }
    requires size { row_size S.ring x.now ≤ 2 ^ 60 }
    ensures { IsTrue result ↔ (t : ℕ) × IsFreshAt S.ring ineq.now parts.now.kept.rows parts.now.dropped.rows x.now t }
{
    for t in 0..x.len() {
        if is_fresh_at(ineq, parts, x, t) {
            return true;
        }
    }
    false
}
