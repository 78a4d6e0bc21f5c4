// Inclusion and equality of cones.
ghost use Rattle.std.specs.Prelude.{◌≡◌, ◌≤◌, ◌↔◌, List, All, IsTrue, IsNone, IfNone, IfSome, length};
ghost use Rattle.trop_theory.specs.Vectors.{rows_size, AreWide};
ghost use Rattle.trop_theory.specs.Combinations.{IsCombination};
ghost use Rattle.trop_theory.specs.Canonical.{row_limit};
ghost use Rattle.trop_theory.specs.Sizes.{most_mixed};
ghost use Rattle.trop_poly.specs.Cones.{InCone};
ghost use Rattle.trop_poly.specs.Outside.{IsFirstOutside};

use crate::poly::Poly;
use trop_row::{Gens, Row, member};
use trop_scalar::Scalar;

// The place of the first row that is no combination of those of the list.
fn first_of<S: Scalar>(rows: &[Row<S>], gens: &Gens<S>) -> Option<u32>
    requires wide { AreWide gens.now.n rows.now }
    requires few { length rows.now ≤ row_limit }
    requires size { rows_size S.ring rows.now ≤ most_mixed }
    requires gens_size { rows_size S.ring gens.now.rows ≤ most_mixed }
    ensures none { IfNone result (All (IsCombination S.ring gens.now.n gens.now.rows) rows.now) }
    ensures some { IfSome result (IsFirstOutside rows.now (IsCombination S.ring gens.now.n gens.now.rows)) }
{
    for k in 0..rows.len() {
        if !member(gens, &rows[k]) {
            return Some(k as u32);
        }
    }
    None
}

impl<S: Scalar> Poly<S> {
    /// The place of the first row of this cone's canonical list that is outside of the other cone; none exactly
    /// where this cone lies in the other.
    pub fn first_outside(&self, other: &Poly<S>) -> Option<u32>
        requires width { self.now.n ≡ other.now.n }
        requires size { rows_size S.ring self.now.rows ≤ most_mixed }
        requires other_size { rows_size S.ring other.now.rows ≤ most_mixed }
        ensures none { IsNone result ↔ ((x : List S) → InCone S.ring self.now x → InCone S.ring other.now x) }
        ensures some { IfSome result (IsFirstOutside self.now.rows (InCone S.ring other.now)) }
    {
        first_of(self.rows().as_slice(), other.rows())
    }

    /// Whether this cone lies in the other.
    pub fn included(&self, other: &Poly<S>) -> bool
        requires width { self.now.n ≡ other.now.n }
        requires size { rows_size S.ring self.now.rows ≤ most_mixed }
        requires other_size { rows_size S.ring other.now.rows ≤ most_mixed }
        ensures { IsTrue result ↔ ((x : List S) → InCone S.ring self.now x → InCone S.ring other.now x) }
    {
        self.first_outside(other).is_none()
    }

    /// Whether the two have the same vectors.
    pub fn equal(&self, other: &Poly<S>) -> bool
        requires width { self.now.n ≡ other.now.n }
        requires size { rows_size S.ring self.now.rows ≤ most_mixed }
        requires other_size { rows_size S.ring other.now.rows ≤ most_mixed }
        ensures { IsTrue result ↔ ((x : List S) → InCone S.ring self.now x ↔ InCone S.ring other.now x) }
    {
        self.included(other) && other.included(self)
    }
}
