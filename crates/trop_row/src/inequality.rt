//! Inequalities between sums of scaled coordinates.
ghost use Rattle.std.specs.Prelude.{◌≡◌, ◌+◌, ◌≤◌, ◌↔◌, IsTrue, IfOk, length};
ghost use Rattle.trop_theory.specs.Sizes.{most_element};
ghost use Rattle.trop_theory.specs.Vectors.{row_size};
ghost use Rattle.trop_theory.specs.Inequalities.{Inequality, IsTrueAt, inequality_size};

use crate::row::Row;
use std::alloc::{AllocError, Global};
use std::marker::Model;
use trop_scalar::Scalar;

type NoMemory = AllocError;

/// The inequality that the sum of the coordinates scaled by `left` is at most their sum scaled by `right`, in the
/// semiring's order. Both sides have one number of coefficients.
#[derive(Drop)]
pub struct Ineq<S: Scalar> {
    left: Row<S>,
    right: Row<S>,
}

impl<S: Scalar> Model for Ineq<S> {
    ghost use Rattle.std.specs.Prelude.{length, ◌≡◌};
    ghost use Rattle.trop_theory.specs.Inequalities.{Inequality};

    ghost Value = { Inequality S };

    ghost view = { λ a. record { left = a.left; right = a.right } };

    ghost invariant = { λ a. length a.left ≡ length a.right };
}

impl<S: Scalar> Ineq<S> {
    /// The inequality with these sides.
    pub fn new(left: Row<S>, right: Row<S>) -> Ineq<S>
        requires { length left ≡ length right }
        ensures left { result.left ≡ left }
        ensures right { result.right ≡ right }
    {
        Ineq { left, right }
    }

    /// The coefficients of the left side.
    pub fn left(&self) -> &Row<S>
        ensures value { result.now ≡ self.now.left }
        ensures lengths { length self.now.left ≡ length self.now.right }
    {
        &self.left
    }

    /// The coefficients of the right side.
    pub fn right(&self) -> &Row<S>
        ensures value { result.now ≡ self.now.right }
        ensures lengths { length self.now.left ≡ length self.now.right }
    {
        &self.right
    }

    /// An inequality with the same sides.
    pub fn copy(&self, alloc: Global) -> Result<Ineq<S>, NoMemory>
        ensures left { IfOk result (λ ineq. ineq.left ≡ self.now.left) }
        ensures right { IfOk result (λ ineq. ineq.right ≡ self.now.right) }
    {
        Ok(Ineq {
            left: self.left.copy(alloc)?,
            right: self.right.copy(alloc)?,
        })
    }

    /// Whether it is true at the row.
    pub fn holds(&self, row: &Row<S>) -> bool
        requires lengths { length row.now ≡ length self.now.left }
        requires sizes { row_size S.ring row.now + inequality_size S.ring self.now ≤ most_element }
        ensures { IsTrue result ↔ IsTrueAt S.ring self.now row.now }
    {
        row.dot(&self.left).le(row.dot(&self.right))
    }
}
