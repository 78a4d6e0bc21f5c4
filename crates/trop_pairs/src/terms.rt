// The finite entries of the two sides of an inequality, which are listed once for all rows.
ghost use Rattle.std.specs.Prelude.{◌≡◌, IfOk};
ghost use Rattle.trop_pairs.specs.Sums.{AreTerms, HasTerms};

use crate::reading::is_zero;
use std::alloc::{AllocError, Global};
use trop_row::{Ineq, Row};
use trop_scalar::Scalar;

/// A finite entry of a side, with its place.
#[derive(Clone, Copy)]
pub struct Term<S> {
    pub place: usize,
    pub coefficient: S,
}

/// The finite entries of both sides of an inequality, in the order of their places.
#[derive(Drop)]
pub struct Terms<S: Scalar> {
    pub left: Vec<Term<S>>,
    pub right: Vec<Term<S>>,
}

// The finite entries of a side.
fn terms_of<S: Scalar>(alloc: Global, side: &Row<S>) -> Result<Vec<Term<S>>, AllocError>
    ensures { IfOk result (λ terms. AreTerms S.ring side.now terms.items) }
{
    let entries = side.as_slice();
    let mut terms = Vec::with_capacity(alloc, entries.len())?;
    for place in 0..entries.len() {
        let coefficient = entries[place];
        if !is_zero(coefficient) {
            terms.push(Term { place, coefficient })?;
        }
    }
    Ok(terms)
}

impl<S: Scalar> Terms<S> {
    /// The finite entries of both sides.
    pub fn of(alloc: Global, ineq: &Ineq<S>) -> Result<Terms<S>, AllocError>
        ensures { IfOk result (λ terms. HasTerms S.ring ineq.now terms.left.items terms.right.items) }
    {
        Ok(Terms {
            left: terms_of(alloc, ineq.left())?,
            right: terms_of(alloc, ineq.right())?,
        })
    }
}
