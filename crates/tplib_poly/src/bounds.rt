//! The external list of the cone that the rows of a file generate.
ghost use Rattle.std.specs.Prelude.{◌≡◌, ◌≤◌, ◌^◌, IfOk, IfErr};
ghost use Rattle.trop_theory.specs.Inequalities.{system_size};
ghost use Rattle.trop_theory.specs.Combinations.{IsCombination};
ghost use Rattle.trop_files.specs.FileLimits.{AreFileRows};
ghost use Rattle.tplib_poly.specs.Bounds.{AreBoundsOf, IsBoundsRefusal};

use crate::kept::kept_cone;
use crate::refusal::refusal;
use std::alloc::Global;
use tplib_reply::Refusal;
use trop_row::{Gens, System};
use trop_scalar::Scalar;

/// The external list of the combinations of the rows of a file.
///
/// Errors: `Limit` at the polar where the list stops; want of memory.
pub fn bounds_of<S: Scalar>(alloc: Global, gens: &Gens<S>) -> Result<System<S>, Refusal>
    requires { AreFileRows S.ring gens.now.n gens.now.rows }
    ensures width { IfOk result (λ bounds. bounds.n ≡ gens.now.n) }
    ensures bounds { IfOk result (λ bounds. AreBoundsOf S.ring gens.now.n
        (IsCombination S.ring gens.now.n gens.now.rows) bounds.inequalities) }
    ensures small { IfOk result (λ bounds. system_size S.ring bounds.inequalities ≤ 2 ^ 49) }
    ensures refused { IfErr result (IsBoundsRefusal S.ring gens.now.n
        (IsCombination S.ring gens.now.n gens.now.rows)) }
{
    // The slice tells what every list of rows keeps.
    let _slice = gens.as_slice();
    let cone = kept_cone(alloc, gens)?;
    match cone.external(alloc) {
        Ok(bounds) => Ok(bounds),
        Err(e) => Err(refusal(e)),
    }
}
