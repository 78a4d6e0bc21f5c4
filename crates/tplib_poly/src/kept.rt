//! The cone that the rows of a file generate.
ghost use Rattle.std.specs.Prelude.{◌≡◌, ◌≤◌, ◌^◌, IfOk, IfErr};
ghost use Rattle.trop_theory.specs.Vectors.{rows_size};
ghost use Rattle.trop_theory.specs.Combinations.{IsCombination};
ghost use Rattle.trop_cones.specs.Represents.{Represents};
ghost use Rattle.trop_files.specs.FileLimits.{AreFileRows};
ghost use Rattle.tplib_reply.specs.declared.refusal.Refusal.TheVariants.{NoMemory};

use crate::refusal::refusal;
use std::alloc::Global;
use tplib_reply::Refusal;
use trop_poly::Poly;
use trop_row::Gens;
use trop_scalar::Scalar;

// A file has no more rows than a cone may have, so only want of memory refuses them.
pub fn kept_cone<S: Scalar>(alloc: Global, gens: &Gens<S>) -> Result<Poly<S>, Refusal>
    requires { AreFileRows S.ring gens.now.n gens.now.rows }
    ensures width { IfOk result (λ cone. cone.n ≡ gens.now.n) }
    ensures holds { IfOk result (λ cone. Represents S.ring gens.now.n
        (IsCombination S.ring gens.now.n gens.now.rows) cone.rows) }
    ensures small { IfOk result (λ cone. rows_size S.ring cone.rows ≤ 2 ^ 41) }
    ensures refused { IfErr result (λ e. e ≡ NoMemory) }
{
    match Poly::from_gens(alloc, gens) {
        Ok(cone) => Ok(cone),
        Err(e) => Err(refusal(e)),
    }
}
