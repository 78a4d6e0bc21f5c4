// From rows to the inequalities of polars.
ghost use Rattle.std.specs.Prelude.{◌≡◌, ◌≢◌, ◌^◌, ◌<◌, ◌≤◌, ◌↔◌, List, IfOk, length};
ghost use Rattle.trop_theory.specs.Vectors.{entry, row_size};
ghost use Rattle.trop_theory.specs.Inequalities.{Solves};
ghost use Rattle.trop_theory.specs.Combinations.{IsCombination};
ghost use Rattle.trop_duality.specs.Polars.{polar_inequality, polar_system, InPolar};
ghost use Rattle.trop_duality.specs.External.{bound_of};

use std::alloc::{AllocError, Global};
use trop_row::{Gens, Ineq, Row, System};
use trop_scalar::Scalar;

type NoMemory = AllocError;

// Entry i on the left, the others on the right.
fn split_at<S: Scalar>(alloc: Global, row: &Row<S>, i: u32) -> Result<Ineq<S>, NoMemory>
    requires { i < length row.now }
    ensures { IfOk result (λ ineq. ineq ≡ polar_inequality S.ring i row.now) }
{
    let mut left = Row::bottom(alloc, row.len())?;
    left.set(i, row.get(i));
    let mut right = row.copy(alloc)?;
    right.set(i, S::zero());
    Ok(Ineq::new(left, right))
}

/// The inequality that a row of the i-th polar gives: coordinate i is at most the sum of the other coordinates, each
/// scaled by its entry of the row, where the row itself is scaled so that its entry i is the one (Gaubert, Katz, The
/// tropical analogue of polar cones, 2009).
pub fn inequality_of<S: Scalar>(alloc: Global, row: &Row<S>, i: u32) -> Result<Ineq<S>, NoMemory>
    requires within { i < length row.now }
    requires finite { entry S.ring row.now i ≢ S.ring.zero }
    requires size { row_size S.ring row.now ≤ 2 ^ 60 }
    ensures { IfOk result (λ ineq. ineq ≡ bound_of S.ring i row.now) }
{
    let mut scaled = row.copy(alloc)?;
    scaled.scale(row.get(i).inverse());
    split_at(alloc, &scaled, i)
}

/// The system whose solutions are the i-th polar of the cone that the rows generate (Gaubert, Katz, The tropical
/// analogue of polar cones, 2009): one inequality a row, in their order, with the row's entry i at coordinate i on its
/// left, and the row's other entries on its right.
pub fn polar_system<S: Scalar>(alloc: Global, gens: &Gens<S>, i: u32) -> Result<System<S>, NoMemory>
    requires { i < gens.now.n }
    ensures width { IfOk result (λ system. system.n ≡ gens.now.n) }
    ensures inequalities { IfOk result (λ system. system.inequalities ≡ polar_system S.ring i gens.now.rows) }
    ensures polar { IfOk result (λ system. (u : List S) → Solves S.ring gens.now.n system.inequalities u ↔ InPolar S.ring gens.now.n (IsCombination S.ring gens.now.n gens.now.rows) i u) }
{
    let mut system = System::new(alloc, gens.n());
    for row in gens.as_slice() {
        system.push(split_at(alloc, row, i)?)?;
    }
    Ok(system)
}
