// One inequality more on a cone, and the common part of two cones.
ghost use Rattle.std.specs.Prelude.{◌≡◌, ◌≤◌, ℕ, List, IfOk, IfErr, OnOk, length};
ghost use Rattle.trop_theory.specs.Vectors.{rows_size, AreWide};
ghost use Rattle.trop_theory.specs.Inequalities.{InGuard, IsIn, Solves, inequality_size, system_size};
ghost use Rattle.trop_theory.specs.Combinations.{IsCombination};
ghost use Rattle.trop_theory.specs.Canonical.{IsCanonical, row_limit};
ghost use Rattle.trop_theory.specs.Sizes.{most_coefficient, most_mixed};
ghost use Rattle.trop_cones.specs.Sets.{InMeet};
ghost use Rattle.trop_cones.specs.RowStops.{IsMeetStop};
ghost use Rattle.trop_cones.specs.Represents.{Represents};
ghost use Rattle.trop_duality.specs.PolarStops.{IsPolarStop};
ghost use Rattle.trop_poly.specs.Cones.{InCone};
ghost use Rattle.trop_poly.specs.Sizes.{most_met};
ghost use Rattle.trop_poly.specs.Meets.{IsPartRefusal};
ghost use Rattle.trop_poly.specs.Refusals.{IsConeRefusal, IsMeetRefusal, IsMeetStopOf};

use crate::copying::copied;
use crate::error::PolyErr;
use crate::poly::Poly;
use std::alloc::Global;
use trop_guard::{GuardErr, guard};
use trop_row::{Gens, Ineq, System};
use trop_scalar::Scalar;

// The canonical list of the combinations of the rows at which the inequality is true. A refusal gives the number.
fn narrowed_rows<S: Scalar>(
    alloc: Global,
    gens: &Gens<S>,
    ineq: &Ineq<S>,
    number: u32,
) -> Result<Gens<S>, PolyErr>
    requires inside { IsIn gens.now.n ineq.now }
    requires canonical { IsCanonical S.ring (IsCombination S.ring gens.now.n gens.now.rows) gens.now.rows }
    requires few { length gens.now.rows ≤ row_limit }
    requires size { rows_size S.ring gens.now.rows ≤ most_mixed }
    requires coefficients { inequality_size S.ring ineq.now ≤ most_coefficient }
    ensures width { IfOk result (λ next. next.n ≡ gens.now.n) }
    ensures holds { IfOk result (λ next. Represents S.ring gens.now.n
        (InGuard S.ring (IsCombination S.ring gens.now.n gens.now.rows) ineq.now) next.rows) }
    ensures refused { IfErr result (IsConeRefusal S.ring number
        (InGuard S.ring (IsCombination S.ring gens.now.n gens.now.rows) ineq.now)) }
{
    match guard(alloc, gens, ineq) {
        Ok(next) => Ok(next),
        Err(GuardErr::Limit) => Err(PolyErr::Rows(number)),
        Err(GuardErr::NoMemory) => Err(PolyErr::NoMemory),
    }
}

// The vectors of the cone at which the inequality is true. A refusal gives the number.
fn narrowed<S: Scalar>(
    alloc: Global,
    cone: &Poly<S>,
    ineq: &Ineq<S>,
    number: u32,
) -> Result<Poly<S>, PolyErr>
    requires inside { IsIn cone.now.n ineq.now }
    requires size { rows_size S.ring cone.now.rows ≤ most_mixed }
    requires coefficients { inequality_size S.ring ineq.now ≤ most_coefficient }
    ensures width { IfOk result (λ next. next.n ≡ cone.now.n) }
    ensures holds { IfOk result (λ next. Represents S.ring cone.now.n (InGuard S.ring (InCone S.ring cone.now) ineq.now)
        next.rows) }
    ensures refused { IfErr result (IsConeRefusal S.ring number (InGuard S.ring (InCone S.ring cone.now) ineq.now)) }
{
    match narrowed_rows(alloc, cone.rows(), ineq, number) {
        Ok(rows) => Ok(Poly::from_canonical(rows)),
        Err(err) => Err(err),
    }
}

// The part that solves the system of the cone whose canonical list is given, one inequality after another.
fn part_of<S: Scalar>(alloc: Global, gens: &Gens<S>, system: &System<S>) -> Result<Poly<S>, PolyErr>
    requires kept { Represents S.ring gens.now.n (IsCombination S.ring gens.now.n gens.now.rows) gens.now.rows }
    requires wide { AreWide gens.now.n gens.now.rows }
    requires at_most { gens.now.n ≤ 64 }
    requires width { system.now.n ≡ gens.now.n }
    requires size { rows_size S.ring gens.now.rows ≤ most_met }
    requires coefficients { system_size S.ring system.now.inequalities ≤ most_coefficient }
    ensures width { IfOk result (λ part. part.n ≡ gens.now.n) }
    ensures holds { IfOk result (λ part. Represents S.ring gens.now.n
        (InMeet (IsCombination S.ring gens.now.n gens.now.rows) (Solves S.ring gens.now.n system.now.inequalities))
        part.rows) }
    ensures unstopped { OnOk result ((k : ℕ) → IsMeetStop S.ring
        (IsCombination S.ring gens.now.n gens.now.rows) gens.now.n system.now.inequalities k → ⊥) }
    ensures refused { IfErr result (IsPartRefusal S.ring (IsCombination S.ring gens.now.n gens.now.rows) gens.now.n
        system.now.inequalities) }
{
    let mut part = Poly::from_canonical(copied(alloc, gens)?);
    let inequalities = system.as_slice();
    for k in 0..inequalities.len() {
        part = match narrowed(alloc, &part, &inequalities[k], k as u32 + 1) {
            Ok(next) => next,
            Err(err) => return Err(err),
        };
    }
    Ok(part)
}

impl<S: Scalar> Poly<S> {
    /// The vectors of the cone at which the inequality is true. `Rows(1)` comes exactly where they have more than 4,096
    /// extreme rows.
    pub fn guard(&self, alloc: Global, ineq: &Ineq<S>) -> Result<Poly<S>, PolyErr>
        requires inside { IsIn self.now.n ineq.now }
        requires size { rows_size S.ring self.now.rows ≤ most_mixed }
        requires coefficients { inequality_size S.ring ineq.now ≤ most_coefficient }
        ensures width { IfOk result (λ cone. cone.n ≡ self.now.n) }
        ensures holds { IfOk result (λ cone. Represents S.ring self.now.n
            (InGuard S.ring (InCone S.ring self.now) ineq.now) cone.rows) }
        ensures refused { IfErr result (IsConeRefusal S.ring 1 (InGuard S.ring (InCone S.ring self.now) ineq.now)) }
    {
        narrowed(alloc, self, ineq, 1)
    }

    /// The vectors that are in both cones: the part of this one that solves the external list of the other, one
    /// inequality after another. `Polar(i, k)` comes exactly where the external list of the other stops there, and
    /// `Rows(k)` where it does not, and k is the least number whose first k inequalities leave a part of this cone
    /// with more than 4,096 extreme rows.
    pub fn meet(&self, alloc: Global, other: &Poly<S>) -> Result<Poly<S>, PolyErr>
        requires width { self.now.n ≡ other.now.n }
        requires size { rows_size S.ring self.now.rows ≤ most_met }
        requires other_size { rows_size S.ring other.now.rows ≤ most_met }
        ensures width { IfOk result (λ cone. cone.n ≡ self.now.n) }
        ensures holds { IfOk result (λ cone. Represents S.ring self.now.n
            (InMeet (InCone S.ring self.now) (InCone S.ring other.now)) cone.rows) }

        // Neither kind of stop exists, or the refusal names the first.
        ensures unstopped { OnOk result ((i k : ℕ) → IsPolarStop S.ring self.now.n other.now.rows i k → ⊥) }
        ensures within { OnOk result ((k : ℕ) → IsMeetStopOf S.ring self.now.n (InCone S.ring self.now) other.now.rows k
            → ⊥) }
        ensures refused { IfErr result (IsMeetRefusal S.ring self.now.n (InCone S.ring self.now) other.now.rows) }
    {
        let system = match other.external(alloc) {
            Ok(system) => system,
            Err(err) => return Err(err),
        };
        part_of(alloc, self.rows(), &system)
    }
}
