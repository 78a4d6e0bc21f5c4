// The inequalities that the polars of a cone give, coordinate by coordinate.
ghost use Rattle.std.specs.Prelude.{◌≡◌, ◌≢◌, ◌-◌, ◌*◌, ◌<◌, ◌≤◌, ◌↔◌, ℕ, IsTrue, IfOk, IfErr, OnOk, length};
ghost use Rattle.trop_theory.specs.Vectors.{entry, rows_size, AreWide};
ghost use Rattle.trop_theory.specs.Inequalities.{Solves, system_size};
ghost use Rattle.trop_theory.specs.Combinations.{IsCombination};
ghost use Rattle.trop_theory.specs.Canonical.{IsCanonical, row_limit};
ghost use Rattle.trop_theory.specs.Sizes.{most_entry};
ghost use Rattle.trop_cones.specs.Represents.{Represents};
ghost use Rattle.trop_duality.specs.Polars.{InPolar};
ghost use Rattle.trop_duality.specs.External.{IsExternal};
ghost use Rattle.trop_duality.specs.PolarStops.{IsPolarOver, IsPolarStop};
ghost use Rattle.trop_poly.specs.Sizes.{most_bounded};
ghost use Rattle.trop_poly.specs.Bounds.{AreAppended};
ghost use Rattle.trop_poly.specs.Refusals.{IsPolarRefusal, IsExternalRefusal};

use crate::error::PolyErr;
use std::alloc::{AllocError, Global};
use trop_dd::{DdErr, extreme_rows};
use trop_hyper::Looks;
use trop_polar::{inequality_of, polar_system};
use trop_row::{Gens, Row, System};
use trop_scalar::Scalar;

type NoMemory = AllocError;

// The most inequalities of an external list.
const INEQUALITY_LIMIT: u32 = 4096;

// The canonical list of the i-th polar.
fn polar_rows<S: Scalar>(alloc: Global, gens: &Gens<S>, i: u32) -> Result<Gens<S>, PolyErr>
    requires within { i < gens.now.n }
    requires wide { AreWide gens.now.n gens.now.rows }
    requires at_most { gens.now.n ≤ 64 }
    requires size { rows_size S.ring gens.now.rows ≤ most_bounded }
    ensures width { IfOk result (λ polar. polar.n ≡ gens.now.n) }
    ensures canonical { IfOk result (λ polar. IsCanonical S.ring
        (InPolar S.ring gens.now.n (IsCombination S.ring gens.now.n gens.now.rows) i) polar.rows) }
    ensures few { IfOk result (λ polar. length polar.rows ≤ row_limit) }
    ensures small { IfOk result (λ polar. rows_size S.ring polar.rows ≤ most_entry) }
    ensures unstopped { OnOk result ((k : ℕ) → k ≤ length gens.now.rows →
        IsPolarOver S.ring gens.now.n gens.now.rows i k → ⊥) }
    ensures stopped { IfErr result (IsPolarRefusal S.ring gens.now.n gens.now.rows i) }
{
    let system = polar_system(alloc, gens, i)?;
    let mut looks = Looks::new();
    match extreme_rows(alloc, &system, &mut looks) {
        Ok(polar) => Ok(polar),
        Err(DdErr::Limit(k)) => Err(PolyErr::Polar(i, k)),
        Err(DdErr::NoMemory) => Err(PolyErr::NoMemory),
    }
}

// Whether it is the zero.
fn is_zero<S: Scalar>(x: S) -> bool
    ensures { IsTrue result ↔ (x ≡ S.ring.zero) }
{
    x == S::zero()
}

// Appends the bounds of coordinate i.
fn append_bounds<S: Scalar>(
    alloc: Global,
    system: &mut System<S>,
    polar: &[Row<S>],
    i: u32,
) -> Result<(), NoMemory>
    requires within { i < system.old.n }
    requires wide { AreWide system.old.n polar.now }
    requires size { rows_size S.ring polar.now ≤ most_entry }
    requires few { length polar.now ≤ row_limit }
    requires room { length system.old.inequalities ≤ row_limit }
    ensures width { system.new.n ≡ system.old.n }
    ensures bounded { OnOk result (AreAppended S.ring i polar.now system.old.inequalities system.new.inequalities) }
{
    for row in polar {
        if !is_zero(row.get(i)) {
            system.push(inequality_of(alloc, row, i)?)?;
        }
    }
    Ok(())
}

// The external list of the cone that the rows, which are canonical, generate.
pub fn bounds_of<S: Scalar>(alloc: Global, gens: &Gens<S>) -> Result<System<S>, PolyErr>
    requires kept { Represents S.ring gens.now.n (IsCombination S.ring gens.now.n gens.now.rows) gens.now.rows }
    requires size { rows_size S.ring gens.now.rows ≤ most_bounded }
    ensures width { IfOk result (λ system. system.n ≡ gens.now.n) }
    ensures external { IfOk result (λ system. IsExternal S.ring gens.now.n
        (IsCombination S.ring gens.now.n gens.now.rows) system.inequalities) }
    ensures solutions { IfOk result (λ system. Represents S.ring gens.now.n
        (Solves S.ring gens.now.n system.inequalities) gens.now.rows) }
    ensures within { IfOk result (λ system. length system.inequalities ≤ row_limit) }
    ensures small { IfOk result (λ system. system_size S.ring system.inequalities ≤ 4 * rows_size S.ring gens.now.rows *
        (gens.now.n - 1)) }
    ensures unstopped { OnOk result ((i k : ℕ) → IsPolarStop S.ring gens.now.n gens.now.rows i k → ⊥) }
    ensures stopped { IfErr result (IsExternalRefusal S.ring gens.now.n gens.now.rows) }
{
    let rows = gens.as_slice();
    let mut system = System::new(alloc, gens.n());
    for i in 0..gens.n() {
        let polar = match polar_rows(alloc, gens, i) {
            Ok(polar) => polar,
            Err(err) => return Err(err),
        };
        append_bounds(alloc, &mut system, polar.as_slice(), i)?;
        if system.len() > INEQUALITY_LIMIT {
            return Err(PolyErr::Polar(i, rows.len() as u32));
        }
    }
    Ok(system)
}
