// The type of cones: how it is kept, how it is made, and what it tells.
ghost use Rattle.std.specs.Prelude.{◌≡◌, ◌-◌, ◌*◌, ◌<◌, ◌≤◌, ℕ, [], IfOk, IfErr, OnOk, length};
ghost use Rattle.trop_theory.specs.Vectors.{rows_size, AreWide};
ghost use Rattle.trop_theory.specs.Inequalities.{Solves, system_size};
ghost use Rattle.trop_theory.specs.Combinations.{IsCombination};
ghost use Rattle.trop_theory.specs.Canonical.{IsCanonical, row_limit};
ghost use Rattle.trop_theory.specs.Sizes.{most_coefficient, most_mixed};
ghost use Rattle.trop_criterion.specs.SizeBound.{HaveSpread};
ghost use Rattle.trop_cones.specs.RowStops.{IsRowsStop};
ghost use Rattle.trop_cones.specs.Represents.{Represents};
ghost use Rattle.trop_duality.specs.External.{IsExternal};
ghost use Rattle.trop_duality.specs.PolarStops.{IsPolarStop};
ghost use Rattle.trop_cones.specs.Sets.{IsVector, IsBottom};
ghost use Rattle.trop_poly.specs.Cones.{Cone, InCone};
ghost use Rattle.trop_poly.specs.Sizes.{most_bounded};
ghost use Rattle.trop_poly.specs.declared.error.PolyErr.TheVariants.{NoMemory};
ghost use Rattle.trop_poly.specs.Refusals.{IsConeRefusal, IsSystemRefusal, IsExternalRefusal};

use crate::bounds::bounds_of;
use crate::copying::copied;
use crate::error::PolyErr;
use std::alloc::{AllocError, Global};
use std::marker::Model;
use trop_dd::{Dd, DdErr, extreme_rows};
use trop_hyper::Looks;
use trop_row::{Gens, System, reduce, rows_size};
use trop_scalar::Scalar;

type NoMemory = AllocError;

// The most rows that a cone may have.
const ROW_LIMIT: u32 = 4096;

/// A cone in `n` coordinates, from 1 to 64, which is kept as its canonical list: its extreme vectors in normal form,
/// ascending, at most 4,096 of them. Contracts see the number `n` and the list `rows`.
#[derive(Drop)]
pub struct Poly<S: Scalar> {
    rows: Gens<S>,
}

impl<S: Scalar> Model for Poly<S> {
    ghost use Rattle.trop_theory.specs.Combinations.{IsCombination};
    ghost use Rattle.trop_cones.specs.Represents.{Represents};
    ghost use Rattle.trop_poly.specs.Cones.{Cone};

    ghost Value = { Cone S };

    ghost view = { λ a. record { n = a.rows.n; rows = a.rows.rows } };

    ghost invariant = { λ a. Represents S.ring a.rows.n (IsCombination S.ring a.rows.n a.rows.rows) a.rows.rows };
}

impl<S: Scalar> Poly<S> {
    // The cone whose canonical list this is.
    pub(crate) fn from_canonical(rows: Gens<S>) -> Poly<S>
        requires { Represents S.ring rows.n (IsCombination S.ring rows.n rows.rows) rows.rows }
        ensures width { result.n ≡ rows.n }
        ensures rows { result.rows ≡ rows.rows }
    {
        Poly { rows }
    }

    /// All vectors in `n` coordinates.
    pub fn whole(alloc: Global, n: u32) -> Result<Poly<S>, NoMemory>
        requires at_least { 1 ≤ n }
        requires at_most { n ≤ 64 }
        ensures width { IfOk result (λ cone. cone.n ≡ n) }
        ensures holds { IfOk result (λ cone. Represents S.ring n (IsVector n) cone.rows) }
    {
        let dd = Dd::new(alloc, n)?;
        Ok(Poly::from_canonical(dd.into_rows()))
    }

    /// The least cone, which has no row: the vector of `n` zeros alone. Its allocator serves no more than its type.
    pub fn empty(alloc: Global, n: u32) -> Poly<S>
        requires at_least { 1 ≤ n }
        requires at_most { n ≤ 64 }
        ensures width { result.n ≡ n }
        ensures rows { result.rows ≡ [] }
        ensures holds { Represents S.ring n (IsBottom S.ring n) result.rows }
    {
        Poly::from_canonical(Gens::new(alloc, n))
    }

    /// The solutions of the system. `Rows(k)` comes exactly where k is the least number whose first k inequalities
    /// have more than 4,096 extreme rows. Where the coefficients have size at most M, the rows have size at most 4
    /// M (n - 1), and any two finite entries of a row differ by no more.
    pub fn from_system(alloc: Global, system: &System<S>) -> Result<Poly<S>, PolyErr>
        requires size { system_size S.ring system.now.inequalities ≤ most_coefficient }
        ensures width { IfOk result (λ cone. cone.n ≡ system.now.n) }
        ensures holds { IfOk result (λ cone. Represents S.ring system.now.n
            (Solves S.ring system.now.n system.now.inequalities) cone.rows) }
        ensures small { IfOk result (λ cone. rows_size S.ring cone.rows ≤ 4 * system_size S.ring system.now.inequalities
            * (system.now.n - 1)) }
        ensures spread { IfOk result (λ cone. HaveSpread S.ring
            (4 * system_size S.ring system.now.inequalities * (system.now.n - 1)) cone.rows) }

        // No front of the system is over the limit, or the refusal names the first that is.
        ensures unstopped { OnOk result ((k : ℕ) → IsRowsStop S.ring system.now.n system.now.inequalities k → ⊥) }
        ensures refused { IfErr result (IsSystemRefusal S.ring system.now.n system.now.inequalities) }
    {
        let mut looks = Looks::new();
        match extreme_rows(alloc, system, &mut looks) {
            Ok(rows) => Ok(Poly::from_canonical(rows)),
            Err(DdErr::Limit(k)) => Err(PolyErr::Rows(k)),
            Err(DdErr::NoMemory) => Err(PolyErr::NoMemory),
        }
    }

    /// The combinations of the rows. `Rows(0)` comes exactly where they have more than 4,096 extreme rows, and so
    /// never of 4,096 rows or fewer.
    pub fn from_gens(alloc: Global, gens: &Gens<S>) -> Result<Poly<S>, PolyErr>
        requires size { rows_size S.ring gens.now.rows ≤ most_mixed }
        ensures width { IfOk result (λ cone. cone.n ≡ gens.now.n) }
        ensures holds { IfOk result (λ cone. Represents S.ring gens.now.n
            (IsCombination S.ring gens.now.n gens.now.rows) cone.rows) }
        ensures small { IfOk result (λ cone. rows_size S.ring cone.rows ≤ 2 * rows_size S.ring gens.now.rows) }
        ensures refused { IfErr result (IsConeRefusal S.ring 0 (IsCombination S.ring gens.now.n gens.now.rows)) }
        ensures fits { length gens.now.rows ≤ row_limit → IfErr result (λ err. err ≡ NoMemory) }
    {
        // The slice tells what every list of rows keeps.
        let _slice = gens.as_slice();
        let rows = reduce(alloc, gens)?;
        if rows.len() > ROW_LIMIT {
            return Err(PolyErr::Rows(0));
        }
        Ok(Poly::from_canonical(rows))
    }

    /// The canonical list.
    pub fn rows(&self) -> &Gens<S>
        ensures width { result.now.n ≡ self.now.n }
        ensures rows { result.now.rows ≡ self.now.rows }
        ensures canonical { IsCanonical S.ring (InCone S.ring self.now) self.now.rows }
        ensures few { length self.now.rows ≤ row_limit }
        ensures wide { AreWide self.now.n self.now.rows }
        ensures at_least { 1 ≤ self.now.n }
        ensures at_most { self.now.n ≤ 64 }
    {
        // The slice tells what every list of rows keeps.
        let _slice = self.rows.as_slice();
        &self.rows
    }

    /// The greatest size of an entry of the canonical list, 0 where there is none.
    pub fn size(&self) -> u64
        ensures { result ≡ rows_size S.ring self.now.rows }
    {
        rows_size(self.rows.as_slice())
    }

    /// The same cone.
    pub fn copy(&self, alloc: Global) -> Result<Poly<S>, NoMemory>
        ensures same { IfOk result (λ cone. cone ≡ self.now) }
    {
        let rows = copied(alloc, &self.rows)?;
        Ok(Poly::from_canonical(rows))
    }

    /// The external list of the cone: for each coordinate `i` in order the rows of the canonical list of the i-th
    /// polar with finite entry `i`, each scaled so that this entry is the one and read as a bound on the
    /// coordinate. Its solutions are exactly the cone. `Polar(i, k)` comes exactly where this is the first pair, by
    /// the coordinate and then by the number of rows, that is over the limit: the i-th polar of the first k rows
    /// has more than 4,096 extreme rows, or k is the number of all rows and the list has more than 4,096
    /// inequalities for the coordinates up to i (Gaubert, Katz, The tropical analogue of polar cones, 2009).
    pub fn external(&self, alloc: Global) -> Result<System<S>, PolyErr>
        requires size { rows_size S.ring self.now.rows ≤ most_bounded }
        ensures width { IfOk result (λ system. system.n ≡ self.now.n) }
        ensures external { IfOk result (λ system. IsExternal S.ring self.now.n
            (InCone S.ring self.now) system.inequalities) }
        ensures solutions { IfOk result (λ system. Represents S.ring self.now.n
            (Solves S.ring self.now.n system.inequalities) self.now.rows) }
        ensures within { IfOk result (λ system. length system.inequalities ≤ row_limit) }
        ensures small { IfOk result (λ system. system_size S.ring system.inequalities ≤
            4 * rows_size S.ring self.now.rows * (self.now.n - 1)) }

        // No pair is over the limit, or the refusal names the first that is.
        ensures unstopped { OnOk result ((i k : ℕ) → IsPolarStop S.ring self.now.n self.now.rows i k → ⊥) }
        ensures refused { IfErr result (IsExternalRefusal S.ring self.now.n self.now.rows) }
    {
        bounds_of(alloc, &self.rows)
    }
}
