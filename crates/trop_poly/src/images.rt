// The join of two cones, the projection of a cone along a coordinate, and the assignment of a multiple of a coordinate
// to another, each by its rows.
ghost use Rattle.std.specs.Prelude.{◌≡◌, ◌+◌, ◌^◌, ◌++◌, [], ◌∷◌, ◌<◌, ◌≤◌, ◌↔◌};
ghost use Rattle.std.specs.Prelude.{List, IfOk, IfErr, OnOk, length, map, slice_set};
ghost use Rattle.trop_theory.specs.Vectors.{bottom, entry, row_size, rows_size, AreWide};
ghost use Rattle.trop_theory.specs.Combinations.{IsCombination};
ghost use Rattle.trop_theory.specs.Canonical.{row_limit};
ghost use Rattle.trop_theory.specs.Sizes.{most_mixed};
ghost use Rattle.trop_cones.specs.Sets.{InJoin, InForget, InAssign, assigned};
ghost use Rattle.trop_cones.specs.Represents.{Represents};
ghost use Rattle.trop_poly.specs.Cones.{InCone};
ghost use Rattle.trop_poly.specs.Refusals.{IsConeRefusal};

use crate::copying::append_copies;
use crate::error::PolyErr;
use crate::poly::Poly;
use std::alloc::{AllocError, Global};
use trop_row::{Gens, Row};
use trop_scalar::Scalar;

type NoMemory = AllocError;

// The rows of the first list, and behind them those of the second.
fn both_lists<S: Scalar>(
    alloc: Global,
    first: &[Row<S>],
    second: &[Row<S>],
) -> Result<Vec<Row<S>>, NoMemory>
    ensures { IfOk result (λ rows. rows.items ≡ first.now ++ second.now) }
{
    let mut rows = Vec::new(alloc);
    append_copies(alloc, &mut rows, first)?;
    append_copies(alloc, &mut rows, second)?;
    Ok(rows)
}

// The rows of both lists, which generate the sums of a combination of the one and a combination of the other.
fn joined_rows<S: Scalar>(
    alloc: Global,
    first: &Gens<S>,
    second: &Gens<S>,
) -> Result<Gens<S>, NoMemory>
    requires width { first.now.n ≡ second.now.n }
    requires few { length first.now.rows ≤ row_limit }
    requires few_others { length second.now.rows ≤ row_limit }
    requires size { rows_size S.ring first.now.rows ≤ most_mixed }
    requires other_size { rows_size S.ring second.now.rows ≤ most_mixed }
    ensures width { IfOk result (λ out. out.n ≡ first.now.n) }
    ensures size { IfOk result (λ out. rows_size S.ring out.rows ≤ most_mixed) }
    ensures same { IfOk result (λ out. (x : List S) →
        IsCombination S.ring out.n out.rows x ↔ InJoin S.ring (IsCombination S.ring first.now.n first.now.rows)
        (IsCombination S.ring second.now.n second.now.rows) x) }
{
    let rows = both_lists(alloc, first.as_slice(), second.as_slice())?;
    Ok(Gens::from_rows(first.n(), rows))
}

// The rows with entry i cleared.
fn cleared_rows<S: Scalar>(
    alloc: Global,
    rows: &[Row<S>],
    n: u32,
    i: u32,
) -> Result<Vec<Row<S>>, NoMemory>
    requires wide { AreWide n rows.now }
    requires within { i < n }
    ensures { IfOk result (λ out. out.items ≡ map (λ row. slice_set row i S.ring.zero) rows.now) }
{
    let mut out = Vec::new(alloc);
    for row in rows {
        let mut next = row.copy(alloc)?;
        next.set(i, S::zero());
        out.push(next)?;
    }
    Ok(out)
}

// Appends the unit row of i.
fn push_unit<S: Scalar>(
    alloc: Global,
    rows: &mut Vec<Row<S>>,
    n: u32,
    i: u32,
) -> Result<(), NoMemory>
    requires within { i < n }
    requires at_most { n ≤ 64 }
    ensures { OnOk result (rows.new.items ≡ rows.old.items ++ slice_set (bottom S.ring n) i S.ring.one ∷ []) }
{
    rows.push(Row::unit(alloc, n, i)?)?;
    Ok(())
}

// The rows with entry i cleared, and the unit row of i: they generate the vectors that agree with a combination outside
// of i.
fn forgetting_rows<S: Scalar>(alloc: Global, gens: &Gens<S>, i: u32) -> Result<Gens<S>, NoMemory>
    requires within { i < gens.now.n }
    requires few { length gens.now.rows ≤ row_limit }
    requires size { rows_size S.ring gens.now.rows ≤ most_mixed }
    ensures width { IfOk result (λ out. out.n ≡ gens.now.n) }
    ensures size { IfOk result (λ out. rows_size S.ring out.rows ≤ most_mixed) }
    ensures same { IfOk result (λ out. (x : List S) →
        IsCombination S.ring out.n out.rows x ↔ InForget S.ring (IsCombination S.ring gens.now.n gens.now.rows) i x) }
{
    let n = gens.n();
    let mut rows = cleared_rows(alloc, gens.as_slice(), n, i)?;
    push_unit(alloc, &mut rows, n, i)?;
    Ok(Gens::from_rows(n, rows))
}

// c times the entry at `from`.
fn multiple<S: Scalar>(row: &Row<S>, from: u32, c: S) -> S
    requires inside { from < length row.now }
    requires size { S.ring.size c + S.ring.size (entry S.ring row.now from) ≤ 2 ^ 62 }
    ensures { result ≡ S.ring.times c (entry S.ring row.now from) }
{
    c.times(row.get(from))
}

// The row with entry i replaced by c times its entry at `from`.
fn assigned_row<S: Scalar>(
    alloc: Global,
    row: &Row<S>,
    i: u32,
    from: u32,
    c: S,
) -> Result<Row<S>, NoMemory>
    requires within { i < length row.now }
    requires inside { from < length row.now }
    requires size { row_size S.ring row.now + S.ring.size c ≤ most_mixed }
    ensures { IfOk result (λ next. next ≡ assigned S.ring i from c row.now) }
{
    let mut next = row.copy(alloc)?;
    next.set(i, multiple(row, from, c));
    Ok(next)
}

// The rows so changed.
fn changed_rows<S: Scalar>(
    alloc: Global,
    rows: &[Row<S>],
    n: u32,
    i: u32,
    from: u32,
    c: S,
) -> Result<Vec<Row<S>>, NoMemory>
    requires wide { AreWide n rows.now }
    requires within { i < n }
    requires inside { from < n }
    requires size { rows_size S.ring rows.now + S.ring.size c ≤ most_mixed }
    ensures { IfOk result (λ out. out.items ≡ map (assigned S.ring i from c) rows.now) }
{
    let mut out = Vec::new(alloc);
    for row in rows {
        out.push(assigned_row(alloc, row, i, from, c)?)?;
    }
    Ok(out)
}

// The list of the rows so changed, which generate the combinations so changed.
fn assigned_rows<S: Scalar>(
    alloc: Global,
    gens: &Gens<S>,
    i: u32,
    from: u32,
    c: S,
) -> Result<Gens<S>, NoMemory>
    requires within { i < gens.now.n }
    requires inside { from < gens.now.n }
    requires size { rows_size S.ring gens.now.rows + S.ring.size c ≤ most_mixed }
    ensures width { IfOk result (λ out. out.n ≡ gens.now.n) }
    ensures size { IfOk result (λ out. rows_size S.ring out.rows ≤ most_mixed) }
    ensures same { IfOk result (λ out. (x : List S) →
        IsCombination S.ring out.n out.rows x ↔ InAssign S.ring (IsCombination S.ring gens.now.n gens.now.rows) i from c
        x) }
{
    let n = gens.n();
    let rows = changed_rows(alloc, gens.as_slice(), n, i, from, c)?;
    Ok(Gens::from_rows(n, rows))
}

impl<S: Scalar> Poly<S> {
    /// The sums of a vector of this cone and one of the other, which are the least cone that has both. `Rows(0)` comes
    /// exactly where they have more than 4,096 extreme rows.
    pub fn join(&self, alloc: Global, other: &Poly<S>) -> Result<Poly<S>, PolyErr>
        requires width { self.now.n ≡ other.now.n }
        requires size { rows_size S.ring self.now.rows ≤ most_mixed }
        requires other_size { rows_size S.ring other.now.rows ≤ most_mixed }
        ensures width { IfOk result (λ cone. cone.n ≡ self.now.n) }
        ensures holds { IfOk result (λ cone. Represents S.ring self.now.n
            (InJoin S.ring (InCone S.ring self.now) (InCone S.ring other.now)) cone.rows) }
        ensures refused { IfErr result (IsConeRefusal S.ring 0
            (InJoin S.ring (InCone S.ring self.now) (InCone S.ring other.now))) }
    {
        let rows = joined_rows(alloc, self.rows(), other.rows())?;
        Poly::from_gens(alloc, &rows)
    }

    /// All vectors that agree with one of the cone outside of coordinate `i`: its rows with entry `i` cleared, and
    /// the unit row of `i`, generate them. `Rows(0)` comes exactly where they have more than 4,096 extreme rows.
    pub fn forget(&self, alloc: Global, i: u32) -> Result<Poly<S>, PolyErr>
        requires within { i < self.now.n }
        requires size { rows_size S.ring self.now.rows ≤ most_mixed }
        ensures width { IfOk result (λ cone. cone.n ≡ self.now.n) }
        ensures holds { IfOk result (λ cone. Represents S.ring self.now.n
            (InForget S.ring (InCone S.ring self.now) i) cone.rows) }
        ensures refused { IfErr result (IsConeRefusal S.ring 0 (InForget S.ring (InCone S.ring self.now) i)) }
    {
        let rows = forgetting_rows(alloc, self.rows(), i)?;
        Poly::from_gens(alloc, &rows)
    }

    /// The vectors of the cone, their entry `i` replaced by `c` times the entry at `from`. `Rows(0)` comes exactly
    /// where they have more than 4,096 extreme rows.
    pub fn assign(&self, alloc: Global, i: u32, from: u32, c: S) -> Result<Poly<S>, PolyErr>
        requires within { i < self.now.n }
        requires inside { from < self.now.n }
        requires size { rows_size S.ring self.now.rows + S.ring.size c ≤ most_mixed }
        ensures width { IfOk result (λ cone. cone.n ≡ self.now.n) }
        ensures holds { IfOk result (λ cone. Represents S.ring self.now.n
            (InAssign S.ring (InCone S.ring self.now) i from c) cone.rows) }
        ensures refused { IfErr result (IsConeRefusal S.ring 0 (InAssign S.ring (InCone S.ring self.now) i from c)) }
    {
        let rows = assigned_rows(alloc, self.rows(), i, from, c)?;
        Poly::from_gens(alloc, &rows)
    }
}
