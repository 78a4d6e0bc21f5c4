//! The elementary step: one more inequality on the cone that rows generate.
ghost use Rattle.std.specs.Prelude.{◌≡◌, ◌≢◌, ◌^◌, ◌≤◌, ◌↔◌, List, IfOk, All, length};
ghost use Rattle.std.specs.List.{AllZip};
ghost use Rattle.trop_theory.specs.Sizes.{most_coefficient, most_entry, most_mixed};
ghost use Rattle.trop_theory.specs.Vectors.{row_size, rows_size, bottom, AreWide};
ghost use Rattle.trop_theory.specs.Normal.{Normalises};
ghost use Rattle.trop_theory.specs.Inequalities.{IsTrueAt, InGuard, IsIn, inequality_size};
ghost use Rattle.trop_theory.specs.Combinations.{IsCombination};
ghost use Rattle.trop_theory.specs.Steps.{mixed};
ghost use Rattle.trop_theory.specs.StepList.{AreChosen, AreMixedOf, AreMixed, IsStepList};
ghost use Rattle.trop_row.specs.Mixing.{CanMix, CanStep};

use crate::entries::is_zero;
use crate::gens::Gens;
use crate::inequality::Ineq;
use crate::row::Row;
use std::alloc::{AllocError, Global};
use trop_scalar::Scalar;

type NoMemory = AllocError;

// The rows at which the inequality is true.
fn kept_rows<S: Scalar>(
    alloc: Global,
    rows: &[Row<S>],
    ineq: &Ineq<S>,
) -> Result<Vec<Row<S>>, NoMemory>
    requires { All (CanStep S.ring ineq.now) rows.now }
    ensures { IfOk result (λ out. AreChosen (IsTrueAt S.ring ineq.now) rows.now out.items) }
{
    let mut out = Vec::new(alloc);
    for row in rows {
        if ineq.holds(row) {
            out.push(row.copy(alloc)?)?;
        }
    }
    Ok(out)
}

// The rows at which it is not.
fn dropped_rows<S: Scalar>(
    alloc: Global,
    rows: &[Row<S>],
    ineq: &Ineq<S>,
) -> Result<Vec<Row<S>>, NoMemory>
    requires { All (CanStep S.ring ineq.now) rows.now }
    ensures { IfOk result (λ out. AreChosen (λ w. IsTrueAt S.ring ineq.now w → ⊥) rows.now out.items) }
{
    let mut out = Vec::new(alloc);
    for row in rows {
        if !ineq.holds(row) {
            out.push(row.copy(alloc)?)?;
        }
    }
    Ok(out)
}

/// The mixed row of a kept and a dropped row, in normal form: the left sum of the dropped row times the kept row, plus
/// the right sum of the kept row times the dropped row. The inequality is true at the kept row and false at the other.
pub fn mixed_row<S: Scalar>(
    alloc: Global,
    kept: &Row<S>,
    dropped: &Row<S>,
    ineq: &Ineq<S>,
) -> Result<Row<S>, NoMemory>
    requires { CanMix S.ring ineq.now kept.now dropped.now }
    ensures { IfOk result (λ row. Normalises S.ring
        (mixed S.ring ineq.now.left ineq.now.right kept.now dropped.now) row) }
{
    let mut row = kept.copy(alloc)?;
    row.scale(dropped.dot(ineq.left()));
    row.join_into(dropped, kept.dot(ineq.right()));
    let _is_normal = row.normalise();
    Ok(row)
}

// The mixed rows of one kept row and each dropped row in turn.
fn mixed_rows<S: Scalar>(
    alloc: Global,
    kept: &Row<S>,
    dropped: &[Row<S>],
    ineq: &Ineq<S>,
) -> Result<Vec<Row<S>>, NoMemory>
    requires { All (CanMix S.ring ineq.now kept.now) dropped.now }
    ensures { IfOk result (λ out. AllZip (λ w x. Normalises S.ring
        (mixed S.ring ineq.now.left ineq.now.right kept.now w) x) dropped.now out.items) }
{
    let mut out = Vec::new(alloc);
    for row in dropped {
        out.push(mixed_row(alloc, kept, row, ineq)?)?;
    }
    Ok(out)
}

// The new rows of one kept row.
fn fresh_of<S: Scalar>(
    alloc: Global,
    kept: &Row<S>,
    dropped: &[Row<S>],
    ineq: &Ineq<S>,
) -> Result<Vec<Row<S>>, NoMemory>
    requires step { CanStep S.ring ineq.now kept.now }
    requires mix { All (CanMix S.ring ineq.now kept.now) dropped.now }
    ensures { IfOk result (λ out. AreMixedOf S.ring ineq.now dropped.now kept.now out.items) }
{
    if is_zero(kept.dot(ineq.right())) {
        Ok(Vec::new(alloc))
    } else {
        mixed_rows(alloc, kept, dropped, ineq)
    }
}

// The new rows of each kept row in turn.
fn fresh_rows<S: Scalar>(
    alloc: Global,
    kept: &[Row<S>],
    dropped: &[Row<S>],
    ineq: &Ineq<S>,
) -> Result<Vec<Row<S>>, NoMemory>
    requires step { All (CanStep S.ring ineq.now) kept.now }
    requires mix { All (λ v. All (CanMix S.ring ineq.now v) dropped.now) kept.now }
    ensures { IfOk result (λ out. AreMixed S.ring ineq.now dropped.now kept.now out.items) }
{
    let mut out = Vec::new(alloc);
    for row in kept {
        let mut front = fresh_of(alloc, row, dropped, ineq)?;
        out.append(&mut front)?;
    }
    Ok(out)
}

/// The elementary step, which adds an inequality to the cone that the rows generate (Allamigeon, Gaubert, Goubault,
/// The tropical double description method, 2010).
///
/// The answer has the rows at which the inequality is true, in their order. Behind them stand, for each of these rows
/// whose right side is finite and each other row, in turn, the mixed row in normal form. Nothing is filtered.
pub fn step_all<S: Scalar>(
    alloc: Global,
    gens: &Gens<S>,
    ineq: &Ineq<S>,
) -> Result<Gens<S>, NoMemory>
    requires wide { IsIn gens.now.n ineq.now }
    requires few { length gens.now.rows ≤ 2 ^ 15 }
    requires row_sizes { rows_size S.ring gens.now.rows ≤ most_mixed }
    requires size { inequality_size S.ring ineq.now ≤ most_coefficient }
    requires finite { All (λ row. row ≢ bottom S.ring gens.now.n) gens.now.rows }
    ensures width { IfOk result (λ out. out.n ≡ gens.now.n) }
    ensures list { IfOk result (λ out. IsStepList S.ring ineq.now gens.now.rows out.rows) }
    ensures guard { IfOk result (λ out. (x : List S) → IsCombination S.ring gens.now.n out.rows x ↔
        InGuard S.ring (IsCombination S.ring gens.now.n gens.now.rows) ineq.now x) }
    ensures sizes { IfOk result (λ out. rows_size S.ring out.rows ≤ most_entry) }
{
    let rows = gens.as_slice();
    let mut out = kept_rows(alloc, rows, ineq)?;
    let dropped = dropped_rows(alloc, rows, ineq)?;
    let mut fresh = fresh_rows(alloc, out.as_slice(), dropped.as_slice(), ineq)?;
    out.append(&mut fresh)?;
    Ok(Gens::from_rows(gens.n(), out))
}
