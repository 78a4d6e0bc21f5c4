// The rows of a cone, parted by an inequality.
ghost use Rattle.std.specs.Prelude.{◌≡◌, ◌^◌, ◌≤◌, IfOk, All, map, length};
ghost use Rattle.trop_theory.specs.Vectors.{dot, row_size, rows_size, AreWide};
ghost use Rattle.trop_theory.specs.Inequalities.{IsTrueAt, IsIn, inequality_size};
ghost use Rattle.trop_theory.specs.StepList.{AreChosen};

use std::alloc::{AllocError, Global};
use trop_row::{Gens, Ineq, Row};
use trop_scalar::Scalar;

type NoMemory = AllocError;

// The rows at which an inequality is true with the sums of its right side, and the others.
#[derive(Drop)]
pub struct Parts<S: Scalar> {
    pub kept: Gens<S>,
    pub rights: Vec<S>,
    pub dropped: Gens<S>,
}

// The rows at which the inequality is true.
fn kept_rows<S: Scalar>(
    alloc: Global,
    rows: &[Row<S>],
    n: u32,
    ineq: &Ineq<S>,
) -> Result<Vec<Row<S>>, NoMemory>
    requires wide { AreWide n rows.now }
    requires inside { IsIn n ineq.now }
    requires sizes { rows_size S.ring rows.now ≤ 2 ^ 57 }
    requires size { inequality_size S.ring ineq.now ≤ 2 ^ 49 }
    ensures { IfOk result (λ out. AreChosen (IsTrueAt S.ring ineq.now) rows.now out.items) }
{
    let mut out = Vec::new(alloc);
    for row in rows {
        if ineq.holds(row) {
            out.push(row.copy(alloc)?)?;
        }
    }
    Ok(out)
}

// The rows at which it is not.
fn dropped_rows<S: Scalar>(
    alloc: Global,
    rows: &[Row<S>],
    n: u32,
    ineq: &Ineq<S>,
) -> Result<Vec<Row<S>>, NoMemory>
    requires wide { AreWide n rows.now }
    requires inside { IsIn n ineq.now }
    requires sizes { rows_size S.ring rows.now ≤ 2 ^ 57 }
    requires size { inequality_size S.ring ineq.now ≤ 2 ^ 49 }
    ensures { IfOk result (λ out. AreChosen (λ w. IsTrueAt S.ring ineq.now w → ⊥) rows.now out.items) }
{
    let mut out = Vec::new(alloc);
    for row in rows {
        if !ineq.holds(row) {
            out.push(row.copy(alloc)?)?;
        }
    }
    Ok(out)
}

// The sums of one side at the rows.
fn sums<S: Scalar>(
    alloc: Global,
    rows: &[Row<S>],
    n: u32,
    side: &Row<S>,
) -> Result<Vec<S>, NoMemory>
    requires wide { AreWide n rows.now }
    requires inside { length side.now ≡ n }
    requires sizes { rows_size S.ring rows.now ≤ 2 ^ 57 }
    requires size { row_size S.ring side.now ≤ 2 ^ 49 }
    ensures { IfOk result (λ out. out.items ≡ map (dot S.ring side.now) rows.now) }
{
    let mut out = Vec::new(alloc);
    for row in rows {
        out.push(row.dot(side))?;
    }
    Ok(out)
}

// Parts the rows.
pub fn part<S: Scalar>(alloc: Global, gens: &Gens<S>, ineq: &Ineq<S>) -> Result<Parts<S>, NoMemory>
    requires inside { IsIn gens.now.n ineq.now }
    requires sizes { rows_size S.ring gens.now.rows ≤ 2 ^ 57 }
    requires size { inequality_size S.ring ineq.now ≤ 2 ^ 49 }
    ensures kept_width { IfOk result (λ parts. parts.kept.n ≡ gens.now.n) }
    ensures dropped_width { IfOk result (λ parts. parts.dropped.n ≡ gens.now.n) }
    ensures kept { IfOk result (λ parts. AreChosen (IsTrueAt S.ring ineq.now) gens.now.rows parts.kept.rows) }
    ensures dropped { IfOk result (λ parts. AreChosen (λ w. IsTrueAt S.ring ineq.now w → ⊥) gens.now.rows
        parts.dropped.rows) }
    ensures rights { IfOk result (λ parts. parts.rights.items ≡ map (dot S.ring ineq.now.right) parts.kept.rows) }
    ensures wide { IfOk result (λ _. AreWide gens.now.n gens.now.rows) }
{
    let n = gens.n();
    let rows = gens.as_slice();
    let kept = kept_rows(alloc, rows, n, ineq)?;
    let dropped = dropped_rows(alloc, rows, n, ineq)?;
    let rights = sums(alloc, kept.as_slice(), n, ineq.right())?;
    Ok(Parts {
        kept: Gens::from_rows(n, kept),
        rights,
        dropped: Gens::from_rows(n, dropped),
    })
}
