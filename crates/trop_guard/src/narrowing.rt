// The extreme rows after one more inequality.
ghost use Rattle.std.specs.Prelude.{◌≡◌, ◌≢◌, ◌^◌, ◌<◌, ◌≤◌, All, Contains, IfOk, IfErr, OnOk, length};
ghost use Rattle.trop_theory.specs.Vectors.{dot, rows_size};
ghost use Rattle.trop_theory.specs.Normal.{IsNormal, Normalises};
ghost use Rattle.trop_theory.specs.Inequalities.{InGuard, IsIn, inequality_size};
ghost use Rattle.trop_theory.specs.Combinations.{IsCombination};
ghost use Rattle.trop_theory.specs.Canonical.{IsCanonical, row_limit};
ghost use Rattle.trop_theory.specs.Steps.{mixed};
ghost use Rattle.trop_cones.specs.Represents.{Represents};
ghost use Rattle.trop_guard.specs.Parts.{AreParts};
ghost use Rattle.trop_guard.specs.Found.{Smaller, AreFound, HasMixed};
ghost use Rattle.trop_guard.specs.Refusals.{IsRefusedBy};

use crate::error::GuardErr;
use crate::found::admit;
use crate::fresh::is_fresh;
use crate::lower::is_zero;
use crate::parts::{Parts, part};
use std::alloc::{AllocError, Global};
use trop_row::{Gens, Ineq, Row, mixed_row};
use trop_scalar::Scalar;

type NoMemory = AllocError;

// The most rows that a cone may have.
const ROW_LIMIT: usize = 4096;

// Puts the mixed row of a kept row with a finite right side and a dropped row to those that were found, where it is a
// new extreme row.
fn try_pair<S: Scalar>(
    alloc: Global,
    ineq: &Ineq<S>,
    parts: &Parts<S>,
    v: &Row<S>,
    w: &Row<S>,
    found: &mut Vec<Row<S>>,
) -> Result<(), GuardErr>
    requires parts { AreParts S.ring parts.now.kept.n ineq.now parts.now.kept.rows parts.now.rights.items
        parts.now.dropped.rows }
    requires v { Contains parts.now.kept.rows v.now }
    requires w { Contains parts.now.dropped.rows w.now }
    requires finite { dot S.ring ineq.now.right v.now ≢ S.ring.zero }
    requires found { AreFound S.ring parts.now.kept.n ineq.now parts.now.kept.rows parts.now.dropped.rows
        found.old.items }
    requires within { length found.old.items ≤ row_limit }
    ensures found { OnOk result (AreFound S.ring parts.now.kept.n ineq.now parts.now.kept.rows parts.now.dropped.rows
        found.new.items) }
    ensures stay { OnOk result (All (Contains found.new.items) found.old.items) }
    ensures mixed { OnOk result (HasMixed S.ring parts.now.kept.n ineq.now parts.now.kept.rows parts.now.dropped.rows
        found.new.items v.now w.now) }
    ensures within { OnOk result (length found.new.items ≤ row_limit) }
    ensures refused { IfErr result (IsRefusedBy S.ring
        (Smaller S.ring parts.now.kept.n ineq.now parts.now.kept.rows parts.now.dropped.rows)) }
{
    let x = mixed_row(alloc, v, w, ineq)?;
    if is_fresh(ineq, parts, &x) {
        admit(found, x)?;
        if found.len() > ROW_LIMIT {
            return Err(GuardErr::Limit);
        }
    }
    Ok(())
}

// Tries a kept row with a finite right side with each dropped row.
fn try_dropped<S: Scalar>(
    alloc: Global,
    ineq: &Ineq<S>,
    parts: &Parts<S>,
    v: &Row<S>,
    found: &mut Vec<Row<S>>,
) -> Result<(), GuardErr>
    requires parts { AreParts S.ring parts.now.kept.n ineq.now parts.now.kept.rows parts.now.rights.items
        parts.now.dropped.rows }
    requires v { Contains parts.now.kept.rows v.now }
    requires finite { dot S.ring ineq.now.right v.now ≢ S.ring.zero }
    requires found { AreFound S.ring parts.now.kept.n ineq.now parts.now.kept.rows parts.now.dropped.rows
        found.old.items }
    requires within { length found.old.items ≤ row_limit }
    ensures found { OnOk result (AreFound S.ring parts.now.kept.n ineq.now parts.now.kept.rows parts.now.dropped.rows
        found.new.items) }
    ensures stay { OnOk result (All (Contains found.new.items) found.old.items) }
    ensures mixed { OnOk result (All (HasMixed S.ring parts.now.kept.n ineq.now parts.now.kept.rows
        parts.now.dropped.rows found.new.items v.now) parts.now.dropped.rows) }
    ensures within { OnOk result (length found.new.items ≤ row_limit) }
    ensures refused { IfErr result (IsRefusedBy S.ring
        (Smaller S.ring parts.now.kept.n ineq.now parts.now.kept.rows parts.now.dropped.rows)) }
{
    for w in parts.dropped.as_slice() {
        try_pair(alloc, ineq, parts, v, w, found)?;
    }
    Ok(())
}

// Tries a kept row, whose right side is given, with each dropped row. Where it is the zero there is no mixed row.
fn try_kept<S: Scalar>(
    alloc: Global,
    ineq: &Ineq<S>,
    parts: &Parts<S>,
    v: &Row<S>,
    right: S,
    found: &mut Vec<Row<S>>,
) -> Result<(), GuardErr>
    requires parts { AreParts S.ring parts.now.kept.n ineq.now parts.now.kept.rows parts.now.rights.items
        parts.now.dropped.rows }
    requires v { Contains parts.now.kept.rows v.now }
    requires right { right ≡ dot S.ring ineq.now.right v.now }
    requires found { AreFound S.ring parts.now.kept.n ineq.now parts.now.kept.rows parts.now.dropped.rows
        found.old.items }
    requires within { length found.old.items ≤ row_limit }
    ensures found { OnOk result (AreFound S.ring parts.now.kept.n ineq.now parts.now.kept.rows parts.now.dropped.rows
        found.new.items) }
    ensures stay { OnOk result (All (Contains found.new.items) found.old.items) }
    ensures mixed { OnOk result (All (HasMixed S.ring parts.now.kept.n ineq.now parts.now.kept.rows
        parts.now.dropped.rows found.new.items v.now) parts.now.dropped.rows) }
    ensures within { OnOk result (length found.new.items ≤ row_limit) }
    ensures refused { IfErr result (IsRefusedBy S.ring
        (Smaller S.ring parts.now.kept.n ineq.now parts.now.kept.rows parts.now.dropped.rows)) }
{
    if is_zero(right) {
        return Ok(());
    }
    try_dropped(alloc, ineq, parts, v, found)
}

// Tries each kept row.
fn try_all<S: Scalar>(
    alloc: Global,
    ineq: &Ineq<S>,
    parts: &Parts<S>,
    found: &mut Vec<Row<S>>,
) -> Result<(), GuardErr>
    requires parts { AreParts S.ring parts.now.kept.n ineq.now parts.now.kept.rows parts.now.rights.items
        parts.now.dropped.rows }
    requires found { AreFound S.ring parts.now.kept.n ineq.now parts.now.kept.rows parts.now.dropped.rows
        found.old.items }
    requires within { length found.old.items ≤ row_limit }
    ensures found { OnOk result (AreFound S.ring parts.now.kept.n ineq.now parts.now.kept.rows parts.now.dropped.rows
        found.new.items) }
    ensures mixed { OnOk result (All (λ v. All (HasMixed S.ring parts.now.kept.n ineq.now parts.now.kept.rows
        parts.now.dropped.rows found.new.items v) parts.now.dropped.rows) parts.now.kept.rows) }
    ensures within { OnOk result (length found.new.items ≤ row_limit) }
    ensures refused { IfErr result (IsRefusedBy S.ring
        (Smaller S.ring parts.now.kept.n ineq.now parts.now.kept.rows parts.now.dropped.rows)) }
{
    let rows = parts.kept.as_slice();
    let rights = parts.rights.as_slice();
    for k in 0..rows.len() {
        try_kept(alloc, ineq, parts, &rows[k], rights[k], found)?;
    }
    Ok(())
}

// Copies of the rows.
fn copies<S: Scalar>(alloc: Global, rows: &[Row<S>]) -> Result<Vec<Row<S>>, NoMemory>
    ensures { IfOk result (λ out. out.items ≡ rows.now) }
{
    let mut out = Vec::new(alloc);
    for row in rows {
        out.push(row.copy(alloc)?)?;
    }
    Ok(out)
}

/// The canonical list of the vectors of a cone at which an inequality is true, from the canonical list of the cone.
/// `Limit` comes exactly where the smaller cone has more than 4,096 extreme rows.
///
/// They are the rows at which it is true, and those of the mixed rows of the elementary step (Allamigeon, Gaubert,
/// Goubault, The tropical double description method, 2010) that are minimal at some coordinate. Beside the rows it holds
/// copies of them and the rows of the answer, and no list of pairs.
pub fn guard<S: Scalar>(alloc: Global, gens: &Gens<S>, ineq: &Ineq<S>) -> Result<Gens<S>, GuardErr>
    requires inside { IsIn gens.now.n ineq.now }
    requires canonical { IsCanonical S.ring (IsCombination S.ring gens.now.n gens.now.rows) gens.now.rows }
    requires few { length gens.now.rows ≤ row_limit }
    requires sizes { rows_size S.ring gens.now.rows ≤ 2 ^ 57 }
    requires size { inequality_size S.ring ineq.now ≤ 2 ^ 49 }
    ensures width { IfOk result (λ out. out.n ≡ gens.now.n) }
    ensures holds { IfOk result (λ out. Represents S.ring gens.now.n
        (InGuard S.ring (IsCombination S.ring gens.now.n gens.now.rows) ineq.now) out.rows) }
    ensures refused { IfErr result (IsRefusedBy S.ring
        (InGuard S.ring (IsCombination S.ring gens.now.n gens.now.rows) ineq.now)) }
{
    let parts = part(alloc, gens, ineq)?;
    let mut found = copies(alloc, parts.kept.as_slice())?;
    if let Err(err) = try_all(alloc, ineq, &parts, &mut found) {
        return Err(err);
    }
    Ok(Gens::from_rows(gens.n(), found))
}
