//! The rows that an operation of a program makes of rows, in normal form.
ghost use Rattle.std.specs.Prelude.{◌≡◌, ◌≢◌, ◌+◌, ◌-◌, ◌^◌, ◌<◌, ◌≤◌, [], ◌∷◌, ◌++◌, List, IfOk, OnOk, All, length, map, slice_set};
ghost use Rattle.trop_theory.specs.Vectors.{bottom, entry, row_size, rows_size, AreWide};
ghost use Rattle.trop_theory.specs.StepList.{IsStepList};
ghost use Rattle.trop_theory.specs.Sizes.{most_entry, most_scaled};
ghost use Rattle.trop_cones.specs.Sets.{assigned};
ghost use Rattle.prog_theory.specs.Fits.{FitsTerm};
ghost use Rattle.prog_theory.specs.Within.{IsNumberWithin};
ghost use Rattle.prog_tree.specs.Terms.{term_of};
ghost use Rattle.prog_graph.specs.Views.{op_of};
ghost use Rattle.cone_reports.specs.Sides.{guard_inequality};
ghost use Rattle.cone_reports.specs.EdgeLists.{AreNormalised, unit_row, IsMovedList};
ghost use Rattle.prog_check.specs.Limits.{most_row, most_rows, most_add};
ghost use Rattle.prog_check.specs.Movable.{IsMovable};

use cone_claims::guard_inequality;
use prog_graph::Op;
use prog_tree::Term;
use std::alloc::{AllocError, Global};
use trop_row::{Gens, Row, step_all};
use trop_scalar::{Numeric, Scalar};

type NoMemory = AllocError;

// The number of the term.
fn number_of<S: Numeric>(term: &Term) -> S
    requires number { IsNumberWithin most_add (term_of term.now) }
    ensures value { result ≡ S.numbering.of term.now.add }
    ensures size { S.ring.size result ≤ most_add }
{
    S::of_number(term.add)
}

// Appends the row in normal form; nothing where each entry is the zero.
fn push_normal<S: Scalar>(rows: &mut Vec<Row<S>>, row: Row<S>) -> Result<(), NoMemory>
    requires size { row_size S.ring row ≤ most_entry }
    ensures { OnOk result ((olds : List (List S)) → AreNormalised S.ring olds rows.old.items
        → AreNormalised S.ring (olds ++ row ∷ []) rows.new.items) }
{
    let mut row = row;
    if row.normalise() {
        rows.push(row)?;
    }
    Ok(())
}

// The row with entry i replaced by c times its entry at `from`.
fn assigned_row<S: Scalar>(
    alloc: Global,
    row: &Row<S>,
    i: u32,
    from: u32,
    c: S,
) -> Result<Row<S>, NoMemory>
    requires within { i < length row.now }
    requires inside { from < length row.now }
    requires size { row_size S.ring row.now + S.ring.size c ≤ most_scaled }
    ensures value { IfOk result (λ next. next ≡ assigned S.ring i from c row.now) }
    ensures size { IfOk result (λ next. row_size S.ring next ≤ most_scaled) }
{
    let mut next = row.copy(alloc)?;
    next.set(i, c.times(row.get(from)));
    Ok(next)
}

// The rows so changed, in normal form.
fn assigned_rows<S: Scalar>(
    alloc: Global,
    rows: &[Row<S>],
    n: u32,
    i: u32,
    from: u32,
    c: S,
) -> Result<Vec<Row<S>>, NoMemory>
    requires wide { AreWide n rows.now }
    requires within { i < n }
    requires inside { from < n }
    requires size { rows_size S.ring rows.now + S.ring.size c ≤ most_scaled }
    ensures { IfOk result (λ out. AreNormalised S.ring (map (assigned S.ring i from c) rows.now) out.items) }
{
    let mut out = Vec::new(alloc);
    for row in rows {
        push_normal(&mut out, assigned_row(alloc, row, i, from, c)?)?;
    }
    Ok(out)
}

// The row with entry i cleared.
fn cleared_row<S: Scalar>(alloc: Global, row: &Row<S>, i: u32) -> Result<Row<S>, NoMemory>
    requires within { i < length row.now }
    requires size { row_size S.ring row.now ≤ most_scaled }
    ensures value { IfOk result (λ next. next ≡ slice_set row.now i S.ring.zero) }
    ensures size { IfOk result (λ next. row_size S.ring next ≤ most_scaled) }
{
    let mut next = row.copy(alloc)?;
    next.set(i, S::zero());
    Ok(next)
}

// The rows with entry i cleared, in normal form.
fn cleared_rows<S: Scalar>(
    alloc: Global,
    rows: &[Row<S>],
    n: u32,
    i: u32,
) -> Result<Vec<Row<S>>, NoMemory>
    requires wide { AreWide n rows.now }
    requires within { i < n }
    requires size { rows_size S.ring rows.now ≤ most_scaled }
    ensures { IfOk result (λ out. AreNormalised S.ring (map (λ g. slice_set g i S.ring.zero) rows.now) out.items) }
{
    let mut out = Vec::new(alloc);
    for row in rows {
        push_normal(&mut out, cleared_row(alloc, row, i)?)?;
    }
    Ok(out)
}

// The same rows.
fn copied<S: Scalar>(alloc: Global, rows: &[Row<S>]) -> Result<Vec<Row<S>>, NoMemory>
    ensures { IfOk result (λ out. out.items ≡ rows.now) }
{
    let mut out = Vec::new(alloc);
    for row in rows {
        out.push(row.copy(alloc)?)?;
    }
    Ok(out)
}

// The list of an assignment.
fn assigned_list<S: Numeric>(
    alloc: Global,
    gens: &Gens<S>,
    var: u32,
    value: &Term,
) -> Result<Gens<S>, NoMemory>
    requires within { var < gens.now.n }
    requires inside { value.now.coord < gens.now.n }
    requires number { IsNumberWithin most_add (term_of value.now) }
    requires size { rows_size S.ring gens.now.rows ≤ most_row }
    ensures width { IfOk result (λ out. out.n ≡ gens.now.n) }
    ensures list { IfOk result (λ out. AreNormalised S.ring
        (map (assigned S.ring var value.now.coord (S.numbering.of value.now.add)) gens.now.rows) out.rows) }
    ensures size { IfOk result (λ out. rows_size S.ring out.rows ≤ most_entry) }
{
    let n = gens.n();
    let rows = assigned_rows(
        alloc,
        gens.as_slice(),
        n,
        var,
        value.coord,
        number_of(value),
    )?;
    Ok(Gens::from_rows(n, rows))
}

// The list where the variable takes any number.
fn forgotten_list<S: Scalar>(alloc: Global, gens: &Gens<S>, var: u32) -> Result<Gens<S>, NoMemory>
    requires within { var < gens.now.n }
    requires few { length gens.now.rows ≤ most_rows }
    requires size { rows_size S.ring gens.now.rows ≤ most_row }
    ensures width { IfOk result (λ out. out.n ≡ gens.now.n) }
    ensures list { IfOk result (λ out. (front : List (List S))
        × AreNormalised S.ring (map (λ g. slice_set g var S.ring.zero) gens.now.rows) front
        × (out.rows ≡ front ++ unit_row S.ring gens.now.n var ∷ [])) }
    ensures size { IfOk result (λ out. rows_size S.ring out.rows ≤ most_entry) }
{
    let n = gens.n();
    let mut rows = cleared_rows(alloc, gens.as_slice(), n, var)?;
    rows.push(Row::unit(alloc, n, var)?)?;
    Ok(Gens::from_rows(n, rows))
}

// The list of a guard.
fn guarded_list<S: Numeric>(
    alloc: Global,
    gens: &Gens<S>,
    left: &Term,
    right: &Term,
) -> Result<Gens<S>, NoMemory>
    requires left_fits { FitsTerm (gens.now.n - 1) (term_of left.now) }
    requires right_fits { FitsTerm (gens.now.n - 1) (term_of right.now) }
    requires left_number { IsNumberWithin most_add (term_of left.now) }
    requires right_number { IsNumberWithin most_add (term_of right.now) }
    requires few { length gens.now.rows ≤ most_rows }
    requires size { rows_size S.ring gens.now.rows ≤ most_row }
    requires finite { All (λ row. row ≢ bottom S.ring gens.now.n) gens.now.rows }
    ensures width { IfOk result (λ out. out.n ≡ gens.now.n) }
    ensures list { IfOk result (λ out. IsStepList S.ring
        (guard_inequality S.ring S.numbering S.REVERSED gens.now.n (term_of left.now) (term_of right.now))
        gens.now.rows out.rows) }
    ensures size { IfOk result (λ out. rows_size S.ring out.rows ≤ most_entry) }
{
    let ineq = guard_inequality(alloc, gens.n(), left, right)?;
    step_all(alloc, gens, &ineq)
}

// The list of no operation.
fn same_list<S: Scalar>(alloc: Global, gens: &Gens<S>) -> Result<Gens<S>, NoMemory>
    ensures width { IfOk result (λ out. out.n ≡ gens.now.n) }
    ensures list { IfOk result (λ out. out.rows ≡ gens.now.rows) }
{
    let rows = copied(alloc, gens.as_slice())?;
    Ok(Gens::from_rows(gens.n(), rows))
}

/// The rows that the operation makes of the rows, in the order that reports prescribe.
pub(crate) fn moved_list<S: Numeric>(
    alloc: Global,
    gens: &Gens<S>,
    op: &Op,
) -> Result<Gens<S>, NoMemory>
    requires movable { IsMovable S.ring gens.now.n (op_of op.now) gens.now.rows }
    ensures width { IfOk result (λ out. out.n ≡ gens.now.n) }
    ensures list { IfOk result (λ out. IsMovedList S.ring S.numbering S.REVERSED gens.now.n (op_of op.now)
        gens.now.rows out.rows) }
    ensures size { IfOk result (λ out. rows_size S.ring out.rows ≤ most_entry) }
{
    match op {
        Op::Skip => same_list(alloc, gens),
        Op::Set { var, value } => assigned_list(alloc, gens, *var, value),
        Op::Havoc { var } => forgotten_list(alloc, gens, *var),
        Op::Guard { left, right } => guarded_list(alloc, gens, left, right),
    }
}
