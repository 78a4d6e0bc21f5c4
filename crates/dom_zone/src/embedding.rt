//! A zone as inequalities between scaled coordinates.
ghost use Rattle.std.specs.Prelude.{◌≡◌, ◌≢◌, ◌≤◌, ◌<◌, ◌+◌, ◌^◌, ◌↔◌, ◌++◌, ◌∷◌, suc, map, length, Some, OnOk, IfOk};
ghost use Rattle.trop_theory.specs.MaxPlus.{max_ring, max_numbering};
ghost use Rattle.trop_theory.specs.Inequalities.{IsIn, Solves};
ghost use Rattle.prog_theory.specs.States.{State};
ghost use Rattle.cone_reports.specs.Vectors.{vector};
ghost use Rattle.zone_theory.specs.Matrices.{Matrix};
ghost use Rattle.zone_theory.specs.Limits as limits;
ghost use Rattle.zone_theory.specs.Embedding.{inequality, system};
ghost use Rattle.zone_theory.specs.Domain.{HasState};
ghost use Rattle.zone_tables.specs.Sizes.{IsBetween};
ghost use Rattle.zone_lists.specs.Zones.{matrix_in, matrix_if, zone_of, empty};
ghost use Rattle.dom_zone.specs.Values.{IsSmallTable};

use crate::value::{ZoneDomain, number_at};
use std::alloc::{AllocError, Global};
use trop_row::{Ineq, Row, System};
use trop_scalar::MaxInt;
use zone_tables::Table;

type NoMemory = AllocError;

// The inequality that the first of n coordinates is at most the second with the number added.
fn limit_inequality(
    alloc: Global,
    n: u32,
    high: u32,
    low: u32,
    most: i64,
) -> Result<Ineq<MaxInt>, NoMemory>
    requires few { n ≤ 64 }
    requires high { high < n }
    requires low { low < n }
    requires number { IsBetween (2 ^ 40) most }
    ensures inequality { IfOk result (λ made. made ≡ inequality max_ring max_numbering n
        (record { high = high; low = low; most = most })) }
    ensures inside { IfOk result (λ made. IsIn n made) }
{
    let left = Row::unit(alloc, n, high)?;
    let mut right = Row::bottom(alloc, n)?;
    right.set(low, MaxInt::of(most));
    Ok(Ineq::new(left, right))
}

// Appends the inequality of the bound at the pair, if it is one of different coordinates with a number.
fn push_bound(
    out: &mut System<MaxInt>,
    alloc: Global,
    bounds: &Table,
    vars: u32,
    i: u32,
    j: u32,
) -> Result<(), NoMemory>
    requires few { vars ≤ 63 }
    requires sound { IsSmallTable vars bounds.now }
    requires row { i ≤ vars }
    requires column { j ≤ vars }
    requires width { out.old.n ≡ suc vars }
    requires room { length out.old.inequalities < 2 ^ 31 }
    ensures list { OnOk result (out.new.inequalities ≡ out.old.inequalities ++ map
        (inequality max_ring max_numbering (suc vars)) (limits.number i j (matrix_in vars bounds.now i j))) }
    ensures same { out.new.n ≡ out.old.n }
{
    if i == j {
        return Ok(());
    }
    match number_at(bounds, vars, i, j) {
        None => Ok(()),
        Some(most) => out.push(limit_inequality(alloc, vars + 1, i, j, most)?),
    }
}

// Appends those of row i.
fn push_row(
    out: &mut System<MaxInt>,
    alloc: Global,
    bounds: &Table,
    vars: u32,
    i: u32,
) -> Result<(), NoMemory>
    requires few { vars ≤ 63 }
    requires sound { IsSmallTable vars bounds.now }
    requires row { i ≤ vars }
    requires width { out.old.n ≡ suc vars }
    requires room { length out.old.inequalities ≤ 2 ^ 30 }
    ensures list { OnOk result (out.new.inequalities ≡ out.old.inequalities ++ map
        (inequality max_ring max_numbering (suc vars)) (limits.row (matrix_in vars bounds.now) i (suc vars))) }
    ensures same { out.new.n ≡ out.old.n }
{
    for j in 0..vars + 1 {
        push_bound(out, alloc, bounds, vars, i, j)?;
    }
    Ok(())
}

// The inequalities of a matrix.
fn system_of(alloc: Global, bounds: &Table, vars: u32) -> Result<System<MaxInt>, NoMemory>
    requires few { vars ≤ 63 }
    requires sound { IsSmallTable vars bounds.now }
    ensures list { IfOk result (λ made. made.inequalities ≡ system max_ring max_numbering vars
        (matrix_in vars bounds.now)) }
    ensures width { IfOk result (λ made. made.n ≡ suc vars) }
{
    let mut out = System::new(alloc, vars + 1);
    for i in 0..vars + 1 {
        push_row(&mut out, alloc, bounds, vars, i)?;
    }
    Ok(out)
}

impl ZoneDomain {
    /// For each number of the closed matrix, in order of i and then j, the inequality that coordinate i is at most
    /// coordinate j with the number added.
    pub fn embed(&self, alloc: Global) -> Result<System<MaxInt>, NoMemory>
        requires some { ¬ self.now ≡ empty self.now.vars }
        ensures width { IfOk result (λ made. made.n ≡ suc self.now.vars) }
        ensures list { (m : Matrix) → matrix_if self.now.vars self.now.bounds ≡ Some m →
            IfOk result (λ made. made.inequalities ≡ system max_ring max_numbering self.now.vars m) }
        ensures states { (s : State) → length s ≡ self.now.vars → IfOk result (λ made.
            Solves max_ring (suc self.now.vars) made.inequalities (vector max_ring max_numbering s)
            ↔ HasState (zone_of self.now) s) }
    {
        match &self.bounds {
            None => Ok(System::new(alloc, self.vars + 1)),
            Some(bounds) => system_of(alloc, bounds, self.vars),
        }
    }
}
