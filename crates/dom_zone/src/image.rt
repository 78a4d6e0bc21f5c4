//! The image of a zone by an operation of a program, and the join of two zones.
ghost use Rattle.std.specs.Prelude.{◌≡◌, ◌+◌, ◌^◌, ◌≤◌, ◌↔◌, Some, IsTrue, IfOk};
ghost use Rattle.prog_theory.specs.Each.{EachOp};
ghost use Rattle.prog_theory.specs.Fits.{FitsOp};
ghost use Rattle.prog_theory.specs.Within.{IsNumberWithin};
ghost use Rattle.prog_theory.specs.Edges.{Guards};
ghost use Rattle.prog_graph.specs.Views.{op_of};
ghost use Rattle.prog_tree.specs.Terms.{term_of};
ghost use Rattle.zone_theory.specs.Adding.{Admits};
ghost use Rattle.dom_theory.specs.Relations.{Apply, Join};
ghost use Rattle.dom_core.specs.Answers.{IsAnswer};
ghost use Rattle.zone_tables.specs.Sizes.{IsBetween};
ghost use Rattle.dom_zone.specs.Values.{IsSmallTable, IsSmallIf, IsMoved, IsMet};
ghost use Rattle.zone_lists.specs.Zones.{matrix_in, matrix_if, zone_lists};

use crate::value::ZoneDomain;
use dom_core::DomErr;
use prog_graph::Op;
use prog_tree::Term;
use std::alloc::{AllocError, Global};
use zone_tables::{Change, Table, bound_at, changed_table, is_at_most, joined_table};

type NoMemory = AllocError;

// Whether the bound that the first coordinate exceeds the second by at most the number leaves a state.
fn is_admitted(bounds: &[Option<i128>], vars: usize, high: usize, low: usize, most: i128) -> bool
    requires few { vars ≤ 63 }
    requires sound { IsSmallTable vars bounds.now }
    requires high { high ≤ vars }
    requires low { low ≤ vars }
    requires number { IsBetween (2 ^ 40) most }
    ensures { IsTrue result ↔ Admits (matrix_in vars bounds.now) high low most }
{
    let back = bound_at(bounds, vars + 1, low, high);
    !is_at_most(back, -most - 1)
}

// The states of the zone in which the left term is at most the right one.
fn guarded(
    alloc: Global,
    bounds: &[Option<i128>],
    vars: usize,
    left: &Term,
    right: &Term,
) -> Result<Option<Table>, NoMemory>
    requires few { vars ≤ 63 }
    requires sound { IsSmallTable vars bounds.now }
    requires fits { FitsOp vars (Guards (term_of left.now) (term_of right.now)) }
    requires left { IsNumberWithin (2 ^ 31 + 1) (term_of left.now) }
    requires right { IsNumberWithin (2 ^ 31 + 1) (term_of right.now) }
    ensures { IfOk result (λ made.
        IsMoved vars (Guards (term_of left.now) (term_of right.now)) (Some (matrix_in vars bounds.now)) made) }
{
    let high = left.coord as usize;
    let low = right.coord as usize;
    let most = i128::from(right.add) - i128::from(left.add);
    if !is_admitted(bounds, vars, high, low, most) {
        return Ok(None);
    }
    let table = changed_table(alloc, bounds, vars + 1, &Change::Add(high, low, most))?;
    Ok(Some(table))
}

// What the operation makes of the states of the zone.
fn moved(
    alloc: Global,
    bounds: &[Option<i128>],
    vars: usize,
    op: &Op,
) -> Result<Option<Table>, NoMemory>
    requires few { vars ≤ 63 }
    requires sound { IsSmallTable vars bounds.now }
    requires fits { FitsOp vars (op_of op.now) }
    requires numbers { EachOp (λ x. Unit {0}) (IsNumberWithin (2 ^ 31 + 1)) (op_of op.now) }
    ensures { IfOk result (λ made. IsMoved vars (op_of op.now) (Some (matrix_in vars bounds.now)) made) }
{
    match op {
        Op::Skip => Ok(Some(Table::copied(alloc, bounds)?)),
        Op::Set { var, value } => {
            let change = Change::Assign(*var as usize, value.coord as usize, i128::from(value.add));
            Ok(Some(changed_table(alloc, bounds, vars + 1, &change)?))
        }
        Op::Havoc { var } => {
            let change = Change::Forget(*var as usize);
            Ok(Some(changed_table(alloc, bounds, vars + 1, &change)?))
        }
        Op::Guard { left, right } => guarded(alloc, bounds, vars, left, right),
    }
}

// The join of two zones, each by its matrix, if it has one.
fn met(
    alloc: Global,
    left: &Option<Table>,
    right: &Option<Table>,
    vars: usize,
) -> Result<Option<Table>, NoMemory>
    requires few { vars ≤ 63 }
    requires left { IsSmallIf vars left.now }
    requires right { IsSmallIf vars right.now }
    ensures { IfOk result (λ made. IsMet vars (matrix_if vars left.now) (matrix_if vars right.now) made) }
{
    match left {
        None => match right {
            None => Ok(None),
            Some(bounds) => Ok(Some(Table::copied(alloc, bounds.as_slice())?)),
        },
        Some(bounds) => match right {
            None => Ok(Some(Table::copied(alloc, bounds.as_slice())?)),
            Some(others) => Ok(Some(joined_table(alloc, bounds.as_slice(), others.as_slice())?)),
        },
    }
}

impl ZoneDomain {
    // The image by the operation.
    pub(crate) fn image_by(&self, alloc: Global, op: &Op) -> Result<ZoneDomain, DomErr>
        requires fits { FitsOp self.now.vars (op_of op.now) }
        requires numbers { EachOp (λ x. Unit {0}) (IsNumberWithin (2 ^ 31 + 1)) (op_of op.now) }
        ensures { IsAnswer zone_lists (Apply (op_of op.now) self.now) result }
    {
        match &self.bounds {
            None => Ok(ZoneDomain::bottom(self.vars)),
            Some(bounds) => match moved(alloc, bounds.as_slice(), self.vars as usize, op) {
                Ok(made) => ZoneDomain::fitted(self.vars, made),
                Err(_) => Err(DomErr::NoMemory),
            },
        }
    }

    // The join with the other.
    pub(crate) fn joined_with(
        &self,
        alloc: Global,
        other: &ZoneDomain,
    ) -> Result<ZoneDomain, DomErr>
        requires { self.now.vars ≡ other.now.vars }
        ensures { IsAnswer zone_lists (Join self.now other.now) result }
    {
        match met(alloc, &self.bounds, &other.bounds, self.vars as usize) {
            Ok(made) => ZoneDomain::fitted(self.vars, made),
            Err(_) => Err(DomErr::NoMemory),
        }
    }
}
