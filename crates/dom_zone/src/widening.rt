//! The widening, which keeps bounds and never closes them before it keeps them again.
ghost use Rattle.std.specs.Prelude.{◌≡◌, ◌≤◌, Some, IfOk};
ghost use Rattle.std.specs.Option.{unwrap_or};
ghost use Rattle.zone_theory.specs.Domain.{Within};
ghost use Rattle.dom_theory.specs.Relations.{Widen};
ghost use Rattle.dom_core.specs.Answers.{IsAnswer};
ghost use Rattle.zone_lists.specs.Zones.{zone_of, zone_lists, empty};
ghost use Rattle.dom_zone.specs.Values.{IsSmallTable, AreKeptIf};
ghost use Rattle.dom_zone.specs.Widened.{IsBasis, IsLeft, IsSolved};

use crate::value::ZoneDomain;
use dom_core::DomErr;
use std::alloc::{AllocError, Global};
use zone_tables::{Table, closed_table, kept_table};

type NoMemory = AllocError;

// The bounds that a widening begins with: the kept ones, and at the first widening those of the matrix.
fn first_bounds<'a>(bounds: &'a Table, kept: &'a Option<Table>) -> &'a Table
    ensures { result.now ≡ unwrap_or kept.now bounds.now }
{
    match kept {
        None => bounds,
        Some(kept) => kept,
    }
}

// Of these those that hold on the zone reached.
fn left_bounds(
    alloc: Global,
    bounds: &Table,
    kept: &Option<Table>,
    reached: &Table,
    vars: usize,
) -> Result<Table, NoMemory>
    requires few { vars ≤ 63 }
    requires sound { IsSmallTable vars bounds.now }
    requires kept { AreKeptIf vars (Some bounds.now) kept.now }
    requires reached { IsSmallTable vars reached.now }
    ensures { IfOk result (λ left. IsLeft vars bounds.now kept.now reached.now left) }
{
    let first = first_bounds(bounds, kept);
    kept_table(alloc, first.as_slice(), reached.as_slice())
}

// The zone of the bounds, which are kept.
fn solved(alloc: Global, vars: u32, kept: Table) -> Result<ZoneDomain, DomErr>
    requires few { vars ≤ 63 }
    requires basis { IsBasis vars kept }
    ensures { IsSolved vars kept result }
{
    match closed_table(alloc, kept.as_slice(), vars as usize) {
        Ok(bounds) => ZoneDomain::fitted_with(vars, bounds, kept),
        Err(_) => Err(DomErr::NoMemory),
    }
}

impl ZoneDomain {
    // What it becomes where the next zone leaves it. Neither is then empty.
    pub(crate) fn widened_by(&self, alloc: Global, next: &ZoneDomain) -> Result<ZoneDomain, DomErr>
        requires vars { self.now.vars ≡ next.now.vars }
        requires leaves { ¬ Within (zone_of next.now) (zone_of self.now) }
        requires more { ¬ self.now ≡ empty self.now.vars }
        ensures { IsAnswer zone_lists (Widen self.now next.now) result }
    {
        match &self.bounds {
            None => Ok(ZoneDomain::bottom(self.vars)),
            Some(bounds) => match &next.bounds {
                None => Ok(ZoneDomain::bottom(self.vars)),
                Some(reached) => {
                    match left_bounds(alloc, bounds, &self.kept, reached, self.vars as usize) {
                        Ok(kept) => solved(alloc, self.vars, kept),
                        Err(_) => Err(DomErr::NoMemory),
                    }
                }
            },
        }
    }
}
