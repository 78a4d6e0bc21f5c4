//! The values: how one is kept, how it is made, and what it tells.
ghost use Rattle.std.specs.Prelude.{◌≡◌, ◌≤◌, ◌^◌, ◌≢◌, ◌↔◌, None, Some, IsTrue, IfOk};
ghost use Rattle.std.specs.Bool.{OnTrue, OnFalse};
ghost use Rattle.zone_theory.specs.Domain.{HasState, zone_width, max_width, Within};
ghost use Rattle.zone_theory.specs.Matrices.{Matrix};
ghost use Rattle.zone_theory.specs.Closed.{IsGreatest};
ghost use Rattle.zone_theory.specs.Width.{numbers};
ghost use Rattle.zone_tables.specs.Passes.{IsClosing};
ghost use Rattle.zone_tables.specs.Sizes.{IsWithin};
ghost use Rattle.zone_lists.specs.Zones.{matrix_in, matrix_if, zone_of, empty, whole};
ghost use Rattle.dom_zone.specs.Values.{IsClosedIf, IsSmallTable, IsSound};
ghost use Rattle.dom_zone.specs.Widened.{IsBasis};
ghost use Rattle.dom_zone.specs.Answers.{HasLargeIf, AreSmallIf, IsFitted, IsFittedWith};

use dom_core::{At, DomErr};
use std::alloc::{AllocError, Global};
use std::marker::Model;
use zone_tables::{Table, bound_at, count_numbers, has_large, is_stronger};

type NoMemory = AllocError;

/// A zone over a number of variables (Miné, A new numerical abstract domain based on difference-bound matrices, 2001):
/// the empty one, or the states whose differences keep the bounds of a closed matrix, each number of size at most 2^40;
/// and from the first widening on the bounds that were kept. Coordinate 0 has the value 0, and coordinate i from 1 on
/// is the i-th variable. Contracts see the number of variables and the two matrices.
#[derive(Drop)]
pub struct ZoneDomain {
    pub(crate) vars: u32,
    pub(crate) bounds: Option<Table>,
    pub(crate) kept: Option<Table>,
}

impl Model for ZoneDomain {
    ghost use Rattle.zone_lists.specs.Zones.{ZoneList};
    ghost use Rattle.dom_zone.specs.Values.{IsSound};

    ghost Value = { ZoneList };

    ghost view = { λ a. record { vars = a.vars; bounds = a.bounds; kept = a.kept } };

    ghost invariant = { λ a. IsSound a.vars a.bounds a.kept };
}

// A copy of the bounds, if there are some.
fn copied_table(alloc: Global, table: &Option<Table>) -> Result<Option<Table>, NoMemory>
    ensures { IfOk result (λ t. t ≡ table.now) }
{
    match table {
        None => Ok(None),
        Some(bounds) => Ok(Some(Table::copied(alloc, bounds.as_slice())?)),
    }
}

// The width of a value without kept bounds: more than there are pairs of different coordinates.
pub(crate) fn greatest_width(vars: u32) -> u64
    requires { vars ≤ 63 }
    ensures { result ≡ max_width vars }
{
    let vars = vars as u64;
    (vars + 1) * vars + 1
}

// Whether the matrix, if there is one, has a number of too great a size.
fn has_large_if(made: &Option<Table>) -> bool
    ensures yes { OnTrue result (HasLargeIf made.now) }
    ensures no { OnFalse result (AreSmallIf made.now) }
{
    match made {
        None => false,
        Some(bounds) => has_large(bounds.as_slice()),
    }
}

// The bound in 64 bits.
fn narrowed(bound: Option<i128>) -> Option<i64>
    requires { IsWithin (2 ^ 40) bound }
    ensures { result ≡ bound }
{
    match bound {
        None => None,
        Some(number) => Some(number as i64),
    }
}

// The bound at two different coordinates.
pub(crate) fn number_at(bounds: &Table, vars: u32, i: u32, j: u32) -> Option<i64>
    requires few { vars ≤ 63 }
    requires sound { IsSmallTable vars bounds.now }
    requires row { i ≤ vars }
    requires column { j ≤ vars }
    requires apart { i ≢ j }
    ensures bound { result ≡ matrix_in vars bounds.now i j }
    ensures small { IsWithin (2 ^ 40) result }
{
    let bound = bound_at(bounds.as_slice(), vars as usize + 1, i as usize, j as usize);
    narrowed(bound)
}

impl ZoneDomain {
    // The value without states.
    pub(crate) fn bottom(vars: u32) -> ZoneDomain
        requires { vars ≤ 63 }
        ensures { result ≡ empty vars }
    {
        ZoneDomain {
            vars,
            bounds: None,
            kept: None,
        }
    }

    // The value with all states.
    pub(crate) fn top(alloc: Global, vars: u32) -> Result<ZoneDomain, NoMemory>
        requires { vars ≤ 63 }
        ensures { IfOk result (λ x. x ≡ whole vars) }
    {
        let bounds = Table::free(alloc, vars as usize + 1)?;
        Ok(ZoneDomain {
            vars,
            bounds: Some(bounds),
            kept: None,
        })
    }

    // The zone of the closed matrix, if one was made, where its numbers are small.
    pub(crate) fn fitted(vars: u32, made: Option<Table>) -> Result<ZoneDomain, DomErr>
        requires few { vars ≤ 63 }
        requires closed { IsClosedIf vars made }
        ensures { IsFitted vars made result }
    {
        if has_large_if(&made) {
            return Err(DomErr::Range(At::Whole));
        }
        Ok(ZoneDomain {
            vars,
            bounds: made,
            kept: None,
        })
    }

    // The zone of the closed matrix with the bounds that were kept, where its numbers are small.
    pub(crate) fn fitted_with(vars: u32, bounds: Table, kept: Table) -> Result<ZoneDomain, DomErr>
        requires few { vars ≤ 63 }
        requires basis { IsBasis vars kept }
        requires closing { IsClosing vars kept bounds }
        ensures { IsFittedWith vars bounds kept (numbers vars (matrix_in vars kept)) result }
    {
        if has_large(bounds.as_slice()) {
            let count = count_numbers(kept.as_slice(), vars as usize);
            return Err(DomErr::Range(At::Kept(count)));
        }
        Ok(ZoneDomain {
            vars,
            bounds: Some(bounds),
            kept: Some(kept),
        })
    }

    // The same value.
    pub(crate) fn copied(&self, alloc: Global) -> Result<ZoneDomain, NoMemory>
        ensures { IfOk result (λ x. x ≡ self.now) }
    {
        Ok(ZoneDomain {
            vars: self.vars,
            bounds: copied_table(alloc, &self.bounds)?,
            kept: copied_table(alloc, &self.kept)?,
        })
    }

    // Whether it is the value without states.
    pub(crate) fn is_nothing(&self) -> bool
        ensures { IsTrue result ↔ (self.now ≡ empty self.now.vars) }
    {
        self.bounds.is_none()
    }

    // Whether its states lie in the other.
    pub(crate) fn lies_in(&self, other: &ZoneDomain) -> bool
        requires { self.now.vars ≡ other.now.vars }
        ensures { IsTrue result ↔ Within (zone_of self.now) (zone_of other.now) }
    {
        match &self.bounds {
            None => true,
            Some(bounds) => match &other.bounds {
                None => false,
                Some(others) => is_stronger(bounds.as_slice(), others.as_slice()),
            },
        }
    }

    // The number of kept bounds, or more where there are none.
    pub(crate) fn kept_width(&self) -> u64
        ensures { result ≡ zone_width (zone_of self.now) }
    {
        match &self.kept {
            None => greatest_width(self.vars),
            Some(kept) => count_numbers(kept.as_slice(), self.vars as usize) as u64,
        }
    }

    /// The number of variables; one more than that are the coordinates.
    pub fn vars(&self) -> u32
        ensures value { result ≡ self.now.vars }
        ensures few { result ≤ 63 }
        ensures keeps { IsSound self.now.vars self.now.bounds self.now.kept }
    {
        self.vars
    }

    /// The greatest difference of coordinates i and j over the states of the zone, which is their bound in the closed
    /// matrix, and None where the differences exceed each number. It takes no memory.
    pub fn bound(&self, i: u32, j: u32) -> Option<i64>
        requires some { ¬ self.now ≡ empty self.now.vars }
        requires row { i ≤ self.now.vars }
        requires column { j ≤ self.now.vars }
        requires apart { i ≢ j }
        ensures greatest { IsGreatest (HasState (zone_of self.now)) i j result }
        ensures matrix { (m : Matrix) → matrix_if self.now.vars self.now.bounds ≡ Some m → result ≡ m i j }
    {
        match &self.bounds {
            None => None,
            Some(bounds) => number_at(bounds, self.vars, i, j),
        }
    }
}
