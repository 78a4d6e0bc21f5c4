//! The matrices that come of a closed one by forgetting a coordinate, by an assignment and by one more bound. Each
//! takes time in the square of the coordinates.
ghost use Rattle.std.specs.Prelude.{◌≡◌, ◌≢◌, ◌*◌, ◌^◌, ◌<◌, ◌≤◌, ◌++◌, length, OnOk, IfOk};
ghost use Rattle.zone_theory.specs.Assigning.{source, shift, assigned};
ghost use Rattle.zone_theory.specs.Adding.{added};
ghost use Rattle.zone_theory.specs.Forgetting.{forgotten};
ghost use Rattle.zone_tables.specs.Tables.{matrix_of, row_of, table_of, apart};
ghost use Rattle.zone_tables.specs.Sizes.{IsBetween, AreWithin};
ghost use Rattle.zone_tables.specs.Changes.{changed, IsIn};

use crate::bounds::{smaller, sum};
use crate::tables::{Table, bound_at};
use std::alloc::{AllocError, Global};

type NoMemory = AllocError;

/// How a matrix of bounds is changed. Coordinates are numbered from 0.
#[derive(Clone, Copy, Debug, PartialEq, Eq)]
pub enum Change {
    /// Nothing is known of the coordinate any more.
    Forget(usize),
    /// The first coordinate takes the value of the second, with the number added.
    Assign(usize, usize, i128),
    /// The first coordinate exceeds the second by at most the number.
    Add(usize, usize, i128),
}

// The bound without those of the coordinate.
fn forgotten_bound(
    bounds: &[Option<i128>],
    side: usize,
    var: usize,
    i: usize,
    j: usize,
) -> Option<i128>
    requires square { length bounds.now ≡ side * side }
    requires few { side ≤ 64 }
    requires row { i < side }
    requires column { j < side }
    requires apart { i ≢ j }
    ensures { result ≡ forgotten (matrix_of side bounds.now) var i j }
{
    if i == var || j == var {
        None
    } else {
        bound_at(bounds, side, i, j)
    }
}

// Which coordinate a coordinate takes its value from.
fn source_of(var: usize, from: usize, i: usize) -> usize
    ensures { result ≡ source var from i }
{
    if i == var { from } else { i }
}

// What is added to it.
fn shift_of(var: usize, add: i128, i: usize) -> i128
    ensures { result ≡ shift var add i }
{
    if i == var { add } else { 0 }
}

// The bound after an assignment.
fn assigned_bound(
    bounds: &[Option<i128>],
    side: usize,
    var: usize,
    from: usize,
    add: i128,
    i: usize,
    j: usize,
) -> Option<i128>
    requires square { length bounds.now ≡ side * side }
    requires few { side ≤ 64 }
    requires within { AreWithin (2 ^ 40) bounds.now }
    requires row { i < side }
    requires column { j < side }
    requires from { from < side }
    requires number { IsBetween (2 ^ 40) add }
    ensures { result ≡ assigned (matrix_of side bounds.now) var from add i j }
{
    let bound = bound_at(
        bounds,
        side,
        source_of(var, from, i),
        source_of(var, from, j),
    );
    let high = shift_of(var, add, i);
    let low = shift_of(var, add, j);
    sum(bound, Some(high - low))
}

// The bound after one more is added: a way may lead over the new bound once.
fn added_bound(
    bounds: &[Option<i128>],
    side: usize,
    high: usize,
    low: usize,
    most: i128,
    i: usize,
    j: usize,
) -> Option<i128>
    requires square { length bounds.now ≡ side * side }
    requires few { side ≤ 64 }
    requires within { AreWithin (2 ^ 40) bounds.now }
    requires row { i < side }
    requires column { j < side }
    requires high { high < side }
    requires low { low < side }
    requires number { IsBetween (2 ^ 40) most }
    ensures { result ≡ added (matrix_of side bounds.now) high low most i j }
{
    let before = sum(bound_at(bounds, side, i, high), Some(most));
    let way = sum(before, bound_at(bounds, side, low, j));
    smaller(bound_at(bounds, side, i, j), way)
}

// The bound after the change, none where the coordinates are equal.
fn changed_bound(
    bounds: &[Option<i128>],
    side: usize,
    change: &Change,
    i: usize,
    j: usize,
) -> Option<i128>
    requires square { length bounds.now ≡ side * side }
    requires few { side ≤ 64 }
    requires within { AreWithin (2 ^ 40) bounds.now }
    requires inside { IsIn side change.now }
    requires row { i < side }
    requires column { j < side }
    ensures { result ≡ apart (changed change.now (matrix_of side bounds.now)) i j }
{
    if i == j {
        return None;
    }
    match change {
        Change::Forget(var) => forgotten_bound(bounds, side, *var, i, j),
        Change::Assign(var, from, add) => assigned_bound(bounds, side, *var, *from, *add, i, j),
        Change::Add(high, low, most) => added_bound(bounds, side, *high, *low, *most, i, j),
    }
}

// Appends row i of the changed matrix.
fn push_row(
    out: &mut Vec<Option<i128>>,
    bounds: &[Option<i128>],
    side: usize,
    change: &Change,
    i: usize,
) -> Result<(), NoMemory>
    requires square { length bounds.now ≡ side * side }
    requires few { side ≤ 64 }
    requires within { AreWithin (2 ^ 40) bounds.now }
    requires inside { IsIn side change.now }
    requires row { i < side }
    ensures { OnOk result (out.new.items ≡ out.old.items
        ++ row_of (apart (changed change.now (matrix_of side bounds.now))) i side) }
{
    for j in 0..side {
        out.push(changed_bound(bounds, side, change, i, j))?;
    }
    Ok(())
}

/// The changed matrix.
pub fn changed_table(
    alloc: Global,
    bounds: &[Option<i128>],
    side: usize,
    change: &Change,
) -> Result<Table, NoMemory>
    requires square { length bounds.now ≡ side * side }
    requires few { side ≤ 64 }
    requires within { AreWithin (2 ^ 40) bounds.now }
    requires inside { IsIn side change.now }
    ensures { IfOk result (λ t. t ≡ table_of side (changed change.now (matrix_of side bounds.now))) }
{
    let mut out = Vec::new(alloc);
    for i in 0..side {
        push_row(&mut out, bounds, side, change, i)?;
    }
    Ok(Table::of(out))
}
