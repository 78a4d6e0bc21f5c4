//! The closed matrix of bounds that have a state: each way over a coordinate is looked at in the pass of that
//! coordinate, so it takes time in the cube of the coordinates. A pass at most doubles the numbers, which is why bounds
//! have 128 bits.
ghost use Rattle.std.specs.Prelude.{◌≡◌, ℕ, ◌*◌, ◌^◌, ◌<◌, ◌≤◌, ◌++◌, suc, length, OnOk, IfOk};
ghost use Rattle.prog_theory.specs.States.{State};
ghost use Rattle.zone_theory.specs.Matrices.{InZone};
ghost use Rattle.zone_tables.specs.Tables.{matrix_of, row_of, table_of, apart, IsTable};
ghost use Rattle.zone_tables.specs.Sizes.{AreWithin};
ghost use Rattle.zone_tables.specs.Passes.{passed, IsClosing};

use crate::bounds::{smaller, sum};
use crate::tables::{Table, bound_at};
use std::alloc::{AllocError, Global};

type NoMemory = AllocError;

// The bound after the pass of k, none where the coordinates are equal.
fn passed_bound(bounds: &[Option<i128>], side: usize, k: usize, i: usize, j: usize) -> Option<i128>
    requires square { length bounds.now ≡ side * side }
    requires few { side ≤ 64 }
    requires within { AreWithin (2 ^ 120) bounds.now }
    requires way { k < side }
    requires row { i < side }
    requires column { j < side }
    ensures { result ≡ apart (passed (matrix_of side bounds.now) k) i j }
{
    if i == j {
        return None;
    }
    let way = sum(bound_at(bounds, side, i, k), bound_at(bounds, side, k, j));
    smaller(bound_at(bounds, side, i, j), way)
}

// Appends row i of the matrix after the pass of k.
fn push_passed_row(
    out: &mut Vec<Option<i128>>,
    bounds: &[Option<i128>],
    side: usize,
    k: usize,
    i: usize,
) -> Result<(), NoMemory>
    requires square { length bounds.now ≡ side * side }
    requires few { side ≤ 64 }
    requires within { AreWithin (2 ^ 120) bounds.now }
    requires way { k < side }
    requires row { i < side }
    ensures { OnOk result (out.new.items ≡ out.old.items
        ++ row_of (apart (passed (matrix_of side bounds.now) k)) i side) }
{
    for j in 0..side {
        out.push(passed_bound(bounds, side, k, i, j))?;
    }
    Ok(())
}

// The matrix after the pass of k.
fn passed_table(
    alloc: Global,
    bounds: &[Option<i128>],
    side: usize,
    k: usize,
) -> Result<Table, NoMemory>
    requires square { length bounds.now ≡ side * side }
    requires few { side ≤ 64 }
    requires within { AreWithin (2 ^ 120) bounds.now }
    requires way { k < side }
    ensures { IfOk result (λ t. t ≡ table_of side (passed (matrix_of side bounds.now) k)) }
{
    let mut out = Vec::new(alloc);
    for i in 0..side {
        push_passed_row(&mut out, bounds, side, k, i)?;
    }
    Ok(Table::of(out))
}

/// The closed matrix of the zone of the bounds, which has a state (Miné, A new numerical abstract domain based on
/// difference-bound matrices, 2001; the passes: Floyd, Algorithm 97: Shortest path, 1962).
pub fn closed_table(alloc: Global, bounds: &[Option<i128>], vars: usize) -> Result<Table, NoMemory>
    requires few { vars ≤ 63 }
    requires table { IsTable (suc vars) bounds.now }
    requires within { AreWithin (2 ^ 40) bounds.now }
    requires some { (s : State) × InZone vars (matrix_of (suc vars) bounds.now) s }
    ensures { IfOk result (λ t. IsClosing vars bounds.now t) }
{
    let side = vars + 1;
    let mut table = Table::copied(alloc, bounds)?;
    for k in 0..side {
        table = passed_table(alloc, table.as_slice(), side, k)?;
    }
    Ok(table)
}
