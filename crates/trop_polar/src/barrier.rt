// The right side of an inequality that separates a row from a list of rows, entry by entry.
ghost use Rattle.std.specs.Prelude.{◌≡◌, ◌≢◌, ◌^◌, ◌<◌, ◌≤◌, ◌↔◌, IsTrue, IfOk, length};
ghost use Rattle.trop_theory.specs.Vectors.{entry, row_size, rows_size, AreWide};
ghost use Rattle.trop_duality.specs.Barriers.{IsHigh, IsBarrierAt, IsBarrier};

use std::alloc::{AllocError, Global};
use trop_row::Row;
use trop_scalar::Scalar;

type NoMemory = AllocError;

// Whether it is the zero.
fn is_zero<S: Scalar>(x: S) -> bool
    ensures { IsTrue result ↔ (x ≡ S.ring.zero) }
{
    x == S::zero()
}

// The multiple that takes entry j to entry t.
fn quotient<S: Scalar>(row: &Row<S>, t: u32, j: u32) -> S
    requires at { t < length row.now }
    requires within { j < length row.now }
    requires finite { entry S.ring row.now j ≢ S.ring.zero }
    requires size { row_size S.ring row.now ≤ 2 ^ 57 }
    ensures value { result ≡ S.ring.times (entry S.ring row.now t) (S.ring.inverse (entry S.ring row.now j)) }
    ensures small { S.ring.size result ≤ 2 ^ 58 }
{
    row.get(t).times(row.get(j).inverse())
}

// As much as the rows need at coordinate j: their entries t are at most this times their entries j.
fn high_enough<S: Scalar>(rows: &[Row<S>], n: u32, t: u32, j: u32) -> S
    requires wide { AreWide n rows.now }
    requires at { t < n }
    requires within { j < n }
    requires size { rows_size S.ring rows.now ≤ 2 ^ 57 }
    ensures { IsHigh S.ring rows.now t j result }
{
    let mut high = S::zero();
    for row in rows {
        if !is_zero(row.get(j)) {
            high = high.plus(quotient(row, t, j));
        }
    }
    high
}

// Entry j of the right side.
fn barrier_entry<S: Scalar>(rows: &[Row<S>], row: &Row<S>, t: u32, j: u32) -> S
    requires wide { AreWide (length row.now) rows.now }
    requires at { t < length row.now }
    requires within { j < length row.now }
    requires finite { entry S.ring row.now t ≢ S.ring.zero }
    requires row_sizes { rows_size S.ring rows.now ≤ 2 ^ 57 }
    requires row_size { row_size S.ring row.now ≤ 2 ^ 57 }
    ensures { IsBarrierAt S.ring rows.now row.now t j result }
{
    if j == t {
        return S::zero();
    }
    let here = row.get(j);
    if is_zero(here) {
        high_enough(rows, row.len(), t, j)
    } else {
        S::delta().times(row.get(t)).times(here.inverse())
    }
}

// The right side.
pub fn barrier<S: Scalar>(
    alloc: Global,
    rows: &[Row<S>],
    row: &Row<S>,
    t: u32,
) -> Result<Row<S>, NoMemory>
    requires wide { AreWide (length row.now) rows.now }
    requires at { t < length row.now }
    requires finite { entry S.ring row.now t ≢ S.ring.zero }
    requires row_sizes { rows_size S.ring rows.now ≤ 2 ^ 57 }
    requires row_size { row_size S.ring row.now ≤ 2 ^ 57 }
    ensures { IfOk result (λ side. IsBarrier S.ring (length row.now) rows.now row.now t side) }
{
    let mut side = Row::bottom(alloc, row.len())?;
    for j in 0..row.len() {
        side.set(j, barrier_entry(rows, row, t, j));
    }
    Ok(side)
}
