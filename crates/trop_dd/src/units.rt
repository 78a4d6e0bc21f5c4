// The unit rows, with which every conversion begins.
ghost use Rattle.std.specs.Prelude.{◌≡◌, ◌-◌, ◌<◌, ◌≤◌, ℕ, [], List, All, IfOk, length, slice_index, slice_set, slice_index_or};
ghost use Rattle.trop_theory.specs.Vectors.{AreWide, bottom};
ghost use Rattle.trop_pruning.specs.Judged.{IsSide};
ghost use Rattle.trop_dd.specs.Carried.{AreBeside};
ghost use Rattle.trop_dd.specs.Numbers.{AreNumbers};
ghost use Rattle.trop_dd.specs.Description.{Describes};
ghost use Rattle.trop_dd.specs.Units.{IsUnitRow};

use std::alloc::{AllocError, Global};
use trop_hyper::Mask;
use trop_pairs::{Carried, RowWords};
use trop_row::Row;
use trop_scalar::Scalar;

// The unit rows in their order, the one of the last coordinate first.
pub fn unit_rows<S: Scalar>(alloc: Global, n: u32) -> Result<Vec<Row<S>>, AllocError>
    requires at_most { n ≤ 64 }
    ensures described { IfOk result (λ rows. Describes S.ring n [] rows.items) }
    ensures wide { IfOk result (λ rows. AreWide n rows.items) }
    ensures units { IfOk result (λ rows. All (IsUnitRow S.ring n) rows.items) }
    ensures count { IfOk result (λ rows. length rows.items ≡ n) }
    ensures order { IfOk result (λ rows. (k : ℕ) (d : List S) → k < n →
        slice_index_or rows.items k d ≡ slice_set (bottom S.ring n) (n - 1 - k) S.ring.one) }
{
    let mut rows = Vec::new(alloc);
    for k in 0..n {
        rows.push(Row::unit(alloc, n, n - 1 - k)?)?;
    }
    Ok(rows)
}

// The unit row of the coordinate with what is carried beside it.
fn unit_side<S: Scalar>(alloc: Global, row: &Row<S>, i: u32) -> Result<Carried<S>, AllocError>
    requires within { i < length row.now }
    requires at_most { length row.now ≤ 64 }
    requires unit { row.now ≡ slice_set (bottom S.ring (length row.now)) i S.ring.one }
    ensures row { IfOk result (λ side. side.row ≡ row.now) }
    ensures side { IfOk result (IsSide S.ring (length row.now) []) }
{
    let only = Mask::empty().with(i);
    Ok(Carried {
        row: row.copy(alloc)?,
        words: RowWords {
            support: only,
            types: only,
            cover: Mask::empty(),
        },
        slots: Vec::new(alloc),
        places: Vec::new(alloc),
    })
}

// The unit rows in their order, with what is carried beside them.
pub fn unit_sides<S: Scalar>(
    alloc: Global,
    n: u32,
    rows: &[Row<S>],
) -> Result<Vec<Carried<S>>, AllocError>
    requires at_most { n ≤ 64 }
    requires count { length rows.now ≡ n }
    requires wide { AreWide n rows.now }
    requires order { (k : ℕ) (d : List S) → k < n →
        slice_index_or rows.now k d ≡ slice_set (bottom S.ring n) (n - 1 - k) S.ring.one }
    ensures { IfOk result (λ sides. AreBeside S.ring n [] rows.now sides.items) }
{
    let mut sides = Vec::with_capacity(alloc, rows.len())?;
    for k in 0..n {
        sides.push(unit_side(alloc, &rows[k as usize], n - 1 - k)?)?;
    }
    Ok(sides)
}

// The numbers of so many rows that stand in their order.
pub fn unit_numbers(alloc: Global, many: usize) -> Result<Vec<usize>, AllocError>
    ensures numbers { IfOk result (λ order. AreNumbers many order.items) }
    ensures count { IfOk result (λ order. length order.items ≡ many) }
    ensures same { IfOk result (λ order. (k : ℕ) → k < many → slice_index order.items k ≡ k) }
{
    let mut order = Vec::with_capacity(alloc, many)?;
    for k in 0..many {
        order.push(k)?;
    }
    Ok(order)
}
