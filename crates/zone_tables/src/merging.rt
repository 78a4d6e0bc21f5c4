//! Two matrices of bounds, entry by entry.
ghost use Rattle.std.specs.Prelude.{◌≡◌, ℕ, ◌<◌, ◌↔◌, None, length, slice_index_or, IsTrue, IfOk};
ghost use Rattle.zone_theory.specs.Bounds.{most};
ghost use Rattle.zone_tables.specs.Kept.{IsBelow, remaining};
ghost use Rattle.zone_tables.specs.Tables.{AreMade};

use crate::bounds::{greater, is_below, stays};
use crate::tables::Table;
use std::alloc::{AllocError, Global};

type NoMemory = AllocError;

/// The greater bound at each pair.
pub fn joined_table(
    alloc: Global,
    left: &[Option<i128>],
    right: &[Option<i128>],
) -> Result<Table, NoMemory>
    requires { length left.now ≡ length right.now }
    ensures { IfOk result (λ t. AreMade most left.now right.now t) }
{
    let mut out = Vec::new(alloc);
    for k in 0..left.len() {
        out.push(greater(left[k], right[k]))?;
    }
    Ok(Table::of(out))
}

/// Each old bound that is no smaller than what was reached at its pair; none in place of any other.
pub fn kept_table(
    alloc: Global,
    old: &[Option<i128>],
    reached: &[Option<i128>],
) -> Result<Table, NoMemory>
    requires { length old.now ≡ length reached.now }
    ensures { IfOk result (λ t. AreMade remaining old.now reached.now t) }
{
    let mut out = Vec::new(alloc);
    for k in 0..old.len() {
        out.push(stays(old[k], reached[k]))?;
    }
    Ok(Table::of(out))
}

/// Whether each bound is as strong as the other at its pair.
pub fn is_stronger(bounds: &[Option<i128>], others: &[Option<i128>]) -> bool
    requires { length bounds.now ≡ length others.now }
    ensures { IsTrue result ↔ ((k : ℕ) → k < length bounds.now →
        IsBelow (slice_index_or bounds.now k None) (slice_index_or others.now k None)) }
{
    for k in 0..bounds.len() {
        if !is_below(bounds[k], others[k]) {
            return false;
        }
    }
    true
}
