//! How many numbers a matrix has.
ghost use Rattle.std.specs.Prelude.{◌≡◌, ◌*◌, ◌<◌, ◌≤◌, suc, length};
ghost use Rattle.zone_theory.specs.Width.{cell, total, numbers};
ghost use Rattle.zone_tables.specs.Tables.{matrix_of};

use crate::tables::bound_at;

// 1 at different coordinates with a number, else 0.
fn weight_at(bounds: &[Option<i128>], side: usize, i: usize, j: usize) -> u32
    requires square { length bounds.now ≡ side * side }
    requires few { side ≤ 64 }
    requires row { i < side }
    requires column { j < side }
    ensures { result ≡ cell (matrix_of side bounds.now) i j }
{
    if i == j {
        return 0;
    }
    match bound_at(bounds, side, i, j) {
        None => 0,
        Some(_) => 1,
    }
}

// The numbers in row i.
fn count_row(bounds: &[Option<i128>], side: usize, i: usize) -> u32
    requires square { length bounds.now ≡ side * side }
    requires few { side ≤ 64 }
    requires row { i < side }
    ensures { result ≡ total (cell (matrix_of side bounds.now) i) side }
{
    let mut count = 0;
    for j in 0..side {
        count += weight_at(bounds, side, i, j);
    }
    count
}

/// The numbers at different coordinates.
pub fn count_numbers(bounds: &[Option<i128>], vars: usize) -> u32
    requires few { vars ≤ 63 }
    requires square { length bounds.now ≡ suc vars * suc vars }
    ensures { result ≡ numbers vars (matrix_of (suc vars) bounds.now) }
{
    let side = vars + 1;
    let mut count = 0;
    for i in 0..side {
        count += count_row(bounds, side, i);
    }
    count
}
