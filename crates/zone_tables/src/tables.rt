//! Matrices of bounds in lists, row by row.
ghost use Rattle.std.specs.Prelude.{◌≡◌, ◌*◌, ◌<◌, ◌≤◌, ◌++◌, ◌∷◌, [], None, replicate, length, IfOk, OnOk};
ghost use Rattle.zone_theory.specs.Matrices.{entry};
ghost use Rattle.zone_tables.specs.Tables.{matrix_of};

use std::alloc::{AllocError, Global};
use std::marker::Model;

type NoMemory = AllocError;

/// The bounds of a number of coordinates, row by row: none where the coordinates are equal.
#[derive(Drop)]
pub struct Table {
    bounds: Vec<Option<i128>>,
}

impl Model for Table {
    ghost use Rattle.std.specs.Prelude.{List};
    ghost use Rattle.zone_theory.specs.Bounds.{Bound};

    ghost Value = { List Bound };

    ghost view = { λ t. t.bounds.items };
}

impl Table {
    /// The table of these bounds.
    pub fn of(bounds: Vec<Option<i128>>) -> Table
        ensures { result ≡ bounds.items }
    {
        Table { bounds }
    }

    /// No bound at any pair of so many coordinates: the matrix of all states.
    pub fn free(alloc: Global, side: usize) -> Result<Table, NoMemory>
        requires { side ≤ 64 }
        ensures { IfOk result (λ t. t ≡ replicate (side * side) None) }
    {
        Ok(Table::of(vec![in alloc; None; side * side]?))
    }

    /// A table of the same bounds.
    pub fn copied(alloc: Global, bounds: &[Option<i128>]) -> Result<Table, NoMemory>
        ensures { IfOk result (λ t. t ≡ bounds.now) }
    {
        Ok(Table::of(Vec::from_slice(alloc, bounds)?))
    }

    /// The bounds in order.
    pub fn as_slice(&self) -> &[Option<i128>]
        ensures { result.now ≡ self.now }
    {
        self.bounds.as_slice()
    }
}

/// The bound at a pair of coordinates: 0 where they are equal.
pub fn bound_at(bounds: &[Option<i128>], side: usize, i: usize, j: usize) -> Option<i128>
    requires square { length bounds.now ≡ side * side }
    requires few { side ≤ 64 }
    requires row { i < side }
    requires column { j < side }
    ensures { result ≡ entry (matrix_of side bounds.now) i j }
{
    if i == j {
        Some(0)
    } else {
        bounds[i * side + j]
    }
}
