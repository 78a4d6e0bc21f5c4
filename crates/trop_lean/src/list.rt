//! A lean list with its rows.
ghost use Rattle.std.specs.Prelude.{◌≡◌, ◌^◌, ◌<◌, [], ◌∷◌, ◌++◌, OnOk, length};
ghost use Rattle.trop_theory.specs.Inequalities.{IsIn};

use std::alloc::{AllocError, Global};
use trop_row::{Gens, Ineq, Row, System};
use trop_scalar::Scalar;

/// Inequalities of which none follows from the others, and for each, at its place, a row that makes this one false and
/// every other one true.
#[derive(Drop)]
pub struct LeanList<S: Scalar> {
    /// The inequalities.
    pub kept: System<S>,
    /// Their rows.
    pub rows: Gens<S>,
}

// Appends copies of an inequality and of its row.
pub fn append<S: Scalar>(
    alloc: Global,
    list: &mut LeanList<S>,
    ineq: &Ineq<S>,
    row: &Row<S>,
) -> Result<(), AllocError>
    requires inside { IsIn list.old.kept.n ineq.now }
    requires wide { length row.now ≡ list.old.rows.n }
    requires room { length list.old.kept.inequalities < 2 ^ 31 }
    requires space { length list.old.rows.rows < 2 ^ 31 }
    ensures kept { OnOk result (list.new.kept.inequalities ≡ list.old.kept.inequalities ++ ineq.now ∷ []) }
    ensures rows { OnOk result (list.new.rows.rows ≡ list.old.rows.rows ++ row.now ∷ []) }
    ensures width { list.new.kept.n ≡ list.old.kept.n }
    ensures row_width { list.new.rows.n ≡ list.old.rows.n }
{
    let ineq = ineq.copy(alloc)?;
    let row = row.copy(alloc)?;
    list.kept.push(ineq)?;
    list.rows.push(row)?;
    Ok(())
}
