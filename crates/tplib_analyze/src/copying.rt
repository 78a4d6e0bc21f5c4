//! Copies of lists of rows.
ghost use Rattle.std.specs.Prelude.{◌≡◌, ◌++◌, IfOk, OnOk};

use std::alloc::{AllocError, Global};
use trop_row::{Gens, Row};
use trop_scalar::Scalar;

// Appends copies of the rows.
fn append_copies<S: Scalar>(
    alloc: Global,
    out: &mut Vec<Row<S>>,
    rows: &[Row<S>],
) -> Result<(), AllocError>
    ensures { OnOk result (out.new.items ≡ out.old.items ++ rows.now) }
{
    for row in rows {
        out.push(row.copy(alloc)?)?;
    }
    Ok(())
}

/// A copy of the list.
pub(crate) fn copied<S: Scalar>(alloc: Global, gens: &Gens<S>) -> Result<Gens<S>, AllocError>
    ensures width { IfOk result (λ out. out.n ≡ gens.now.n) }
    ensures rows { IfOk result (λ out. out.rows ≡ gens.now.rows) }
{
    let mut rows = Vec::new(alloc);
    append_copies(alloc, &mut rows, gens.as_slice())?;
    Ok(Gens::from_rows(gens.n(), rows))
}
