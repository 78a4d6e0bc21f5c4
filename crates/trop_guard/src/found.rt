// Rows in their order, each once.
ghost use Rattle.std.specs.Prelude.{◌≡◌, ◌⊎◌, ◌+◌, ◌≤◌, All, AllPairs, Contains, IfOk, IfErr, OnOk, insert, length};
ghost use Rattle.trop_theory.specs.Canonical.{RowBelow};

use std::alloc::AllocError;
use trop_row::Row;
use trop_scalar::Scalar;

// Whether the row is in an ascending list; at Err the place where it belongs.
fn place_of<S: Scalar>(rows: &[Row<S>], row: &Row<S>) -> Result<usize, usize>
    requires { AllPairs (RowBelow S.ring) rows.now }
    ensures found { IfOk result (λ _. Contains rows.now row.now) }
    ensures within { IfErr result (λ place. place ≤ length rows.now) }
    ensures place { IfErr result (λ place. AllPairs (RowBelow S.ring) (insert rows.now place row.now)) }
{
    rows.binary_search(row)
}

// Puts the row into its place in an ascending list, where it is not there already.
pub fn admit<S: Scalar>(rows: &mut Vec<Row<S>>, row: Row<S>) -> Result<(), AllocError>
    requires { AllPairs (RowBelow S.ring) rows.old.items }
    ensures ascending { AllPairs (RowBelow S.ring) rows.new.items }
    ensures stay { All (Contains rows.new.items) rows.old.items }
    ensures only { All (λ x. Contains rows.old.items x ⊎ (x ≡ row)) rows.new.items }
    ensures admitted { OnOk result (Contains rows.new.items row) }
{
    if let Err(place) = place_of(rows.as_slice(), &row) {
        rows.insert(place, row)?;
    }
    Ok(())
}
