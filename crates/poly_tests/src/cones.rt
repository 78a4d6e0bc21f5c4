//! Cones in four coordinates whose rows are written as a text.
ghost use Rattle.std.specs.Prelude.{◌≡◌, ◌≤◌, IfOk};
ghost use Rattle.trop_theory.specs.Vectors.{rows_size};

use row_examples::{rows_of, rows_text, same_text};
use std::alloc::Global;
use std::test::Fail;
use trop_poly::Poly;
use trop_scalar::Scalar;

/// The combinations of the rows.
pub fn cone<S: Scalar>(alloc: Global, rows: &str) -> Result<Poly<S>, Fail>
    ensures width { IfOk result (λ cone. cone.n ≡ 4) }
    ensures size { IfOk result (λ cone. rows_size S.ring cone.rows ≤ 131070) }
{
    let gens = rows_of::<S>(alloc, 4, rows)?;
    Ok(Poly::from_gens(alloc, &gens)?)
}

/// That these are the rows of the cone.
pub fn has_rows<S: Scalar>(
    alloc: Global,
    why: &str,
    wanted: &str,
    cone: &Poly<S>,
) -> Result<(), Fail> {
    same_text(alloc, why, wanted, rows_text(alloc, cone.rows())?.as_str())
}
