//! Whether the cone of the entry is everything.
ghost use Rattle.std.specs.Prelude.{◌≡◌, ◌↔◌, ◌≤◌, List, IsTrue, IfOk};
ghost use Rattle.trop_theory.specs.Vectors.{rows_size};
ghost use Rattle.trop_theory.specs.Combinations.{IsCombination};
ghost use Rattle.trop_cones.specs.Sets.{IsVector};
ghost use Rattle.prog_check.specs.Limits.{most_row};

use std::alloc::{AllocError, Global};
use trop_row::{Gens, Row, member};
use trop_scalar::Scalar;

type NoMemory = AllocError;

/// Whether each vector is a combination of the rows: it is so where each unit row is one.
pub(crate) fn is_whole<S: Scalar>(alloc: Global, rows: &Gens<S>) -> Result<bool, NoMemory>
    requires size { rows_size S.ring rows.now.rows ≤ most_row }
    ensures { IfOk result (λ whole. IsTrue whole ↔ ((x : List S) → IsVector rows.now.n x
        → IsCombination S.ring rows.now.n rows.now.rows x)) }
{
    let _rows = rows.as_slice();
    let n = rows.n();
    for i in 0..n {
        let unit = Row::unit(alloc, n, i)?;
        if !member(rows, &unit) {
            return Ok(false);
        }
    }
    Ok(true)
}
