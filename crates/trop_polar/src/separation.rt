// Whether a row is a combination of others, with an inequality that shows it where it is none.
ghost use Rattle.std.specs.Prelude.{◌≡◌, ◌^◌, ◌≤◌, ◌↔◌, IfOk, IfSome, IsNone, length};
ghost use Rattle.trop_theory.specs.Vectors.{row_size, rows_size};
ghost use Rattle.trop_theory.specs.Combinations.{IsCombination};
ghost use Rattle.trop_duality.specs.Separation.{Separates};

use crate::barrier::barrier;
use std::alloc::{AllocError, Global};
use trop_row::{Gens, Ineq, Row, first_unmet};
use trop_scalar::Scalar;

type NoMemory = AllocError;

/// An inequality that is true at every combination of the rows of the list and false at the row; none exactly where the
/// row is such a combination.
///
/// Its left side is the unit row of the first coordinate `t` at which the row is finite and that no multiple of a row of
/// the list meets from below; its right side has the zero at `t` (Cohen, Gaubert, Quadrat, Duality and separation
/// theorems in idempotent semimodules, 2004).
pub fn separate<S: Scalar>(
    alloc: Global,
    gens: &Gens<S>,
    row: &Row<S>,
) -> Result<Option<Ineq<S>>, NoMemory>
    requires wide { length row.now ≡ gens.now.n }
    requires row_sizes { rows_size S.ring gens.now.rows ≤ 2 ^ 57 }
    requires row_size { row_size S.ring row.now ≤ 2 ^ 57 }
    ensures none { IfOk result (λ found. IsNone found ↔ IsCombination S.ring gens.now.n gens.now.rows row.now) }
    ensures some { IfOk result (λ found. IfSome found (Separates S.ring gens.now.n gens.now.rows row.now)) }
{
    match first_unmet(gens, row) {
        None => Ok(None),
        Some(t) => {
            let left = Row::unit(alloc, gens.n(), t)?;
            let right = barrier(alloc, gens.as_slice(), row, t)?;
            Ok(Some(Ineq::new(left, right)))
        }
    }
}
