//! Which inequalities of a list are valid on a cone.
ghost use Rattle.std.specs.Prelude.{◌≡◌, ◌≤◌, IfOk};
ghost use Rattle.trop_theory.specs.Vectors.{rows_size};
ghost use Rattle.trop_theory.specs.Inequalities.{IsValidOn, system_size};
ghost use Rattle.trop_theory.specs.Combinations.{IsCombination};
ghost use Rattle.trop_theory.specs.StepList.{AreChosen};
ghost use Rattle.cone_domain.specs.Refused.{most_value};
ghost use Rattle.dom_poly.specs.Kept.{most_kept};

use cone_claims::is_valid;
use std::alloc::{AllocError, Global};
use trop_row::{Gens, System};
use trop_scalar::Scalar;

type NoMemory = AllocError;

// Those inequalities of the list that are valid on the combinations of the rows, in order.
pub(crate) fn valid_part<S: Scalar>(
    alloc: Global,
    list: &System<S>,
    rows: &Gens<S>,
) -> Result<System<S>, NoMemory>
    requires width { list.now.n ≡ rows.now.n }
    requires small { rows_size S.ring rows.now.rows ≤ most_value }
    requires numbers { system_size S.ring list.now.inequalities ≤ most_kept }
    ensures width { IfOk result (λ part. part.n ≡ list.now.n) }
    ensures chosen { IfOk result (λ part.
        AreChosen (IsValidOn S.ring (IsCombination S.ring rows.now.n rows.now.rows)) list.now.inequalities
        part.inequalities) }
{
    let inequalities = list.as_slice();
    let mut part = System::new(alloc, list.n());
    for ineq in inequalities {
        if is_valid(ineq, rows) {
            part.push(ineq.copy(alloc)?)?;
        }
    }
    Ok(part)
}
