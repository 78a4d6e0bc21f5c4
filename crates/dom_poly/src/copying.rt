//! Copies of lists of inequalities.
ghost use Rattle.std.specs.Prelude.{◌≡◌, IfOk};

use std::alloc::{AllocError, Global};
use trop_row::System;
use trop_scalar::Scalar;

// A copy of the list.
pub(crate) fn copied_list<S: Scalar>(
    alloc: Global,
    list: &System<S>,
) -> Result<System<S>, AllocError>
    ensures width { IfOk result (λ out. out.n ≡ list.now.n) }
    ensures same { IfOk result (λ out. out.inequalities ≡ list.now.inequalities) }
{
    let inequalities = list.as_slice();
    let mut out = System::new(alloc, list.n());
    for ineq in inequalities {
        out.push(ineq.copy(alloc)?)?;
    }
    Ok(out)
}
