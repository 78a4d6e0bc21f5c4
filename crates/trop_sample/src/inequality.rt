//! One inequality of a sample, by a draw for each coordinate.
ghost use Rattle.std.specs.Prelude.{◌≡◌, ◌≤◌, IfOk, OnOk};
ghost use Rattle.trop_sample.specs.Draws.{state_after};
ghost use Rattle.trop_sample.specs.Samples.{inequality_from};

use crate::coefficient::{left_coefficient, right_coefficient};
use crate::draws::Draws;
use std::alloc::{AllocError, Global};
use trop_row::{Ineq, Row};
use trop_scalar::MaxInt;

/// The inequality in `n` coordinates that the next draws give.
pub fn next_inequality(alloc: Global, draws: &mut Draws, n: u32) -> Result<Ineq<MaxInt>, AllocError>
    requires { n ≤ 64 }
    ensures inequality { IfOk result (λ ineq. ineq ≡ inequality_from draws.old n 0) }
    ensures state { OnOk result (draws.new ≡ state_after draws.old n) }
{
    let mut left = Vec::new(alloc);
    let mut right = Vec::new(alloc);
    for _i in 0..n {
        let draw = draws.draw();
        left.push(left_coefficient(draw))?;
        right.push(right_coefficient(draw))?;
    }
    Ok(Ineq::new(
        Row::from_entries(alloc, left.as_slice())?,
        Row::from_entries(alloc, right.as_slice())?,
    ))
}
