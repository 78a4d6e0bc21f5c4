//! The sample as a system of inequalities.
ghost use Rattle.std.specs.Prelude.{◌≡◌, ◌+◌, ◌^◌, ◌<◌, ◌≤◌, IfOk};
ghost use Rattle.trop_theory.specs.Inequalities.{system_size};
ghost use Rattle.trop_scalar.specs.MaxPlus.{max_ring};
ghost use Rattle.trop_sample.specs.Samples.{sample_of};

use crate::draws::Draws;
use crate::inequality::next_inequality;
use std::alloc::{AllocError, Global};
use trop_row::System;
use trop_scalar::MaxInt;

type NoMemory = AllocError;

/// The sample of this seed in `vars` variables, with `rows` inequalities. Its coefficients are from -10 to 10.
pub fn make(alloc: Global, seed: u32, vars: u32, rows: u32) -> Result<System<MaxInt>, NoMemory>
    requires seed { seed < 2 ^ 31 }
    requires at_least { 1 ≤ vars }
    requires at_most { vars ≤ 31 }
    requires rows { rows ≤ 1024 }
    ensures width { IfOk result (λ system. system.n ≡ vars + 1) }
    ensures inequalities { IfOk result (λ system. system.inequalities ≡ sample_of seed vars rows) }
    ensures size { IfOk result (λ system. system_size max_ring system.inequalities ≤ 10) }
{
    let n = vars + 1;
    let mut draws = Draws::from_seed(seed);
    let mut system = System::new(alloc, n);
    for _k in 0..rows {
        system.push(next_inequality(alloc, &mut draws, n)?)?;
    }
    Ok(system)
}
