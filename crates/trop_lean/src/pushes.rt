//! Several inequalities more on a double description.
ghost use Rattle.std.specs.Prelude.{◌≡◌, ◌+◌, ◌^◌, ◌≤◌, ◌++◌, All, OnOk, IfErr, length};
ghost use Rattle.trop_theory.specs.Sizes.{most_coefficient};
ghost use Rattle.trop_theory.specs.Inequalities.{IsIn, system_size};
ghost use Rattle.trop_lean.specs.Fronts.{AreFrontsWithin, IsStoppedAt};

use std::alloc::Global;
use trop_dd::{Dd, DdErr};
use trop_hyper::Looks;
use trop_row::Ineq;
use trop_scalar::Scalar;

/// Pushes copies of the inequalities on a description of which each front is within the limit.
pub fn push_all<S: Scalar>(
    alloc: Global,
    dd: &mut Dd<S>,
    more: &[Ineq<S>],
    looks: &mut Looks,
) -> Result<(), DdErr>
    requires inside { All (IsIn dd.old.n) more.now }
    requires size { system_size S.ring more.now ≤ most_coefficient }
    requires room { length dd.old.system + length more.now ≤ 2 ^ 31 }
    requires fronts { AreFrontsWithin S.ring dd.old.n dd.old.system }
    ensures width { OnOk result (dd.new.n ≡ dd.old.n) }
    ensures system { OnOk result (dd.new.system ≡ dd.old.system ++ more.now) }
    ensures fronts { OnOk result (AreFrontsWithin S.ring dd.old.n (dd.old.system ++ more.now)) }
    ensures stopped { IfErr result (IsStoppedAt S.ring dd.old.n (dd.old.system ++ more.now)) }
    ensures looks { looks.old ≤ looks.new }
{
    if let Err(err) = dd.push_all(alloc, more, looks) {
        return Err(err);
    }
    Ok(())
}
