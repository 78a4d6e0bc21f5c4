//! A list is made lean, one inequality after another.
ghost use Rattle.std.specs.Prelude.{◌≡◌, ◌-◌, ◌+◌, ◌*◌, ◌^◌, ◌<◌, ◌≤◌, ◌↔◌, ◌∷◌, ◌++◌, ℕ, List, All, OnOk, IfOk, IfErr, length, take};
ghost use Rattle.trop_theory.specs.Vectors.{row_size};
ghost use Rattle.trop_theory.specs.Inequalities.{IsIn, Solves, inequality_size, system_size};
ghost use Rattle.trop_duality.specs.Lean.{IsLean, Certifies};
ghost use Rattle.trop_duality.specs.LeanStops.{IsLeanStop};
ghost use Rattle.trop_lean.specs.Fronts.{AreFrontsWithin, IsStoppedAt};
ghost use Rattle.trop_lean.specs.Turns.{IsTurn};
ghost use Rattle.trop_lean.specs.Refusals.{IsLeanRefusal};

use crate::error::LeanErr;
use crate::failing::first_false;
use crate::list::{LeanList, append};
use crate::pushes::push_all;
use std::alloc::Global;
use trop_dd::{Dd, DdErr};
use trop_hyper::Looks;
use trop_row::{Gens, Ineq, System};
use trop_scalar::Scalar;

// The double description of those that stand and of those behind. It comes from that of a front of those that stand,
// which is brought up to all of them.
fn rest_of<S: Scalar>(
    alloc: Global,
    base: &mut Dd<S>,
    standing: &[Ineq<S>],
    behind: &[Ineq<S>],
    looks: &mut Looks,
) -> Result<Dd<S>, DdErr>
    requires front { base.old.system ≡ take (length base.old.system) standing.now }
    requires fronts { AreFrontsWithin S.ring base.old.n base.old.system }
    requires inside { All (IsIn base.old.n) standing.now }
    requires inside_behind { All (IsIn base.old.n) behind.now }
    requires size { system_size S.ring standing.now ≤ 2 ^ 49 }
    requires size_behind { system_size S.ring behind.now ≤ 2 ^ 49 }
    requires room { length standing.now + length behind.now ≤ 2 ^ 31 }
    ensures base_width { OnOk result (base.new.n ≡ base.old.n) }
    ensures base_system { OnOk result (base.new.system ≡ standing.now) }
    ensures base_fronts { OnOk result (AreFrontsWithin S.ring base.old.n standing.now) }
    ensures width { IfOk result (λ rest. rest.n ≡ base.old.n) }
    ensures system { IfOk result (λ rest. rest.system ≡ standing.now ++ behind.now) }
    ensures fronts { OnOk result (AreFrontsWithin S.ring base.old.n (standing.now ++ behind.now)) }
    ensures stopped { IfErr result (IsStoppedAt S.ring base.old.n (standing.now ++ behind.now)) }
    ensures looks { looks.old ≤ looks.new }
{
    let done = base.system().len() as usize;
    if let Err(err) = push_all(alloc, base, &standing[done..], looks) {
        return Err(err);
    }
    let mut rest = base.copy(alloc)?;
    if let Err(err) = push_all(alloc, &mut rest, behind, looks) {
        return Err(err);
    }
    Ok(rest)
}

// The turn of one inequality, with those behind it.
fn turn<S: Scalar>(
    alloc: Global,
    base: &mut Dd<S>,
    list: &mut LeanList<S>,
    ineq: &Ineq<S>,
    behind: &[Ineq<S>],
    looks: &mut Looks,
) -> Result<(), DdErr>
    requires front { base.old.system ≡ take (length base.old.system) list.old.kept.inequalities }
    requires fronts { AreFrontsWithin S.ring base.old.n base.old.system }
    requires width { list.old.kept.n ≡ base.old.n }
    requires row_width { list.old.rows.n ≡ base.old.n }
    requires inside { IsIn base.old.n ineq.now }
    requires inside_behind { All (IsIn base.old.n) behind.now }
    requires small { inequality_size S.ring ineq.now ≤ 2 ^ 49 }
    requires size { system_size S.ring list.old.kept.inequalities ≤ 2 ^ 49 }
    requires size_behind { system_size S.ring behind.now ≤ 2 ^ 49 }
    requires room { length list.old.kept.inequalities + length behind.now < 2 ^ 31 }
    requires space { length list.old.rows.rows < 2 ^ 31 }
    ensures base_width { OnOk result (base.new.n ≡ base.old.n) }
    ensures base_system { OnOk result (base.new.system ≡ list.old.kept.inequalities) }
    ensures base_fronts { OnOk result (AreFrontsWithin S.ring base.old.n list.old.kept.inequalities) }
    ensures kept_width { list.new.kept.n ≡ list.old.kept.n }
    ensures rows_width { list.new.rows.n ≡ list.old.rows.n }
    ensures turn { OnOk result (IsTurn S.ring base.old.n (list.old.kept.inequalities ++ behind.now) ineq.now
        list.old.kept.inequalities list.old.rows.rows list.new.kept.inequalities list.new.rows.rows) }
    ensures fronts { OnOk result (AreFrontsWithin S.ring base.old.n (list.old.kept.inequalities ++ behind.now)) }
    ensures stopped { IfErr result (IsStoppedAt S.ring base.old.n (list.old.kept.inequalities ++ behind.now)) }
    ensures looks { looks.old ≤ looks.new }
{
    let rest = match rest_of(alloc, base, list.kept.as_slice(), behind, looks) {
        Ok(rest) => rest,
        Err(err) => return Err(err),
    };
    let rows = rest.rows();
    if let Some(k) = first_false(ineq, rows.as_slice()) {
        append(alloc, list, ineq, rows.get(k))?;
    }
    Ok(())
}

/// The lean list of a system. Its inequalities are taken in order, and each is dropped where it is valid on the
/// solutions of the rest, the system as it stands then without it. Else it stays, and its row is the first of the
/// canonical list of the solutions of the rest at which it is false. The list has the solutions of the system, and
/// each row makes its inequality false and the others true. `Rows(k, j)` comes exactly where `k` is the first turn,
/// from 1, at which some front of the rest has more than 4,096 extreme rows, and the first `j` inequalities are the
/// least such front.
pub fn lean<S: Scalar>(
    alloc: Global,
    system: &System<S>,
    looks: &mut Looks,
) -> Result<LeanList<S>, LeanErr>
    requires size { system_size S.ring system.now.inequalities ≤ 2 ^ 49 }
    ensures width { IfOk result (λ list. list.kept.n ≡ system.now.n) }
    ensures row_width { IfOk result (λ list. list.rows.n ≡ system.now.n) }
    ensures lean { IfOk result (λ list. IsLean S.ring system.now.n system.now.inequalities list.kept.inequalities
        list.rows.rows) }
    ensures same { IfOk result (λ list. (x : List S) →
        Solves S.ring system.now.n list.kept.inequalities x ↔ Solves S.ring system.now.n system.now.inequalities x) }
    ensures certified { IfOk result (λ list. Certifies S.ring list.kept.inequalities list.rows.rows) }

    // Every turn is within the limit, or the refusal names the first that is not.
    ensures unstopped { OnOk result ((k j : ℕ) → IsLeanStop S.ring system.now.n system.now.inequalities k j → ⊥) }
    ensures stopped { IfErr result (IsLeanRefusal S.ring system.now.n system.now.inequalities) }
    ensures looks { looks.old ≤ looks.new }
{
    let n = system.n();
    let mut list = LeanList {
        kept: System::new(alloc, n),
        rows: Gens::new(alloc, n),
    };
    let mut base = Dd::new(alloc, n)?;
    let inequalities = system.as_slice();
    for k in 0..inequalities.len() {
        let ineq = &inequalities[k];
        let behind = &inequalities[k + 1..];
        match turn(alloc, &mut base, &mut list, ineq, behind, looks) {
            Ok(()) => {}
            Err(DdErr::Limit(j)) => return Err(LeanErr::Rows(k as u32 + 1, j)),
            Err(DdErr::NoMemory) => return Err(LeanErr::NoMemory),
        }
    }
    Ok(list)
}
