// A conversion under way, to which inequalities are pushed.
ghost use Rattle.std.specs.Prelude.{◌≡◌, ◌+◌, ◌^◌, ◌<◌, ◌≤◌, [], ◌∷◌, ◌++◌, ℕ, true, All, OnOk, OnErr, IfOk, IfErr, MatchOption, length, take};
ghost use Rattle.trop_theory.specs.Sizes.{most_coefficient};
ghost use Rattle.trop_theory.specs.Inequalities.{IsIn, Solves, inequality_size, system_size};
ghost use Rattle.trop_theory.specs.Canonical.{IsOverLimit};
ghost use Rattle.trop_dd.specs.Description.{Description, Describes, CountsNew, IsRefusedBy, AreLaterWithin, IsStoppedBehind};
ghost use Rattle.trop_dd.specs.Units.{IsUnitRow};

use crate::copying::{copied_numbers, copied_sides, copied_system};
use crate::error::DdErr;
use crate::narrowing::narrow;
use crate::settling::copied_all;
use crate::units::{unit_numbers, unit_rows, unit_sides};
use std::alloc::{AllocError, Global};
use std::marker::Model;
use trop_hyper::Looks;
use trop_pairs::Carried;
use trop_row::{Gens, Ineq, Row, System};
use trop_scalar::Scalar;

type NoMemory = AllocError;

/// A system of inequalities together with the canonical list of its solutions, as [`Dd`](crate::Dd) is, but with the
/// rows where they happen to lie: an inequality moves only as many of them as it drops, and none is copied before
/// [`Conversion::rows`] is called. Contracts see the number `n` of coordinates, from 1 to 64, the list `system` of the
/// inequalities pushed so far and the list `rows`.
#[derive(Drop)]
pub struct Conversion<S: Scalar> {
    system: System<S>,
    // in any order
    sides: Vec<Carried<S>>,
    // the numbers of the sides in the order of their rows
    order: Vec<usize>,
}

impl<S: Scalar> Model for Conversion<S> {
    ghost use Rattle.std.specs.Prelude.{◌≡◌, ◌≤◌, ◌^◌, [], All};
    ghost use Rattle.trop_theory.specs.Inequalities.{IsIn, system_size};
    ghost use Rattle.trop_dd.specs.Description.{Description, Describes};
    ghost use Rattle.trop_dd.specs.Sound.{IsSound};
    ghost use Rattle.trop_dd.specs.Carried.{AreCarried, found_rows};

    ghost Value = { Description S };

    ghost view = { λ a. record {
      n = a.system.n;
      system = a.system.inequalities;
      rows = found_rows a.sides.items [] a.order.items;
    } };

    ghost invariant = { λ a. IsSound S.ring a.system.n a.system.inequalities
        (found_rows a.sides.items [] a.order.items)
        × AreCarried S.ring a.system.n a.system.inequalities a.sides.items a.order.items };
}

impl<S: Scalar> Conversion<S> {
    /// The whole space in `n` coordinates: no inequality, and the `n` unit rows.
    pub fn new(alloc: Global, n: u32) -> Result<Conversion<S>, NoMemory>
        requires at_least { 1 ≤ n }
        requires at_most { n ≤ 64 }
        ensures width { IfOk result (λ conversion. conversion.n ≡ n) }
        ensures system { IfOk result (λ conversion. conversion.system ≡ []) }
        ensures described { IfOk result (λ conversion. Describes S.ring n [] conversion.rows) }
        ensures units { IfOk result (λ conversion. All (IsUnitRow S.ring n) conversion.rows) }
        ensures count { IfOk result (λ conversion. length conversion.rows ≡ n) }
    {
        let rows = unit_rows(alloc, n)?;
        let sides = unit_sides(alloc, n, rows.as_slice())?;
        let order = unit_numbers(alloc, sides.len())?;
        Ok(Conversion {
            system: System::new(alloc, n),
            sides,
            order,
        })
    }

    /// Adds an inequality. `Limit(k)` comes exactly where this is the k-th inequality and the first k have more than
    /// 4,096 extreme rows. After a refusal nothing has changed but the count of looks, and the inequality is dropped.
    pub fn push(&mut self, alloc: Global, ineq: Ineq<S>, looks: &mut Looks) -> Result<(), DdErr>
        requires wide { IsIn self.old.n ineq }
        requires size { inequality_size S.ring ineq ≤ most_coefficient }
        requires room { length self.old.system < 2 ^ 31 }
        ensures width { self.new.n ≡ self.old.n }
        ensures system { OnOk result (self.new.system ≡ self.old.system ++ ineq ∷ []) }
        ensures described { OnOk result (Describes S.ring self.new.n self.new.system self.new.rows) }
        ensures within { OnOk result (IsOverLimit S.ring (Solves S.ring self.old.n (self.old.system ++ ineq ∷ [])) →
            ⊥) }

        // A refusal has its cause, and leaves everything.
        ensures refused { IfErr result (IsRefusedBy S.ring self.old.n (self.old.system ++ ineq ∷ [])) }
        ensures stays { OnErr result (self.new ≡ self.old) }

        // Each new row costs a look.
        ensures counts { OnOk result (CountsNew S.ring self.old.rows self.new.rows looks.old looks.new) }
        ensures kept { looks.old ≤ looks.new }
    {
        self.narrowed(alloc, ineq, false, looks)?;
        Ok(())
    }

    // The same, with copies of the rows where they are asked for, and none where these are as they were.
    pub(crate) fn narrowed(
        &mut self,
        alloc: Global,
        ineq: Ineq<S>,
        copies: bool,
        looks: &mut Looks,
    ) -> Result<Option<Vec<Row<S>>>, DdErr>
        requires wide { IsIn self.old.n ineq }
        requires size { inequality_size S.ring ineq ≤ most_coefficient }
        requires room { length self.old.system < 2 ^ 31 }
        ensures width { self.new.n ≡ self.old.n }
        ensures system { OnOk result (self.new.system ≡ self.old.system ++ ineq ∷ []) }
        ensures described { OnOk result (Describes S.ring self.new.n self.new.system self.new.rows) }
        ensures within { OnOk result (IsOverLimit S.ring (Solves S.ring self.old.n (self.old.system ++ ineq ∷ [])) →
            ⊥) }

        // A refusal has its cause, and leaves everything.
        ensures refused { IfErr result (IsRefusedBy S.ring self.old.n (self.old.system ++ ineq ∷ [])) }
        ensures stays { OnErr result (self.new ≡ self.old) }

        // Each new row costs a look.
        ensures counts { OnOk result (CountsNew S.ring self.old.rows self.new.rows looks.old looks.new) }
        ensures kept { looks.old ≤ looks.new }
        ensures copies { IfOk result (λ found. MatchOption found (copies ≡ true → self.new.rows ≡ self.old.rows)
            (λ rows. rows.items ≡ self.new.rows)) }
    {
        self.system.reserve(1)?;
        let found = narrow(
            alloc,
            &self.system,
            &ineq,
            &mut self.sides,
            &mut self.order,
            copies,
            looks,
        )?;
        self.system.push(ineq)?;
        Ok(found)
    }

    /// Adds copies of the inequalities, one after another, each as [`Conversion::push`] does. `Limit(k)` comes exactly
    /// where, of the systems that arise in turn, that of k inequalities is the first with more than 4,096 extreme rows.
    /// After a refusal those before the refused one stand.
    pub fn push_all(
        &mut self,
        alloc: Global,
        more: &[Ineq<S>],
        looks: &mut Looks,
    ) -> Result<(), DdErr>
        requires wide { All (IsIn self.old.n) more.now }
        requires size { system_size S.ring more.now ≤ most_coefficient }
        requires room { length self.old.system + length more.now ≤ 2 ^ 31 }
        ensures width { self.new.n ≡ self.old.n }
        ensures system { OnOk result (self.new.system ≡ self.old.system ++ more.now) }
        ensures within { OnOk result (AreLaterWithin S.ring self.old.n (length self.old.system)
            (self.old.system ++ more.now)) }

        // A refusal has its cause, and leaves what was pushed before it.
        ensures stopped { IfErr result (IsStoppedBehind S.ring self.old.n (length self.old.system)
            (self.old.system ++ more.now)) }
        ensures stays { OnErr result ((k : ℕ) × (self.new.system ≡ self.old.system ++ take k more.now)) }

        // Each new row costs a look.
        ensures counts { OnOk result (CountsNew S.ring self.old.rows self.new.rows looks.old looks.new) }
        ensures kept { looks.old ≤ looks.new }
    {
        for ineq in more {
            let copy = ineq.copy(alloc)?;
            if let Err(err) = self.push(alloc, copy, looks) {
                return Err(err);
            }
        }
        Ok(())
    }

    /// The canonical list of the solutions of all inequalities pushed, by itself.
    pub fn rows(&self, alloc: Global) -> Result<Gens<S>, NoMemory>
        ensures rows { IfOk result (λ gens. gens.rows ≡ self.now.rows) }
        ensures width { IfOk result (λ gens. gens.n ≡ self.now.n) }
        ensures described { Describes S.ring self.now.n self.now.system self.now.rows }
    {
        let fresh = Vec::new(alloc);
        let rows = copied_all(
            alloc,
            self.sides.as_slice(),
            fresh.as_slice(),
            self.order.as_slice(),
        )?;
        Ok(Gens::from_rows(self.system.n(), rows))
    }

    /// The same conversion.
    pub fn copy(&self, alloc: Global) -> Result<Conversion<S>, NoMemory>
        ensures same { IfOk result (λ conversion. conversion ≡ self.now) }
    {
        let n = self.system.n();
        let system = copied_system(alloc, n, self.system.as_slice())?;
        let sides = copied_sides(alloc, self.sides.as_slice())?;
        let order = copied_numbers(alloc, self.order.as_slice())?;
        Ok(Conversion {
            system,
            sides,
            order,
        })
    }

    /// The inequalities pushed, in order.
    pub fn system(&self) -> &System<S>
        ensures inequalities { result.now.inequalities ≡ self.now.system }
        ensures width { result.now.n ≡ self.now.n }
    {
        &self.system
    }
}
