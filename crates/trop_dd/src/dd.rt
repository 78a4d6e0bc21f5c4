// A double description, to which inequalities are pushed.
ghost use Rattle.std.specs.Prelude.{◌≡◌, ◌+◌, ◌-◌, ◌*◌, ◌^◌, ◌<◌, ◌≤◌, [], ◌∷◌, ◌++◌, ℕ, All, OnOk, OnErr, IfOk, IfErr, length, take};
ghost use Rattle.trop_theory.specs.Sizes.{most_coefficient};
ghost use Rattle.trop_theory.specs.Vectors.{row_size};
ghost use Rattle.trop_theory.specs.Inequalities.{IsIn, Solves, inequality_size, system_size};
ghost use Rattle.trop_theory.specs.Canonical.{IsOverLimit};
ghost use Rattle.trop_criterion.specs.SizeBound.{HaveSpread};
ghost use Rattle.trop_dd.specs.Description.{Description, Describes, CountsNew, IsRefusedBy, AreLaterWithin, IsStoppedBehind};
ghost use Rattle.trop_dd.specs.Units.{IsUnitRow};

use crate::conversion::Conversion;
use crate::copying::copied_rows;
use crate::error::DdErr;
use std::alloc::{AllocError, Global};
use std::marker::Model;
use trop_hyper::Looks;
use trop_row::{Gens, Ineq, System};
use trop_scalar::Scalar;

type NoMemory = AllocError;

/// A system of inequalities together with the canonical list of its solutions, which grow and shrink inequality by
/// inequality (Allamigeon, Gaubert, Goubault: The tropical double description method, 2010). Contracts see the number
/// `n` of coordinates, from 1 to 64, the list `system` of the inequalities pushed so far and the list `rows`.
#[derive(Drop)]
pub struct Dd<S: Scalar> {
    conversion: Conversion<S>,
    rows: Gens<S>,
}

impl<S: Scalar> Model for Dd<S> {
    ghost use Rattle.std.specs.Prelude.{◌≡◌};
    ghost use Rattle.trop_dd.specs.Description.{Description};
    ghost use Rattle.trop_dd.specs.Sound.{IsSound};

    ghost Value = { Description S };

    ghost view = { λ a. a.conversion };

    ghost invariant = { λ a. (a.rows.n ≡ a.conversion.n) × (a.rows.rows ≡ a.conversion.rows)
        × IsSound S.ring a.conversion.n a.conversion.system a.conversion.rows };
}

impl<S: Scalar> Dd<S> {
    /// The whole space in `n` coordinates: no inequality, and the `n` unit rows.
    pub fn new(alloc: Global, n: u32) -> Result<Dd<S>, NoMemory>
        requires at_least { 1 ≤ n }
        requires at_most { n ≤ 64 }
        ensures width { IfOk result (λ dd. dd.n ≡ n) }
        ensures system { IfOk result (λ dd. dd.system ≡ []) }
        ensures described { IfOk result (λ dd. Describes S.ring n [] dd.rows) }
        ensures units { IfOk result (λ dd. All (IsUnitRow S.ring n) dd.rows) }
        ensures count { IfOk result (λ dd. length dd.rows ≡ n) }
    {
        let conversion = Conversion::new(alloc, n)?;
        let rows = conversion.rows(alloc)?;
        Ok(Dd { conversion, rows })
    }

    /// Adds an inequality. `Limit(k)` comes exactly where this is the k-th inequality and the first k have more than
    /// 4,096 extreme rows. After a refusal nothing has changed but the count of looks, and the inequality is dropped.
    pub fn push(&mut self, alloc: Global, ineq: Ineq<S>, looks: &mut Looks) -> Result<(), DdErr>
        requires wide { IsIn self.old.n ineq }
        requires size { inequality_size S.ring ineq ≤ most_coefficient }
        requires room { length self.old.system < 2 ^ 31 }
        ensures width { self.new.n ≡ self.old.n }
        ensures system { OnOk result (self.new.system ≡ self.old.system ++ ineq ∷ []) }
        ensures described { OnOk result (Describes S.ring self.new.n self.new.system self.new.rows) }
        ensures within { OnOk result (IsOverLimit S.ring (Solves S.ring self.old.n (self.old.system ++ ineq ∷ [])) →
            ⊥) }

        // A refusal has its cause, and leaves everything.
        ensures refused { IfErr result (IsRefusedBy S.ring self.old.n (self.old.system ++ ineq ∷ [])) }
        ensures stays { OnErr result (self.new ≡ self.old) }

        // Each new row costs a look.
        ensures counts { OnOk result (CountsNew S.ring self.old.rows self.new.rows looks.old looks.new) }
        ensures kept { looks.old ≤ looks.new }
    {
        let n = self.rows.n();
        let found = self.conversion.narrowed(alloc, ineq, true, looks)?;
        match found {
            None => Ok(()),
            Some(rows) => {
                self.rows = Gens::from_rows(n, rows);
                Ok(())
            }
        }
    }

    /// Adds copies of the inequalities, one after another, each as [`Dd::push`] does. `Limit(k)` comes exactly where, of
    /// the systems that arise in turn, that of k inequalities is the first with more than 4,096 extreme rows. After a
    /// refusal those before the refused one stand.
    pub fn push_all(
        &mut self,
        alloc: Global,
        more: &[Ineq<S>],
        looks: &mut Looks,
    ) -> Result<(), DdErr>
        requires wide { All (IsIn self.old.n) more.now }
        requires size { system_size S.ring more.now ≤ most_coefficient }
        requires room { length self.old.system + length more.now ≤ 2 ^ 31 }
        ensures width { self.new.n ≡ self.old.n }
        ensures system { OnOk result (self.new.system ≡ self.old.system ++ more.now) }
        ensures within { OnOk result (AreLaterWithin S.ring self.old.n (length self.old.system)
            (self.old.system ++ more.now)) }

        // A refusal has its cause, and leaves what was pushed before it.
        ensures stopped { IfErr result (IsStoppedBehind S.ring self.old.n (length self.old.system)
            (self.old.system ++ more.now)) }
        ensures stays { OnErr result ((k : ℕ) × (self.new.system ≡ self.old.system ++ take k more.now)) }

        // Each new row costs a look.
        ensures counts { OnOk result (CountsNew S.ring self.old.rows self.new.rows looks.old looks.new) }
        ensures kept { looks.old ≤ looks.new }
    {
        for ineq in more {
            let copy = ineq.copy(alloc)?;
            if let Err(err) = self.push(alloc, copy, looks) {
                return Err(err);
            }
        }
        Ok(())
    }

    /// The canonical list of the solutions of all inequalities pushed. Where these have size at most M, the rows have
    /// size at most 4 M (n - 1), and any two finite entries of a row differ by no more.
    pub fn rows(&self) -> &Gens<S>
        ensures rows { result.now.rows ≡ self.now.rows }
        ensures width { result.now.n ≡ self.now.n }
        ensures described { Describes S.ring self.now.n self.now.system self.now.rows }
        ensures small { All (λ row. row_size S.ring row ≤ 4 * system_size S.ring self.now.system * (self.now.n - 1))
            self.now.rows }
        ensures spread { HaveSpread S.ring (4 * system_size S.ring self.now.system * (self.now.n - 1)) self.now.rows }
    {
        &self.rows
    }

    /// The same description.
    pub fn copy(&self, alloc: Global) -> Result<Dd<S>, NoMemory>
        ensures same { IfOk result (λ dd. dd ≡ self.now) }
    {
        let conversion = self.conversion.copy(alloc)?;
        let rows = copied_rows(alloc, self.rows.as_slice())?;
        Ok(Dd {
            conversion,
            rows: Gens::from_rows(self.rows.n(), rows),
        })
    }

    /// The canonical list by itself.
    pub fn into_rows(self) -> Gens<S>
        ensures rows { result.rows ≡ self.rows }
        ensures width { result.n ≡ self.n }
        ensures described { Describes S.ring self.n self.system self.rows }
    {
        self.rows
    }

    /// The inequalities pushed, in order.
    pub fn system(&self) -> &System<S>
        ensures inequalities { result.now.inequalities ≡ self.now.system }
        ensures width { result.now.n ≡ self.now.n }
    {
        self.conversion.system()
    }
}
