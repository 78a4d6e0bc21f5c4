//! The widening, which never builds its list again.
ghost use Rattle.std.specs.Prelude.{◌≡◌, ◌≤◌, length};
ghost use Rattle.trop_theory.specs.Inequalities.{system_size};
ghost use Rattle.trop_theory.specs.Canonical.{row_limit};
ghost use Rattle.dom_theory.specs.Relations.{Widen};
ghost use Rattle.dom_core.specs.Answers.{IsAnswer};
ghost use Rattle.cone_domain.specs.Operations.{IsIncluded};
ghost use Rattle.cone_domain.specs.Polyhedra.{polyhedra};
ghost use Rattle.dom_poly.specs.Kept.{most_kept};
ghost use Rattle.dom_poly.specs.Lists.{IsKeptFor, IsSolvedFor};

use crate::answers::{fitted_with, refused_part};
use crate::judging::valid_part;
use crate::value::PolyDomain;
use dom_core::DomErr;
use std::alloc::Global;
use trop_poly::{Poly, PolyErr};
use trop_row::System;
use trop_scalar::Numeric;

// The list that is kept: of the kept list, or at the first widening of the external list, what is valid on the next
// value.
fn kept_list<S: Numeric>(
    alloc: Global,
    value: &PolyDomain<S>,
    next: &PolyDomain<S>,
) -> Result<System<S>, PolyErr>
    requires { value.now.vars ≡ next.now.vars }
    ensures { IsKeptFor S.ring value.now next.now result }
{
    let rows = next.poly().rows();
    match &value.kept {
        Some(list) => Ok(valid_part(alloc, list, rows)?),
        None => match value.cone.external(alloc) {
            Ok(list) => Ok(valid_part(alloc, &list, rows)?),
            Err(err) => Err(err),
        },
    }
}

// The solutions of the list, which is kept.
fn solutions<S: Numeric>(alloc: Global, list: System<S>) -> Result<PolyDomain<S>, DomErr>
    requires few { length list.inequalities ≤ row_limit }
    requires numbers { system_size S.ring list.inequalities ≤ most_kept }
    ensures { IsSolvedFor S.ring list.n list.inequalities result }
{
    match Poly::from_system(alloc, &list) {
        Ok(cone) => fitted_with(cone, list),
        Err(err) => Err(refused_part(err)),
    }
}

impl<S: Numeric> PolyDomain<S> {
    // What it becomes where the next value leaves it.
    pub(crate) fn widened_by(
        &self,
        alloc: Global,
        next: &PolyDomain<S>,
    ) -> Result<PolyDomain<S>, DomErr>
        requires vars { self.now.vars ≡ next.now.vars }
        requires leaves { ¬ IsIncluded S.ring next.now self.now }
        ensures { IsAnswer (polyhedra S.ring S.numbering S.REVERSED) (Widen self.now next.now) result }
    {
        let _value = self.poly();
        let _next = next.poly();
        match kept_list(alloc, self, next) {
            Ok(list) => solutions(alloc, list),
            Err(err) => Err(refused_part(err)),
        }
    }
}
