//! The values: how one is kept, how it is made, and what it tells.
ghost use Rattle.std.specs.Prelude.{◌≡◌, ◌≤◌, ◌↔◌, suc, length, None, Some, MatchOption, IsTrue, IfOk};
ghost use Rattle.trop_theory.specs.Vectors.{rows_size};
ghost use Rattle.trop_theory.specs.Inequalities.{Solves, system_size};
ghost use Rattle.trop_theory.specs.Canonical.{row_limit};
ghost use Rattle.trop_cones.specs.Represents.{Represents};
ghost use Rattle.cone_domain.specs.Values.{IsValue};
ghost use Rattle.cone_domain.specs.Operations.{IsIncluded};
ghost use Rattle.cone_domain.specs.Refused.{most_value};
ghost use Rattle.cone_domain.specs.Polyhedra.{nothing, everything, width_of, IsProvenBy};
ghost use Rattle.prog_tree.specs.Claims.{claim_of};
ghost use Rattle.dom_core.specs.Claims.{FitsClaim};
ghost use Rattle.dom_poly.specs.Views.{value_of};
ghost use Rattle.dom_poly.specs.Kept.{most_kept};

use crate::copying::copied_list;
use cone_claims::proven_by;
use prog_tree::Claim;
use std::alloc::{AllocError, Global};
use std::marker::Model;
use trop_poly::Poly;
use trop_row::System;
use trop_scalar::Numeric;

type NoMemory = AllocError;

// The width of a value without a kept list: more than any list is long.
const GREATEST_WIDTH: u64 = 4097;

/// A tropical polyhedron (Allamigeon, Gaubert, Goubault, Inferring min and max invariants using max-plus polyhedra,
/// 2008): a cone in one coordinate more than there are variables, whose numbers have size at most 2^40, and from the
/// first widening on the kept list, at most 4,096 inequalities of size at most 2^48 whose solutions are the cone.
/// Contracts see the number of variables, the canonical list of the cone and the kept list.
#[derive(Drop)]
pub struct PolyDomain<S: Numeric> {
    pub(crate) cone: Poly<S>,
    pub(crate) kept: Option<System<S>>,
}

impl<S: Numeric> Model for PolyDomain<S> {
    ghost use Rattle.cone_domain.specs.Values as values;
    ghost use Rattle.dom_poly.specs.Views.{value_of};
    ghost use Rattle.dom_poly.specs.Kept.{IsSound};

    ghost Value = { values.Value S };

    ghost view = { λ a. value_of a.cone a.kept };

    ghost invariant = { λ a. IsSound S.ring a.cone a.kept };
}

impl<S: Numeric> PolyDomain<S> {
    // The value of the cone, without a kept list.
    pub(crate) fn fresh(cone: Poly<S>) -> PolyDomain<S>
        requires small { rows_size S.ring cone.rows ≤ most_value }
        ensures { result ≡ value_of cone None }
    {
        let _rows = cone.rows();
        PolyDomain { cone, kept: None }
    }

    // The value of the solutions of the list, which is kept.
    pub(crate) fn listed(cone: Poly<S>, list: System<S>) -> PolyDomain<S>
        requires small { rows_size S.ring cone.rows ≤ most_value }
        requires width { list.n ≡ cone.n }
        requires few { length list.inequalities ≤ row_limit }
        requires numbers { system_size S.ring list.inequalities ≤ most_kept }
        requires solutions { Represents S.ring cone.n (Solves S.ring cone.n list.inequalities) cone.rows }
        ensures { result ≡ value_of cone (Some list) }
    {
        let _rows = cone.rows();
        let _inequalities = list.as_slice();
        PolyDomain {
            cone,
            kept: Some(list),
        }
    }

    /// The cone. Its rows generate it and are canonical, at most 4,096, of numbers up to 2^40.
    pub fn poly(&self) -> &Poly<S>
        ensures width { result.now.n ≡ suc self.now.vars }
        ensures rows { result.now.rows ≡ self.now.rows }
        ensures value { IsValue S.ring self.now }
        ensures few { length self.now.rows ≤ row_limit }
        ensures small { rows_size S.ring self.now.rows ≤ most_value }
        ensures list { MatchOption self.now.kept (Unit {0}) (λ list. system_size S.ring list ≤ most_kept) }
    {
        &self.cone
    }

    // The value without states.
    pub(crate) fn bottom(alloc: Global, vars: u32) -> PolyDomain<S>
        requires { vars ≤ 63 }
        ensures { result ≡ nothing vars }
    {
        PolyDomain::fresh(Poly::empty(alloc, vars + 1))
    }

    // The value with all states.
    pub(crate) fn top(alloc: Global, vars: u32) -> Result<PolyDomain<S>, NoMemory>
        requires { vars ≤ 63 }
        ensures { IfOk result (λ v. v ≡ everything S.ring vars) }
    {
        Ok(PolyDomain::fresh(Poly::whole(alloc, vars + 1)?))
    }

    // The same value.
    pub(crate) fn copied(&self, alloc: Global) -> Result<PolyDomain<S>, NoMemory>
        ensures { IfOk result (λ v. v ≡ self.now) }
    {
        let cone = self.cone.copy(alloc)?;
        match &self.kept {
            Some(list) => Ok(PolyDomain {
                cone,
                kept: Some(copied_list(alloc, list)?),
            }),
            None => Ok(PolyDomain { cone, kept: None }),
        }
    }

    // Whether it is the value without states.
    pub(crate) fn is_nothing(&self) -> bool
        ensures { IsTrue result ↔ (self.now ≡ nothing self.now.vars) }
    {
        match &self.kept {
            Some(_) => false,
            None => self.cone.rows().len() == 0,
        }
    }

    // Whether its cone lies in the other.
    pub(crate) fn lies_in(&self, other: &PolyDomain<S>) -> bool
        requires { self.now.vars ≡ other.now.vars }
        ensures { IsTrue result ↔ IsIncluded S.ring self.now other.now }
    {
        self.poly().included(other.poly())
    }

    // The length of the kept list, or more where there is none.
    pub(crate) fn list_width(&self) -> u64
        ensures { result ≡ width_of self.now.kept }
    {
        match &self.kept {
            Some(list) => list.len() as u64,
            None => GREATEST_WIDTH,
        }
    }

    // Whether it proves the claim.
    pub(crate) fn shows(&self, claim: &Claim) -> bool
        requires { FitsClaim self.now.vars (claim_of claim.now) }
        ensures { IsTrue result ↔ IsProvenBy S.ring S.numbering S.REVERSED (claim_of claim.now) self.now }
    {
        proven_by(self.poly().rows(), claim)
    }
}
