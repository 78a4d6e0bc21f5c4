//! The values: how one is kept, how it is made, and what it tells.
ghost use Rattle.std.specs.Prelude.{◌≡◌, ◌≤◌, ◌↔◌, ◌*◌, suc, IsTrue, IfOk};
ghost use Rattle.trop_theory.specs.Vectors.{rows_size};
ghost use Rattle.cone_domain.specs.Values.{IsValue};
ghost use Rattle.cone_domain.specs.Operations.{IsIncluded};
ghost use Rattle.cone_domain.specs.Refused.{most_value};
ghost use Rattle.cone_domain.specs.Polyhedra.{nothing, everything, width_of};
ghost use Rattle.trop_theory.specs.MaxPlus.{max_ring, max_numbering};
ghost use Rattle.prog_tree.specs.Claims.{claim_of};
ghost use Rattle.dom_core.specs.Answers.{IsMade};
ghost use Rattle.dom_core.specs.Claims.{FitsClaim};
ghost use Rattle.mixed_theory.specs.Halves as halves;
ghost use Rattle.mixed_theory.specs.Mixed.{IsProvedBy};
ghost use Rattle.dom_mixed.specs.Doubled.{IsDoubled};

use dom_core::{DomErr, Domain};
use dom_poly::PolyDomain;
use mixed_claims::proved_by;
use prog_tree::Claim;
use std::alloc::Global;
use std::marker::Model;
use trop_poly::Poly;
use trop_scalar::MaxInt;

/// A tropical polyhedron in max over variables and their opposites: coordinate 0, one for each of at most 31 variables
/// and then one for the opposite of each. Contracts see it as that polyhedron.
#[derive(Drop)]
pub struct MixedDomain {
    pub(crate) twin: PolyDomain<MaxInt>,
}

impl Model for MixedDomain {
    ghost use Rattle.std.specs.Prelude.{ℤ, Option};
    ghost use Rattle.cone_domain.specs.Values as values;
    ghost use Rattle.dom_mixed.specs.Doubled.{IsDoubled};

    ghost Value = { values.Value (Option ℤ) };

    ghost view = { λ a. a.twin };

    ghost invariant = { λ a. IsDoubled a.twin };
}

// The polyhedron as a value, where there is one.
pub(crate) fn doubled(made: Result<PolyDomain<MaxInt>, DomErr>) -> Result<MixedDomain, DomErr>
    requires { IfOk made IsDoubled }
    ensures { result ≡ made }
{
    match made {
        Ok(twin) => Ok(MixedDomain { twin }),
        Err(err) => Err(err),
    }
}

impl MixedDomain {
    /// The cone, in the coordinates of the variables and of their opposites. Its rows generate it and are canonical, at
    /// most 4,096, of numbers up to 2^40.
    pub fn poly(&self) -> &Poly<MaxInt>
        ensures width { result.now.n ≡ suc self.now.vars }
        ensures rows { result.now.rows ≡ self.now.rows }
        ensures doubled { IsDoubled self.now }
        ensures value { IsValue max_ring self.now }
        ensures small { rows_size max_ring self.now.rows ≤ most_value }
    {
        self.twin.poly()
    }

    // The number of variables.
    pub(crate) fn variables(&self) -> u32
        ensures { result ≡ halves.variables self.now }
    {
        (self.poly().rows().n() - 1) / 2
    }

    // The value without states.
    pub(crate) fn bottom(alloc: Global, vars: u32) -> Result<MixedDomain, DomErr>
        requires { vars ≤ 31 }
        ensures { IsMade (nothing (2 * vars)) result }
    {
        doubled(<PolyDomain<MaxInt> as Domain>::bottom(alloc, 2 * vars))
    }

    // The value with all states.
    pub(crate) fn top(alloc: Global, vars: u32) -> Result<MixedDomain, DomErr>
        requires { vars ≤ 31 }
        ensures { IsMade (everything max_ring (2 * vars)) result }
    {
        doubled(<PolyDomain<MaxInt> as Domain>::top(alloc, 2 * vars))
    }

    // The same value.
    pub(crate) fn copied(&self, alloc: Global) -> Result<MixedDomain, DomErr>
        ensures { IsMade self.now result }
    {
        doubled(self.twin.copy(alloc))
    }

    // Whether it is the value without states.
    pub(crate) fn is_nothing(&self) -> bool
        ensures { IsTrue result ↔ (self.now ≡ nothing (2 * halves.variables self.now)) }
    {
        self.twin.is_bottom()
    }

    // Whether its cone lies in the other.
    pub(crate) fn lies_in(&self, other: &MixedDomain) -> bool
        requires { halves.variables self.now ≡ halves.variables other.now }
        ensures { IsTrue result ↔ IsIncluded max_ring self.now other.now }
    {
        self.twin.included(&other.twin)
    }

    // The length of the kept list, or more where there is none.
    pub(crate) fn list_width(&self) -> u64
        ensures { result ≡ width_of self.now.kept }
    {
        self.twin.width()
    }

    // Whether it proves the claim.
    pub(crate) fn shows(&self, claim: &Claim) -> bool
        requires { FitsClaim (halves.variables self.now) (claim_of claim.now) }
        ensures { IsTrue result ↔ IsProvedBy max_ring max_numbering (claim_of claim.now) self.now }
    {
        proved_by(self.variables(), self.poly().rows(), claim)
    }
}
