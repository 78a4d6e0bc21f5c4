//! Tropical polyhedra over variables and their opposites as a domain.
use crate::value::MixedDomain;
use dom_core::{DomErr, Domain};
use prog_graph::Op;
use prog_tree::Claim;
use std::alloc::Global;

impl Domain for MixedDomain {
    ghost use Rattle.trop_theory.specs.MaxPlus.{max_ring, max_numbering};
    ghost use Rattle.trop_theory.proofs.MaxPlusLaws.{max_laws, max_numeric_laws};
    ghost use Rattle.mixed_theory.specs.Mixed.{mixed, IsProvedBy};
    ghost use Rattle.mixed_theory.proofs.Laws.{mixed_laws};

    ghost relations = { mixed max_ring max_numbering };

    ghost MAX_VARS = { 31 };

    ghost suits = { λ claim. Unit {0} };

    ghost proven = { IsProvedBy max_ring max_numbering };

    ghost laws = { mixed_laws max_laws max_numeric_laws 31 };

    const MAX_VARS: u32 = 31;

    fn bottom(alloc: Global, vars: u32) -> Result<Self, DomErr> {
        MixedDomain::bottom(alloc, vars)
    }

    fn top(alloc: Global, vars: u32) -> Result<Self, DomErr> {
        MixedDomain::top(alloc, vars)
    }

    fn copy(&self, alloc: Global) -> Result<Self, DomErr> {
        self.copied(alloc)
    }

    fn is_bottom(&self) -> bool {
        self.is_nothing()
    }

    fn apply(&self, alloc: Global, op: &Op) -> Result<Self, DomErr> {
        self.image_by(alloc, op)
    }

    fn join(&self, alloc: Global, other: &Self) -> Result<Self, DomErr> {
        self.joined_with(alloc, other)
    }

    fn included(&self, other: &Self) -> bool {
        self.lies_in(other)
    }

    fn widen(&self, alloc: Global, next: &Self) -> Result<Self, DomErr> {
        self.widened_by(alloc, next)
    }

    fn width(&self) -> u64 {
        self.list_width()
    }

    fn max_width(_vars: u32) -> u64 {
        4097
    }

    fn proves(&self, claim: &Claim) -> bool {
        self.shows(claim)
    }
}
