//! Tropical polyhedra as a domain.
use crate::value::PolyDomain;
use dom_core::{DomErr, Domain};
use prog_graph::Op;
use prog_tree::Claim;
use std::alloc::Global;
use trop_scalar::Numeric;

impl<S: Numeric> Domain for PolyDomain<S> {
    ghost use Rattle.cone_domain.specs.Polyhedra.{polyhedra, IsProvenBy};
    ghost use Rattle.cone_domain.proofs.Laws.{polyhedra_laws};
    ghost use Rattle.cone_reports.specs.Readings.{SuitsWords};

    ghost relations = { polyhedra S.ring S.numbering S.REVERSED };

    ghost MAX_VARS = { 63 };

    ghost suits = { SuitsWords S.REVERSED };

    ghost proven = { IsProvenBy S.ring S.numbering S.REVERSED };

    ghost laws = { polyhedra_laws S.ring_laws S.numeric_laws 63 };

    const MAX_VARS: u32 = 63;

    fn bottom(alloc: Global, vars: u32) -> Result<Self, DomErr> {
        Ok(PolyDomain::bottom(alloc, vars))
    }

    fn top(alloc: Global, vars: u32) -> Result<Self, DomErr> {
        match PolyDomain::top(alloc, vars) {
            Ok(value) => Ok(value),
            Err(_) => Err(DomErr::NoMemory),
        }
    }

    fn copy(&self, alloc: Global) -> Result<Self, DomErr> {
        match self.copied(alloc) {
            Ok(value) => Ok(value),
            Err(_) => Err(DomErr::NoMemory),
        }
    }

    fn is_bottom(&self) -> bool {
        self.is_nothing()
    }

    fn apply(&self, alloc: Global, op: &Op) -> Result<Self, DomErr> {
        self.image_by(alloc, op)
    }

    fn join(&self, alloc: Global, other: &Self) -> Result<Self, DomErr> {
        self.joined_with(alloc, other)
    }

    fn included(&self, other: &Self) -> bool {
        self.lies_in(other)
    }

    fn widen(&self, alloc: Global, next: &Self) -> Result<Self, DomErr> {
        self.widened_by(alloc, next)
    }

    fn width(&self) -> u64 {
        self.list_width()
    }

    fn max_width(_vars: u32) -> u64 {
        4097
    }

    fn proves(&self, claim: &Claim) -> bool {
        self.shows(claim)
    }
}
