//! Zones as a domain.
use crate::value::{ZoneDomain, greatest_width};
use dom_core::{DomErr, Domain};
use prog_graph::Op;
use prog_tree::Claim;
use std::alloc::Global;

impl Domain for ZoneDomain {
    ghost use Rattle.zone_lists.specs.Zones.{zone_lists};
    ghost use Rattle.zone_lists.proofs.Laws.{zone_lists_laws};
    ghost use Rattle.dom_zone.specs.Claims.{judges, is_proven};

    ghost relations = { zone_lists };

    ghost MAX_VARS = { 63 };

    ghost suits = { judges };

    ghost proven = { is_proven };

    ghost laws = { zone_lists_laws };

    const MAX_VARS: u32 = 63;

    fn bottom(_alloc: Global, vars: u32) -> Result<Self, DomErr> {
        Ok(ZoneDomain::bottom(vars))
    }

    fn top(alloc: Global, vars: u32) -> Result<Self, DomErr> {
        match ZoneDomain::top(alloc, vars) {
            Ok(value) => Ok(value),
            Err(_) => Err(DomErr::NoMemory),
        }
    }

    fn copy(&self, alloc: Global) -> Result<Self, DomErr> {
        match self.copied(alloc) {
            Ok(value) => Ok(value),
            Err(_) => Err(DomErr::NoMemory),
        }
    }

    fn is_bottom(&self) -> bool {
        self.is_nothing()
    }

    fn apply(&self, alloc: Global, op: &Op) -> Result<Self, DomErr> {
        self.image_by(alloc, op)
    }

    fn join(&self, alloc: Global, other: &Self) -> Result<Self, DomErr> {
        self.joined_with(alloc, other)
    }

    fn included(&self, other: &Self) -> bool {
        self.lies_in(other)
    }

    fn widen(&self, alloc: Global, next: &Self) -> Result<Self, DomErr> {
        self.widened_by(alloc, next)
    }

    fn width(&self) -> u64 {
        self.kept_width()
    }

    fn max_width(vars: u32) -> u64 {
        greatest_width(vars)
    }

    fn proves(&self, claim: &Claim) -> bool {
        self.shows(claim)
    }
}
