//! The image of a value by an operation of a program, in its two halves; the join and the widening, which are those of
//! polyhedra.
ghost use Rattle.std.specs.Prelude.{◌≡◌, ◌≤◌, ◌+◌, ◌*◌, ◌^◌, option_map, IfOk};
ghost use Rattle.trop_theory.specs.MaxPlus.{max_ring, max_numbering};
ghost use Rattle.prog_theory.specs.Edges as edges;
ghost use Rattle.prog_theory.specs.Each.{EachOp};
ghost use Rattle.prog_theory.specs.Fits.{FitsOp};
ghost use Rattle.prog_theory.specs.Within.{IsNumberWithin};
ghost use Rattle.prog_tree.specs.Terms.{term_of};
ghost use Rattle.prog_graph.specs.Views.{op_of};
ghost use Rattle.dom_theory.specs.Relations.{Apply, Join, Widen};
ghost use Rattle.cone_domain.specs.Operations.{IsIncluded};
ghost use Rattle.cone_domain.specs.Polyhedra.{nothing};
ghost use Rattle.dom_core.specs.Answers.{IsAnswer};
ghost use Rattle.mixed_theory.specs.Twins as twins;
ghost use Rattle.mixed_theory.specs.Halves as halves;
ghost use Rattle.mixed_theory.specs.Mixed.{mixed};
ghost use Rattle.dom_mixed.specs.Doubled.{IsDoubled};
ghost use Rattle.dom_mixed.specs.Answers.{IsHalfAnswer};

use crate::value::{MixedDomain, doubled};
use dom_core::{DomErr, Domain};
use dom_poly::PolyDomain;
use mixed_claims::{opposite, opposite_term};
use prog_graph::Op;
use prog_tree::Term;
use std::alloc::Global;
use trop_scalar::MaxInt;

// The assignment to the opposite of a variable.
fn opposite_set(vars: u32, var: u32, value: &Term) -> Op
    requires few { vars ≤ 31 }
    requires fits { var ≤ vars }
    requires value_fits { value.now.coord ≤ vars }
    requires number { IsNumberWithin (2 ^ 31 + 1) (term_of value.now) }
    ensures { op_of result ≡ edges.Sets (twins.opposite vars var) (twins.opposite_term vars (term_of value.now)) }
{
    Op::Set {
        var: opposite(vars, var),
        value: opposite_term(vars, value),
    }
}

// The guard on the opposites of its terms, which stand the other way round.
fn opposite_guard(vars: u32, left: &Term, right: &Term) -> Op
    requires few { vars ≤ 31 }
    requires left_fits { left.now.coord ≤ vars }
    requires right_fits { right.now.coord ≤ vars }
    requires left_number { IsNumberWithin (2 ^ 31 + 1) (term_of left.now) }
    requires right_number { IsNumberWithin (2 ^ 31 + 1) (term_of right.now) }
    ensures { op_of result ≡ edges.Guards (twins.opposite_term vars (term_of right.now))
        (twins.opposite_term vars (term_of left.now)) }
{
    Op::Guard {
        left: opposite_term(vars, right),
        right: opposite_term(vars, left),
    }
}

// What the operation does to the opposites of the variables; none where it does nothing.
fn second_half(vars: u32, op: &Op) -> Option<Op>
    requires few { vars ≤ 31 }
    requires fits { FitsOp vars (op_of op.now) }
    requires numbers { EachOp (λ x. Unit {0}) (IsNumberWithin (2 ^ 31 + 1)) (op_of op.now) }
    ensures { option_map op_of result ≡ halves.second_half vars (op_of op.now) }
{
    match op {
        Op::Skip => None,
        Op::Set { var, value } => Some(opposite_set(vars, *var, value)),
        Op::Havoc { var } => Some(Op::Havoc {
            var: opposite(vars, *var),
        }),
        Op::Guard { left, right } => Some(opposite_guard(vars, left, right)),
    }
}

// What the second half of the operation makes of what the first has made.
fn second_image(
    alloc: Global,
    vars: u32,
    between: PolyDomain<MaxInt>,
    op: &Op,
) -> Result<PolyDomain<MaxInt>, DomErr>
    requires few { vars ≤ 31 }
    requires wide { 2 * vars ≤ between.vars }
    requires fits { FitsOp vars (op_of op.now) }
    requires numbers { EachOp (λ x. Unit {0}) (IsNumberWithin (2 ^ 31 + 1)) (op_of op.now) }
    ensures { IsHalfAnswer max_ring max_numbering (halves.second_half vars (op_of op.now)) between result }
{
    match second_half(vars, op) {
        Some(half) => between.apply(alloc, &half),
        None => Ok(between),
    }
}

// The image of the polyhedron over so many variables and their opposites: that by the operation, and of this the one by
// its second half.
#[tactic(auto, using(crate::proofs::Halves::refused_first))]
fn image(
    alloc: Global,
    vars: u32,
    twin: &PolyDomain<MaxInt>,
    op: &Op,
) -> Result<PolyDomain<MaxInt>, DomErr>
    requires variables { vars ≡ halves.variables twin.now }
    requires doubled { IsDoubled twin.now }
    requires fits { FitsOp vars (op_of op.now) }
    requires numbers { EachOp (λ x. Unit {0}) (IsNumberWithin (2 ^ 31 + 1)) (op_of op.now) }
    ensures { IsAnswer (mixed max_ring max_numbering) (Apply (op_of op.now) twin.now) result }
{
    match twin.apply(alloc, op) {
        Ok(between) => second_image(alloc, vars, between, op),
        Err(err) => Err(err),
    }
}

impl MixedDomain {
    // The image by the operation.
    pub(crate) fn image_by(&self, alloc: Global, op: &Op) -> Result<MixedDomain, DomErr>
        requires fits { FitsOp (halves.variables self.now) (op_of op.now) }
        requires numbers { EachOp (λ x. Unit {0}) (IsNumberWithin (2 ^ 31 + 1)) (op_of op.now) }
        ensures { IsAnswer (mixed max_ring max_numbering) (Apply (op_of op.now) self.now) result }
    {
        doubled(image(alloc, self.variables(), &self.twin, op))
    }

    // The join with the other.
    pub(crate) fn joined_with(
        &self,
        alloc: Global,
        other: &MixedDomain,
    ) -> Result<MixedDomain, DomErr>
        requires { halves.variables self.now ≡ halves.variables other.now }
        ensures { IsAnswer (mixed max_ring max_numbering) (Join self.now other.now) result }
    {
        doubled(self.twin.join(alloc, &other.twin))
    }

    // What it becomes where the next value leaves it.
    pub(crate) fn widened_by(
        &self,
        alloc: Global,
        next: &MixedDomain,
    ) -> Result<MixedDomain, DomErr>
        requires vars { halves.variables self.now ≡ halves.variables next.now }
        requires leaves { ¬ IsIncluded max_ring next.now self.now }
        requires more { ¬ self.now ≡ nothing (2 * halves.variables self.now) }
        ensures { IsAnswer (mixed max_ring max_numbering) (Widen self.now next.now) result }
    {
        doubled(self.twin.widen(alloc, &next.twin))
    }
}
