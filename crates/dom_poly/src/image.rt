//! The image of a value by an operation of a program, and the join of two values.
ghost use Rattle.std.specs.Prelude.{◌≡◌, ◌^◌, ◌+◌, ◌≤◌, ◌↔◌, IsTrue, IfOk};
ghost use Rattle.trop_theory.specs.Vectors.{rows_size};
ghost use Rattle.trop_theory.specs.Inequalities.{IsIn, inequality_size};
ghost use Rattle.prog_theory.specs.Edges.{Guards};
ghost use Rattle.prog_theory.specs.Each.{EachOp};
ghost use Rattle.prog_theory.specs.Fits.{FitsOp};
ghost use Rattle.prog_theory.specs.Within.{IsNumberWithin};
ghost use Rattle.prog_tree.specs.Terms.{term_of};
ghost use Rattle.prog_graph.specs.Views.{op_of};
ghost use Rattle.trop_poly.specs.Cones.{InCone};
ghost use Rattle.cone_reports.specs.Sides as sides;
ghost use Rattle.cone_reports.specs.Images.{InMoved, HasPoint, InImage};
ghost use Rattle.dom_theory.specs.Relations.{Apply, Join};
ghost use Rattle.dom_core.specs.Answers.{IsAnswer};
ghost use Rattle.cone_domain.specs.Refused.{most_value};
ghost use Rattle.cone_domain.specs.Polyhedra.{polyhedra};
ghost use Rattle.dom_poly.specs.Views.{IsOpOn};
ghost use Rattle.dom_poly.specs.Answers.{IsConeFor};

use crate::answers::fitted_from;
use crate::value::PolyDomain;
use cone_claims::{guard_has_point, guard_inequality, has_point};
use dom_core::DomErr;
use prog_graph::Op;
use prog_tree::Term;
use std::alloc::{AllocError, Global};
use trop_poly::{Poly, PolyErr};
use trop_row::Ineq;
use trop_scalar::Numeric;

type NoMemory = AllocError;

// The inequality of a guard.
fn guard_of<S: Numeric>(
    alloc: Global,
    cone: &Poly<S>,
    left: &Term,
    right: &Term,
) -> Result<Ineq<S>, NoMemory>
    requires op { IsOpOn cone.now.n (Guards (term_of left.now) (term_of right.now)) }
    ensures guard { IfOk result (λ ineq. ineq ≡ sides.guard_inequality S.ring S.numbering S.REVERSED cone.now.n
        (term_of left.now) (term_of right.now)) }
    ensures inside { IfOk result (λ ineq. IsIn cone.now.n ineq) }
    ensures small { IfOk result (λ ineq. inequality_size S.ring ineq ≤ 2 ^ 31 + 1) }
{
    let ineq = guard_inequality(alloc, cone.rows().n(), left, right)?;
    Ok(ineq)
}

// Whether some vector that the operation makes of one of the cone has a finite coordinate 0.
fn leaves_point<S: Numeric>(alloc: Global, cone: &Poly<S>, op: &Op) -> Result<bool, NoMemory>
    requires op { IsOpOn cone.now.n (op_of op.now) }
    requires small { rows_size S.ring cone.now.rows ≤ most_value }
    ensures { IfOk result (λ some. IsTrue some ↔ HasPoint S.ring
        (InMoved S.ring S.numbering S.REVERSED cone.now.n (op_of op.now) (InCone S.ring cone.now))) }
{
    let rows = cone.rows();
    match op {
        Op::Guard { left, right } => {
            let ineq = guard_of(alloc, cone, left, right)?;
            Ok(guard_has_point(rows, &ineq))
        }
        Op::Skip => Ok(has_point(rows)),
        Op::Set { .. } => Ok(has_point(rows)),
        Op::Havoc { .. } => Ok(has_point(rows)),
    }
}

// The vectors that the operation makes of those of the cone.
fn moved<S: Numeric>(alloc: Global, cone: &Poly<S>, op: &Op) -> Result<Poly<S>, PolyErr>
    requires op { IsOpOn cone.now.n (op_of op.now) }
    requires small { rows_size S.ring cone.now.rows ≤ most_value }
    ensures { IsConeFor S.ring cone.now.n
        (InMoved S.ring S.numbering S.REVERSED cone.now.n (op_of op.now) (InCone S.ring cone.now)) result }
{
    // The rows tell what every cone keeps.
    let _rows = cone.rows();
    match op {
        Op::Skip => Ok(cone.copy(alloc)?),
        Op::Set { var, value } => { cone.assign(alloc, *var, value.coord, S::of_number(value.add)) }
        Op::Havoc { var } => cone.forget(alloc, *var),
        Op::Guard { left, right } => {
            let ineq = guard_of(alloc, cone, left, right)?;
            cone.guard(alloc, &ineq)
        }
    }
}

// The image of the cone: bottom alone where the operation leaves no vector with a finite coordinate 0.
fn image<S: Numeric>(alloc: Global, cone: &Poly<S>, op: &Op) -> Result<Poly<S>, PolyErr>
    requires op { IsOpOn cone.now.n (op_of op.now) }
    requires small { rows_size S.ring cone.now.rows ≤ most_value }
    ensures { IsConeFor S.ring cone.now.n
        (InImage S.ring S.numbering S.REVERSED cone.now.n (op_of op.now) (InCone S.ring cone.now)) result }
{
    if leaves_point(alloc, cone, op)? {
        moved(alloc, cone, op)
    } else {
        Ok(Poly::empty(alloc, cone.rows().n()))
    }
}

impl<S: Numeric> PolyDomain<S> {
    // The image by the operation.
    pub(crate) fn image_by(&self, alloc: Global, op: &Op) -> Result<PolyDomain<S>, DomErr>
        requires fits { FitsOp self.now.vars (op_of op.now) }
        requires numbers { EachOp (λ x. Unit {0}) (IsNumberWithin (2 ^ 31 + 1)) (op_of op.now) }
        ensures { IsAnswer (polyhedra S.ring S.numbering S.REVERSED) (Apply (op_of op.now) self.now) result }
    {
        fitted_from(image(alloc, self.poly(), op))
    }

    // The join with the other.
    pub(crate) fn joined_with(
        &self,
        alloc: Global,
        other: &PolyDomain<S>,
    ) -> Result<PolyDomain<S>, DomErr>
        requires { self.now.vars ≡ other.now.vars }
        ensures { IsAnswer (polyhedra S.ring S.numbering S.REVERSED) (Join self.now other.now) result }
    {
        fitted_from(self.poly().join(alloc, other.poly()))
    }
}
