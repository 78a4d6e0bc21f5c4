//! Calls of a domain, as parts of an analysis.
ghost use Rattle.std.specs.Prelude.{◌≡◌, ◌+◌, ◌^◌, ◌≤◌};
ghost use Rattle.prog_theory.specs.Each.{EachOp};
ghost use Rattle.prog_theory.specs.Fits.{FitsOp};
ghost use Rattle.prog_theory.specs.Within.{IsNumberWithin};
ghost use Rattle.prog_graph.specs.Views.{op_of};
ghost use Rattle.dom_core.specs.Views.{at_of, part_of, spot_of};
ghost use Rattle.dom_theory.specs.Relations.{Apply, Join, Widen};
ghost use Rattle.dom_theory.specs.Places.{Head};
ghost use Rattle.dom_theory.specs.Parts.{part_at, Asks};
ghost use Rattle.dom_iter.specs.Comes.{Comes, IsPlaced};

use crate::error::IterErr;
use dom_core::{At, DomErr, Domain, Part, Place, Spot};
use prog_graph::Op;
use std::alloc::Global;

// The part at which a call that was made as this part is refused.
fn refused_part(part: Part, at: At) -> Part
    ensures { part_of result ≡ part_at (part_of part) (at_of at) }
{
    match at {
        At::Whole => part,
        At::Polar(i, k) => Part::Polar(i, k),
        At::Kept(k) => Part::Kept(k),
    }
}

/// The refusal, with its place.
pub(crate) fn placed(error: DomErr, spot: Spot, part: Part) -> IterErr
    ensures { IsPlaced (spot_of spot) (part_of part) error result }
{
    match error {
        DomErr::Limit(at) => IterErr::Limit(Place {
            pass: spot.pass,
            point: spot.point,
            part: refused_part(part, at),
        }),
        DomErr::Range(at) => IterErr::Range(Place {
            pass: spot.pass,
            point: spot.point,
            part: refused_part(part, at),
        }),
        DomErr::NoMemory => IterErr::NoMemory,
    }
}

/// The image of the value, as this part of the analysis.
pub(crate) fn image_at<D: Domain>(
    alloc: Global,
    value: &D,
    op: &Op,
    spot: Spot,
    part: Part,
) -> Result<D, IterErr>
    requires fits { FitsOp (D.relations.vars value.now) (op_of op.now) }
    requires numbers { EachOp (λ x. Unit {0}) (IsNumberWithin (2 ^ 31 + 1)) (op_of op.now) }
    ensures { Comes (Asks D.relations (spot_of spot) (part_of part) (Apply (op_of op.now) value.now)) result }
{
    match value.apply(alloc, op) {
        Ok(image) => Ok(image),
        Err(error) => Err(placed(error, spot, part)),
    }
}

/// The join of the values, as this part of the analysis.
pub(crate) fn join_at<D: Domain>(
    alloc: Global,
    value: &D,
    other: &D,
    spot: Spot,
    part: Part,
) -> Result<D, IterErr>
    requires { D.relations.vars value.now ≡ D.relations.vars other.now }
    ensures { Comes (Asks D.relations (spot_of spot) (part_of part) (Join value.now other.now)) result }
{
    match value.join(alloc, other) {
        Ok(joined) => Ok(joined),
        Err(error) => Err(placed(error, spot, part)),
    }
}

/// The value widened by the next one.
pub(crate) fn widen_at<D: Domain>(
    alloc: Global,
    value: &D,
    next: &D,
    spot: Spot,
) -> Result<D, IterErr>
    requires vars { D.relations.vars value.now ≡ D.relations.vars next.now }
    requires leaves { ¬ D.relations.within next.now value.now }
    requires more { ¬ value.now ≡ D.relations.bottom (D.relations.vars value.now) }
    ensures { Comes (Asks D.relations (spot_of spot) Head (Widen value.now next.now)) result }
{
    match value.widen(alloc, next) {
        Ok(wider) => Ok(wider),
        Err(error) => Err(placed(error, spot, Part::Head)),
    }
}
