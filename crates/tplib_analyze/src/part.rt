//! What a report says of a point.
ghost use Rattle.std.specs.Prelude.{◌≤◌, length, IfOk, IfErr};
ghost use Rattle.std.specs.List.{AllZip};
ghost use Rattle.tplib_analyze.specs.Parts.{IsPointMade, IsPartRefusal, IsPartsRefusal};

use crate::copying::copied;
use crate::stopped::unlisted;
use dom_poly::PolyDomain;
use report_value::PointPart;
use std::alloc::Global;
use tplib_reply::Refusal;
use trop_row::System;
use trop_scalar::Numeric;

// The rows of the point's value and, where there are some, its external list.
fn part<S: Numeric>(
    alloc: Global,
    value: &PolyDomain<S>,
    point: u32,
) -> Result<PointPart<S>, Refusal>
    ensures made { IfOk result (IsPointMade S.ring value.now) }
    ensures refused { IfErr result (IsPartRefusal S.ring value.now point) }
{
    let cone = value.poly();
    let rows = copied(alloc, cone.rows())?;
    if rows.len() == 0 {
        let invs = System::new(alloc, rows.n());
        return Ok(PointPart { rows, invs });
    }
    match cone.external(alloc) {
        Ok(invs) => Ok(PointPart { rows, invs }),
        Err(e) => Err(unlisted(e, point)),
    }
}

/// What is said of each point with these values, in their order.
pub(crate) fn parts<S: Numeric>(
    alloc: Global,
    values: &[PolyDomain<S>],
) -> Result<Vec<PointPart<S>>, Refusal>
    requires few { length values.now ≤ 65536 }
    ensures made { IfOk result (λ parts. AllZip (IsPointMade S.ring) values.now parts.items) }
    ensures refused { IfErr result (IsPartsRefusal S.ring values.now) }
{
    let mut parts = Vec::new(alloc);
    for q in 0..values.len() {
        let made = part(alloc, &values[q], q as u32)?;
        parts.push(made)?;
    }
    Ok(parts)
}
