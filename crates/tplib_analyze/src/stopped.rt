//! Where the external list of a point stops, as a command names it.
ghost use Rattle.std.specs.Prelude.{◌≡◌};
ghost use Rattle.tplib_analyze.specs.Stopped.{list_refusal};

use tplib_reply::{Refusal, Stop};
use trop_poly::PolyErr;

/// Why there is no external list at the point. No external list is refused by `Rows`.
pub(crate) fn unlisted(e: PolyErr, point: u32) -> Refusal
    ensures { result ≡ list_refusal e point }
{
    match e {
        PolyErr::Rows(count) => Refusal::Limit(Stop::Rows(count)),
        PolyErr::Polar(i, rows) => Refusal::Limit(Stop::PointPolar(point, i, rows)),
        PolyErr::NoMemory => Refusal::NoMemory,
    }
}
