//! Refusals of operations on cones, as refusals of commands.
ghost use Rattle.std.specs.Prelude.{◌≡◌};
ghost use Rattle.tplib_poly.specs.Refusals.{refusal_of};

use tplib_reply::{Refusal, Stop};
use trop_poly::PolyErr;

pub fn refusal(e: PolyErr) -> Refusal
    ensures { result ≡ refusal_of e }
{
    match e {
        PolyErr::Rows(count) => Refusal::Limit(Stop::Rows(count)),
        PolyErr::Polar(coordinate, count) => Refusal::Limit(Stop::Polar(coordinate, count)),
        PolyErr::NoMemory => Refusal::NoMemory,
    }
}
