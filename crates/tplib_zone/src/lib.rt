//! The command `analyze` over zones: the short report of the family of zones of a program. It answers the bytes of the
//! command's input with a [`Reply`](tplib_reply::Reply), or refuses them for a named cause.
//!
//! What the command means stands in `specs/Zone`, and which refusals there are, in `specs/Refusals`. The code computes
//! with matrices in lists; both pages speak of the zones alone.
#![tactic(auto)]

mod report;
mod zone;

pub use zone::zone_reply;
