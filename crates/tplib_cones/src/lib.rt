//! The commands on cones that take one file: `reduce` and `ext`. Each call answers the bytes of a command's input with
//! a [`Reply`](tplib_reply::Reply), or refuses them for a named cause.
//!
//! What a command means is said in `specs`, a file a command: what its input spells, its faults, its answer and its
//! stops.
#![tactic(auto)]

mod ext;
mod reduce;

pub use ext::ext_reply;
pub use reduce::reduce_reply;
