//! The command `analyze` over variables and their opposites: the short report of the invariant family of a program. It
//! answers the bytes of the command's input with a [`Reply`](tplib_reply::Reply), or refuses them for a named cause.
//!
//! What the command means stands in `specs/Mixed`; the fault that this mode alone has, in `specs/Fault`.
#![tactic(auto)]

mod fault;
mod mixed;
mod report;

pub use mixed::mixed_reply;
