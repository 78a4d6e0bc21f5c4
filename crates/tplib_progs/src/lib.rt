//! The commands on programs: `trace`, which writes the configurations of a chosen run. A call answers the bytes of a
//! command's input with a [`Reply`](tplib_reply::Reply), or refuses them for a named cause.
//!
//! What the command means is said in `specs/Trace`, its lines in `specs/Lines`.
#![tactic(auto)]

mod numbers;
mod run_text;
mod trace;

pub use trace::trace_reply;
