//! The command `check`: whether a report is inductive, or the first condition that fails. A call answers the bytes of a
//! command's input with a [`Reply`](tplib_reply::Reply), or refuses them for a named cause.
//!
//! What the command means is said in `specs/Check`, its lines in `specs/Lines`.
#![tactic(auto)]

mod check;
mod reply;
mod verdict_text;

pub use check::check_reply;
