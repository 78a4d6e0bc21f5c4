//! The command `int lean=on`: the inequalities of the external list of a cone of which none follows from the others, and
//! for each of them a row that shows it.
//!
//! What the command means is said in `specs/Lean`, and the text of its answer in `specs/Printed`.
#![tactic(auto)]

mod lean;
mod print;
mod refusal;

pub use lean::lean_reply;
