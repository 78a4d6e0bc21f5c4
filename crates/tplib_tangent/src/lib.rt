//! The command `tangent`: the tangent directed hypergraph of a system at a solution, the types of the solution and
//! whether it is extreme; or the first inequality that fails.
//!
//! What the command means is said in `specs/Tangent`.
#![tactic(auto)]

mod coordinates;
mod numbers;
mod row_reply;
mod solution_text;
mod tangent;

pub use tangent::tangent_reply;
