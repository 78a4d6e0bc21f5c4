//! Polars of a cone that is given by rows (Gaubert, Katz, The tropical analogue of polar cones, 2009): the system of
//! inequalities whose solutions they are, the inequality that one of their rows gives, and the inequality that tells a
//! vector from the cone. Everything is generic over the semiring.
#![tactic(auto)]

mod barrier;
pub mod laws;
mod polar;
mod separation;
#[cfg(test)]
mod tests;

pub use polar::{inequality_of, polar_system};
pub use separation::separate;
