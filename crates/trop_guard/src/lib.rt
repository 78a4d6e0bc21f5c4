//! One more inequality on a cone that is given by its canonical list alone, without a system of inequalities: the kept
//! rows, and those of the mixed rows of the elementary step that are extreme. A row is extreme where it is minimal at
//! some coordinate among all rows scaled to the one there, so rows are compared with rows, and the list of all pairs is
//! never held. Everything is generic over the semiring.
#![tactic(auto)]

mod error;
mod found;
mod fresh;
pub mod laws;
mod lower;
mod narrowing;
mod parts;

pub use error::GuardErr;
pub use narrowing::guard;
