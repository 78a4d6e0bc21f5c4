//! Cones that are kept as their canonical list, and what is done with them: made from inequalities or from rows,
//! turned into inequalities, compared, joined, met, projected, assigned to and narrowed. Each operation gives
//! exactly the set of its definition, or says why it cannot. Everything is generic over the semiring.
#![tactic(auto)]

mod bounds;
mod comparing;
mod copying;
mod error;
mod images;
mod narrowing;
mod poly;

pub use error::PolyErr;
pub use poly::Poly;
