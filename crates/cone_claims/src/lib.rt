//! Terms, guards and claims of programs at the rows of a cone: a guard as an inequality, whether it leaves a vector
//! with a finite coordinate 0, whether an inequality is valid, and whether rows prove the claim of an assert. It stands
//! on rows and programs alone, with neither polars nor hypergraphs below it, and is generic over the semiring.
#![tactic(auto)]

mod claims;
mod guards;
mod points;
mod sums;
mod validity;

pub use claims::proven_by;
pub use guards::guard_inequality;
pub use points::{guard_has_point, has_point};
pub use validity::is_valid;
