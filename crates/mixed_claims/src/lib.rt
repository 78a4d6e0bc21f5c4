//! Claims of a program on variables and their opposites, at the rows of a cone: the opposites of terms, and whether
//! rows prove a claim, by its sides, by the opposites of its sides, or by pairs of their terms. No call takes memory.
#![tactic(auto)]

mod claims;
mod opposites;
mod pairs;
mod sums;

pub use claims::proved_by;
pub use opposites::{opposite, opposite_term};
