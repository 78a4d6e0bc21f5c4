//! Short reports of zones as text. The block of a point has a line for each bound of its closed matrix (`specs/Blocks`,
//! with rows worked by hand in `proofs/Sample`); the report has one block for each point, and says of each assert whether
//! the zone of its point proves the claim (`specs/Reports`).
#![tactic(auto)]

mod block;
mod limits;
mod report;

pub use report::print_zone;

/// Want of memory.
pub type NoMemory = std::alloc::AllocError;
