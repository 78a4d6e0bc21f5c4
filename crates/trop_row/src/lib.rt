//! Rows, inequalities between sums of scaled coordinates, and lists of both: membership in the cone that rows
//! generate, the canonical list of that cone, and the elementary step, which adds one inequality to it.
//! Contracts see a row as the list of its elements. Everything is generic over the semiring.
#![tactic(auto)]

mod entries;
mod gens;
mod inequality;
mod largest;
pub mod laws;
mod membership;
mod reduction;
mod row;
mod step;
mod system;

pub use gens::Gens;
pub use inequality::Ineq;
pub use largest::{rows_size, system_size};
pub use membership::{first_unmet, meets, member, some_meets};
pub use reduction::reduce;
pub use row::Row;
pub use step::{mixed_row, step_all};
pub use system::System;
