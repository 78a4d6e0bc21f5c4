//! Lean lists: of a system of inequalities the part in which no inequality follows from the others, with a row for each
//! that shows it, and the check of such rows. Everything is generic over the semiring.
#![tactic(auto)]

mod certificate;
mod error;
mod failing;
mod list;
mod pushes;
#[cfg(test)]
mod tests;
mod turns;

pub use certificate::certify;
pub use error::LeanErr;
pub use list::LeanList;
pub use turns::lean;
