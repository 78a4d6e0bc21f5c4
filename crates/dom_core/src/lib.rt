//! What an analysis asks of a domain of values, and how an analysis names its parts.
#![tactic(auto)]

mod domain;
mod error;
mod place;

pub use domain::Domain;
pub use error::{At, DomErr};
pub use place::{Part, Place, Spot};
