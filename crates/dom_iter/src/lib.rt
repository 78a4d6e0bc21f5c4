//! The analysis of a control graph by any domain: the values of its points, pass after pass, until no head changes,
//! and then the narrowing.
#![tactic(auto)]

mod error;
mod family;
mod parts;
mod pass;
mod step;
mod sum;
mod top;

pub use error::IterErr;
pub use family::Family;
pub use top::analyse;
