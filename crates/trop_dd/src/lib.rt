//! The double description method: from a system of inequalities to the canonical list of its solutions, one inequality
//! after another, by the extremality criterion. Everything is generic over the semiring.
#![tactic(auto)]

mod conversion;
mod convert;
mod copying;
mod dd;
mod error;
mod found;
mod laws;
mod mixing;
mod moving;
mod narrowing;
mod settling;
mod splitting;
mod starting;
mod units;

pub use conversion::Conversion;
pub use convert::extreme_rows;
pub use dd::Dd;
pub use error::DdErr;
pub use laws::equal_rows_are_equal_solutions;
