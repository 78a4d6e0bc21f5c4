//! The semirings of the library: the trait `Scalar` with every law that generic code stands on, the trait `Numeric`
//! of those whose finite elements are the whole numbers, and the three instances. No call takes memory.
#![tactic(auto)]

mod flag;
mod lanes;
mod max_int;
mod min_int;
mod scalar;

pub use flag::Flag;
pub use max_int::MaxInt;
pub use min_int::MinInt;
pub use scalar::{Numeric, Scalar};
