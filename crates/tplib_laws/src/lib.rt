//! Laws of runs that no code needs, each the contract of a function that does nothing.
//!
//! A command prints a canonical text, so that files can be compared by the bytes of their answers. What `ext` or `int`
//! wrote can be read by the other one, which leads back to the same cone. What `analyze` wrote, `check` finds inductive.
#![tactic(auto)]

mod checked;
mod equal_bytes;
mod round_trips;

pub use checked::check_takes_analyze;
pub use equal_bytes::{equal_bytes_are_equal_cones, equal_bytes_are_equal_solutions};
pub use round_trips::{ext_takes_back_int, int_takes_back_ext};
