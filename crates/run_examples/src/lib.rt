//! What the tests of runs share: how a worked example is run, over streams that fail or do not, and compared.
#![tactic(auto)]

mod calm;
mod ending;
mod failing;

pub use calm::{answer_of, each_ends_so, ended, ends_so};
pub use ending::{Ended, same_ending, shown, split};
pub use failing::{Run, leaves};
