//! Samples: systems of pseudo-random inequalities in max-plus, which a seed, a number of variables and a number of
//! inequalities determine.
#![tactic(auto)]

mod coefficient;
mod draws;
mod inequality;
mod sample;
mod worked;

pub use sample::make;
pub use worked::first_numbers;
