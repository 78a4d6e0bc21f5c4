//! Which asserts of a program the values of its points prove, for any domain.
#![tactic(auto)]

mod asserts;

pub use asserts::verdicts;
