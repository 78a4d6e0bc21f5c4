//! Tables of tokens with their places, of names, of digits and of the texts of faults.
//!
//! What is wanted is written by hand from the formats, never copied from a run.
#![tactic(auto)]

#[cfg(test)]
mod faults;
#[cfg(test)]
mod tokens;
