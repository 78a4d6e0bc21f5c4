//! Tables of programs and of conditions as they are printed, each read back.
//!
//! What is wanted is written by hand from the formats, never copied from a run.
#![tactic(auto)]

#[cfg(test)]
mod tests;
