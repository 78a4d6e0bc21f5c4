//! Tables of files of generators and of inequalities: what they give, their first faults, and how they are printed.
//!
//! What is wanted is written by hand from the formats, never copied from a run.
#![tactic(auto)]

#[cfg(test)]
mod files;
