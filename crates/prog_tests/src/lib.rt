//! Tables of programs and of trace files, good and bad, with the exact first fault and its place.
//!
//! What is wanted is written by hand from the formats, never copied from a run.
#![tactic(auto)]

#[cfg(test)]
mod tests;
