//! Worked examples of each command: texts with the exact answers that [`tplib_cmd::run`] gives.
//!
//! The answers are written by hand from the formats and from the theory, never copied from a run.
#![tactic(auto)]

#[cfg(test)]
mod tests;
