//! Altered reports with the exact first fault of each, and the fronts of a report.
//!
//! What is wanted is written by hand from the form of reports, never copied from a run.
#![tactic(auto)]

#[cfg(test)]
mod tests;
