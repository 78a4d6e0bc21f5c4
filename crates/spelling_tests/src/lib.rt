//! Tables of elements, rows and inequalities: as they are printed, and read as parts of lines.
//!
//! What is wanted is written by hand from the formats, never copied from a run.
#![tactic(auto)]

#[cfg(test)]
mod elements;
#[cfg(test)]
mod lines;
