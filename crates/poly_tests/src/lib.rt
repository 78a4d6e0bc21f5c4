//! Worked examples of operations on cones in each of the three semirings, their refusals and the texts of their errors, and
//! the laws of the crates of cones, each called once. Nothing stands on this crate.
//!
//! Coordinate 0 is that of constants; then come x, y and z. What is wanted was worked out by hand.
#![tactic(auto)]

#[cfg(test)]
mod calls;
#[cfg(test)]
mod cones;
#[cfg(test)]
mod laws;
#[cfg(test)]
mod operations;
#[cfg(test)]
mod refusals;
