//! Verdicts on the asserts of small programs by tropical polyhedra, in a table worked by hand. Nothing stands on this
//! crate.
#![tactic(auto)]

#[cfg(test)]
mod tests;
