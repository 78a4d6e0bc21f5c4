//! Analyses of small programs by tropical polyhedra, in tables worked by hand. Nothing stands on this crate.
#![tactic(auto)]

#[cfg(test)]
mod tests;
