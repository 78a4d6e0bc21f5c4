//! Analyses by zones in a table. Nothing stands on this crate.
#![tactic(auto)]

#[cfg(test)]
mod tests;
