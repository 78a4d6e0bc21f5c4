//! Short reports of small programs over variables and their opposites, in a table worked by hand. Nothing stands on this
//! crate.
#![tactic(auto)]

#[cfg(test)]
mod tests;
