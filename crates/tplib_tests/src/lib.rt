//! Runs over streams that fail, runs on altered files, readers that no command calls alone, and the laws of the library,
//! each called once.
#![tactic(auto)]

#[cfg(test)]
mod tests;
