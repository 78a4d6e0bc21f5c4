//! What a user of the library writes: the calls that README shows.
#![tactic(auto)]

#[cfg(test)]
mod tests;
