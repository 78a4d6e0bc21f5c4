//! Where the entries of a row stand: the trait `Entries`, and its implementation for lists of which 8 elements need no
//! memory.
#![tactic(auto)]

mod entries;

pub use entries::Entries;
