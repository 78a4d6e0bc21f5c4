//! Chosen runs: a program runs from a state, and a list of numbers decides what its steps leave open. `trace` gives the
//! configurations of the run and why it ends.
//!
//! What is still to come is kept as a stack of rests of blocks, with the number of the first statement of each; what
//! contracts see is the stack of numbered statements that `prog_theory` speaks of.
#![tactic(auto)]

mod chosen;
mod configs;
mod looks;
mod stack;
mod steps;

pub use chosen::trace;
pub use configs::{Config, Configs, End, Traced};

/// Want of memory.
pub type NoMemory = std::alloc::AllocError;
