//! The lines that every text of an analysis has, whatever it says of the points: a word with what it names, the first line
//! of a point's block, and the verdicts on asserts. Each call appends to a text; its only error is want of memory.
#![tactic(auto)]

mod asserts;
mod lines;

pub use asserts::push_verdicts;
pub use lines::{push_number_line, push_point, push_word_line};

/// Want of memory.
pub type NoMemory = std::alloc::AllocError;
