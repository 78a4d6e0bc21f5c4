//! The asserts of a program: the point and the number of each, and what it claims, in the order of their numbers. It
//! stands on the tree and the control graph alone, so that whoever makes, reads or checks a report takes them from here.
#![tactic(auto)]

mod assertion;
mod statements;

pub use assertion::{Assertion, asserts};

/// Want of memory.
pub type NoMemory = std::alloc::AllocError;
