//! The tree of a program: terms, conditions, claims, statements, blocks and programs, which contracts see as the plain
//! data of `prog_theory`, and lists of numbers. What a tree means stands there.
#![tactic(auto)]

mod block;
mod claim;
mod cond;
mod numbers;
mod program;
mod term;

pub use block::{Block, Stmt};
pub use claim::{Claim, Rel, Side, SideWord, Terms};
pub use cond::{Cond, CondShape};
pub use numbers::Numbers;
pub use program::Program;
pub use term::{Cmp, Term};

/// Want of memory.
pub type NoMemory = std::alloc::AllocError;
