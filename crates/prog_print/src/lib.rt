//! Programs as text: their printer. The one text by which a program is printed stands in `prog_texts`; it has no
//! parenthesis that is not needed, and is read back to the program.
#![tactic(auto)]

mod claims;
mod conditions;
mod program;
mod statements;
mod terms;

pub use program::{print_program, push_program};

/// Want of memory.
pub type NoMemory = std::alloc::AllocError;
