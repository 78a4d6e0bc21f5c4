//! Short reports of programs over variables and their opposites, as text. `specs/Blocks` has the text of a point's block
//! and `specs/Texts` the whole; what it says of a point stands in `specs/Said`.
#![tactic(auto)]

mod blocks;
mod error;
mod lines;
mod print;
mod sides;

pub use error::MixedErr;
pub use print::print_mixed;

// Want of memory.
pub(crate) type NoMemory = std::alloc::AllocError;
