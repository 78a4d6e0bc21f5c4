//! Short reports as text: their printer. The one text by which a short report is printed stands in `short_texts`; the
//! texts of its blocks are those that a domain has made of the values of points.
#![tactic(auto)]

mod blocks;
mod head;
mod report;

pub use head::Head;
pub use report::print_short;

/// Want of memory.
pub type NoMemory = std::alloc::AllocError;
