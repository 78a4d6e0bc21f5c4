//! Reports as text: their printer. The one text by which a report is printed stands in `report_texts`; what is printed
//! of a report that may stand in a text is read back to the same report.
#![tactic(auto)]

mod blocks;
mod head;
mod lines;
mod report;

pub use report::print_report;

/// Want of memory.
pub type NoMemory = std::alloc::AllocError;
