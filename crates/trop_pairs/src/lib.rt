//! What the double description carries beside a row, and how a pair of rows is judged by it without a look at a
//! coordinate: a test on words that rejects most pairs, and the tangent hypergraph of what a pair gives.
#![tactic(auto)]

mod carried;
mod carrying;
mod early;
mod filling;
mod graph;
mod judging;
mod keeping;
mod merging;
mod reading;
mod slot;
mod terms;
mod words;

pub use carried::Carried;
pub use carrying::{carry, new_slot};
pub use early::fades;
pub use filling::fill_pair;
pub use graph::add_all;
pub use judging::judge;
pub use keeping::{Addition, addition_of, left_alone, types_with};
pub use merging::{Slots, cover_of, merge_all};
pub use reading::{Sum, Sums, is_zero, slot_of, sums_at};
pub use slot::{RowSlot, merged};
pub use terms::{Term, Terms};
pub use words::{RowWords, closed_by, rejects};
