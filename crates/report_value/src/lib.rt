//! Reports as values: what is said of each point of a program, and what every report keeps. Who writes, reads, prints or
//! checks a report meets only this crate.
//!
//! - `parts`: what is said of one point.
//! - `report`: a report over one semiring, and one over either.
//! - `specs/Views`, `specs/Texts`: what they stand for in the theory of reports and in that of their texts.
//!   `specs/Kept`: what they keep.
#![tactic(auto)]

mod parts;
mod report;

pub use parts::PointPart;
pub use report::{AnyReport, Report};
