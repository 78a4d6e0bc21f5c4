//! Matrices of bounds of differences in lists, row by row: those that come of a closed one by an operation of a
//! program, the join of two, the bounds of one that hold on another, and the closed matrix of bounds that have a state.
//! A bound is a number or none, and a matrix has none where its two coordinates are equal.
#![tactic(auto)]

mod bounds;
mod changes;
mod closing;
mod counting;
mod judging;
mod merging;
mod tables;

pub use bounds::is_at_most;
pub use changes::{Change, changed_table};
pub use closing::closed_table;
pub use counting::count_numbers;
pub use judging::has_large;
pub use merging::{is_stronger, joined_table, kept_table};
pub use tables::{Table, bound_at};
