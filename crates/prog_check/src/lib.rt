//! The check of a report, whoever wrote it: whether it is inductive, and else the first condition that fails. It uses
//! membership, the elementary step and the truth of inequalities at rows. Neither polars nor hypergraphs lie below it,
//! and it goes round no loop of the program.
//!
//! `moved` makes the rows that an operation makes of rows, and `edge_list` the list of an edge. `whole`, `escapes`,
//! `validity` and `verdicts` look at one of the four conditions at rows; `edges` and `points` find where one fails
//! first, and `checking` takes the conditions in their order.
#![tactic(auto)]

mod checking;
mod edge_list;
mod edges;
mod escapes;
mod moved;
mod points;
mod validity;
mod verdict;
mod verdicts;
mod whole;

pub use checking::check;
pub use verdict::Verdict;
