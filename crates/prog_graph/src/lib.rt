//! The control graph of a program: its points, the edges between them with the operation of each, and the heads of its
//! loops. `build` makes it, and walks along its edges come to the point of a statement or to the exit exactly as runs
//! of the program do.
//!
//! Points and edges are numbered from 0. Each statement, in the order of numbers, gives a point, and directly after it
//! stand the inner points of its condition, one for each `&&` and `||` and for each `==` and `!=`; the exit is the last
//! point, and point 0 the entry. Edges are numbered by the points where they begin.
#![tactic(auto)]

mod edges;
mod graph;
mod heads;
mod into;
mod lists;
mod parts;
mod points;
mod tests;
mod width;

pub use graph::{Graph, build};
pub use lists::{Edges, Heads, Points};
pub use parts::{Edge, Op, Point};

/// Want of memory.
pub type NoMemory = std::alloc::AllocError;
