//! How the elements of the three semirings are written: elements, rows, terms, sides and inequalities, both ways.
//!
//! [`Spelling`] gives the words of a semiring; [`RingKind`] says which of the three it is. [`read_row`] and
//! [`read_ineq`] read one row or inequality that ends its line, [`row_text`] and [`ineq_text`] print one, and what is
//! printed is read back. Readers of files go on with [`row_entries`], [`side_start`] and [`inequality_rest`].
//!
//! What is said of any semiring holds over each of the three: `specs/Over`.
#![tactic(auto)]

mod elements;
mod inequality;
mod parts;
mod print_row;
mod print_side;
mod ring_kind;
mod spelling;
mod terms;

pub use elements::row_entries;
pub use inequality::inequality_rest;
pub use parts::{read_ineq, read_row};
pub use print_row::{push_row, row_text};
pub use print_side::{ineq_text, push_inequality};
pub use ring_kind::RingKind;
pub use spelling::{NoMemory, Spelling};
pub use terms::{Start, side_start};
