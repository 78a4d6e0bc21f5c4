//! The files that the commands read and print: lists of inequalities, generators, pairs of those, and a vector with
//! inequalities around it.
//!
//! A file is a header of three lines and, behind it, what its kind says over the semiring that the header names. How
//! elements, rows and inequalities are written is said by [`trop_spelling`], whose calls stand here too.
#![tactic(auto)]

mod at;
mod file_kind;
mod generators;
mod header;
mod ineq_lines;
mod inequalities;
mod limits;
mod list_end;
mod pair;
mod print_file;

pub use at::{AnyAt, AtFile, read_at};
pub use generators::{AnyGens, GenFile, read_gens};
pub use ineq_lines::{AnyIneqLines, IneqLines, open_ineqs};
pub use inequalities::{AnyIneqs, IneqFile, read_ineqs};
pub use pair::{AnyPair, PairFile, read_pair};
pub use print_file::{print_gens, print_ineqs};
pub use trop_spelling::{NoMemory, RingKind, Spelling, ineq_text, read_ineq, read_row, row_text};
