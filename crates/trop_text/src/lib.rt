//! The lowest layer of the text formats.
//!
//! - [`Lexer`] cuts a source into tokens, each with its line and column. Its contract says what the tokens of a text
//!   are with no order of work: the longest words, digits and signs outside of comments.
//! - [`Pieces`] are these tokens with the ends of lines and of the input, which the grammars of files speak of.
//! - [`Fault`] is what may be wrong with a text, and where; [`fault_before`] places it.
//! - [`Names`] are the names of variables in the order in which they were first seen.
//!
//! Going over a source takes time that grows with its length: no step goes over bytes again, but for the length of
//! one line, or the number of lines, where a fault is placed.
#![tactic(auto)]

mod bytes;
mod digits;
mod fault;
mod lexer;
mod lines;
mod name;
mod names;
mod pieces;
mod places;
mod token;

pub use digits::digits_value;
pub use fault::{Fault, FaultKind, TextErr};
pub use lexer::Lexer;
pub use name::{as_name, is_name, is_reserved};
pub use names::{Names, NoMemory};
pub use pieces::{Piece, Pieces};
pub use places::fault_before;
pub use token::{Token, TokenKind};
