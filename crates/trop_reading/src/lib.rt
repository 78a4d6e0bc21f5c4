//! What every reader of a text stands on: judges of single pieces, refusals with their places, and what a reader
//! promises.
//!
//! A reader goes along [`Pieces`](trop_text::Pieces), which it copies, and answers a value with the pieces behind it,
//! or a [`ReadErr`]. Its contract names the reading function on pieces that it follows (`specs/Gives`); what that
//! function gives and where it stops are laws about lists of pieces (`trop_grammar`). A public reader turns the error
//! into a [`TextErr`](trop_text::TextErr) with the place of the fault ([`text_err`], [`part_err`]), and promises what
//! `specs/Outcome` says.
//!
//! `proofs/` has what loops of readers answer (`Loops`), how the promises follow (`Outcomes`), that the value of a
//! number token is within its bound (`TokenBounds`), and how a printed text is read back (`WrittenTexts`, `NameWords`).
#![tactic(auto)]

mod read_err;
mod refusal;
mod words;

pub use read_err::ReadErr;
pub use refusal::{part_err, text_err};
pub use words::{input_end, is_digits, line_end, number, said, says, settle, text_of};
