//! The words of the command line: which command they spell.
//!
//! [`read_words`] answers a [`Command`] exactly where the words are in the table below, one row a command, in exactly
//! this order.
//! Numbers are decimal, without sign and without leading zeros. A key in square brackets may be left out.
//!
//! | Words | Range |
//! |---|---|
//! | `reduce`, `ext`, `tangent`, `check` | |
//! | `int [lean=on]` | |
//! | `op include`, `op equal`, `op join`, `op meet` | |
//! | `op forget var=NAME` | a name of at most 32 bytes |
//! | `trace turns=N` | 0 to 10,000 |
//! | `analyze mode=M [delay=N] [narrow=K]` | `max`, `min`, `mixed` or `zone`; 0 to 1,000, else 2; 0 to 100, else 0 |
//! | `sample seed=N vars=D rows=K` | 0 to 2,147,483,647; 1 to 31; 0 to 1,024 |
#![tactic(auto)]

mod command;
mod names;
mod numbers;
mod table;

pub use command::{BadWords, Command, Mode};
pub use table::read_words;

#[cfg(test)]
mod tests;
