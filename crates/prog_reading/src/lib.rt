//! What readers of programs stand on: the pieces of a text with what stands before each, single tokens, and the parts
//! of statements: operands, conditions and claims. Each reader follows a reading function of `prog_texts`;
//! `specs/Gives` says how.
#![tactic(auto)]

mod assert_rule;
mod at;
mod before;
mod claims;
mod conditions;
mod operands;
mod read_err;
mod words;

pub use assert_rule::AssertRule;
pub use at::At;
pub use before::{Before, Entry};
pub use claims::claim;
pub use conditions::condition;
pub use operands::operand;
pub use read_err::ReadErr;
pub use words::{
    GREATEST_ENTRY, MOST_VARS, bounded, follows, is_one_too_many, said, settle, sized, variable,
};
