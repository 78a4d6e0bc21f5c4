//! How texts are read, and how it is proved that they are read right. It has no code: `specs/` says what a reader of
//! a contract has to believe, and `proofs/` has the laws.
//!
//! A text is a list of tokens of any type. Three texts speak of each format, and laws join them:
//!
//! 1. A *grammar* (`specs/Grammar`): a relation between a list of tokens and the value that it spells. It says what
//!    belongs together and nothing about the order of work.
//! 2. A *reading function* (`specs/Reading`): it goes over the tokens once, from left to right, with a judge at each
//!    token, and gives a value and what is left, or what is wrong and where. It defines which fault is the first, and
//!    of which kind. Functions of a program follow it step by step.
//! 3. *Laws* (`proofs/Laws`, a law for each way to build a grammar): what the function takes is in the grammar, what
//!    is in the grammar is taken, and where it stops, the tokens before that place begin a text of the grammar, and
//!    together with the next token they begin none (`specs/Reads`).
//!
//! With them (`proofs/Whole`) a public reader of a whole text promises three things:
//!
//! - `found`: the value that it answers is spelled by the text;
//! - `only`: where the text spells a value, that value is answered (or memory runs out);
//! - `fault`: a refusal names the first fault (`IsFirstFault`): what stands before it could go on to a text of the
//!   grammar, with its token it could not, and the text spells nothing.
#![tactic(auto)]
