//! The texts of programs and of trace files: what they spell, where the first fault stands, and how a program is
//! printed. It has no code. `specs/` has one notion a file, and `proofs/` shows that the reading functions, the grammar
//! and the shape agree, and that what is printed is read back.
//!
//! - `Words`: the pieces of a text, each with what stands before it, so that a judge looks at one token alone.
//! - `Judges`: what a token may be. `Shapes`: which tokens may follow which, on one page.
//! - `Operands`, `Conditions`, `Claims`, `Statements`, `Programs`, `Rows`, `Traces`, `Parts`: the grammar of each part
//!   and, beside it, the function that reads it.
//! - `Causes`: what holds where a fault of each kind stands. `Answers`: the value of a text, or its first fault with
//!   its place.
//! - `Printed`: the one text by which a program is printed, as a list of inks. `Suits`: what may be printed.
#![tactic(auto)]
