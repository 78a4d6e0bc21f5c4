//! Streams of bytes whose failures can be counted, so that an answer "the read failed" has a cause that a caller can
//! check.
//!
//! A [`Source`] gives bytes and a [`Sink`] takes them. Each keeps a count of its faults, and says, where it knows them,
//! which bytes are left or held. [`read_all`] and [`write_all`] go over any of them; [`MemSource`], [`MemSink`],
//! [`SureSource`] and [`SureSink`] are in memory, for tests and for callers that have the bytes; [`StdSource`] and
//! [`StdSink`] adapt std's.
//!
//! Counts are `u64` and stay at their last value, so "the count rose" means: it is greater than before, or at its last
//! value.
#![tactic(auto)]

mod fault;
mod mem_sink;
mod mem_source;
mod pieces;
mod read;
mod sink;
mod source;
mod std_ends;
mod sure;
mod write;

pub use fault::{Failed, NoMemory};
pub use mem_sink::MemSink;
pub use mem_source::MemSource;
pub use read::{ReadAllErr, read_all};
pub use sink::Sink;
pub use source::Source;
pub use std_ends::{StdSink, StdSource};
pub use sure::{SureSink, SureSource};
pub use write::{WriteFault, write_all};

#[cfg(test)]
mod tests;
