//! Runs over streams that fail by the numbers of their calls.
use crate::ending::{Ended, same_ending, split};
use std::alloc::Global;
use std::test::Fail;
use tplib_cmd::run;
use trop_io::{MemSink, MemSource};

/// A run: input in pieces of 16 bytes, the answer and the line of errors in pieces of 8.
#[derive(Clone, Copy)]
pub struct Run<'a> {
    /// What it is to show.
    pub why: &'a str,
    pub words: &'a str,
    pub input: &'a str,
    /// The room of the sink for the answer.
    pub room: usize,
    /// The numbers of the calls that fail; 0 for none.
    pub read_fails: u64,
    pub write_fails: u64,
    pub err_fails: u64,
}

/// That the run ends so; a failure with what was wanted and what came, where it does not.
pub fn leaves(alloc: Global, case: &Run<'_>, wanted: Ended<'_>) -> Result<(), Fail> {
    let words = split(alloc, case.words)?;
    let bytes = Vec::from_slice(alloc, case.input.as_bytes())?;
    let mut input = MemSource::new(bytes, 16, vec![in alloc; case.read_fails]?);
    let mut answer = MemSink::new(alloc, case.room, 8, vec![in alloc; case.write_fails]?)?;
    let mut line = MemSink::new(alloc, 64, 8, vec![in alloc; case.err_fails]?)?;
    let status = run(alloc, &words, &mut input, &mut answer, &mut line);
    let asked = format!(in alloc; "{}: {}", case.why, case.words)?;
    let got = (status.code(), answer.bytes(), line.bytes());
    same_ending(alloc, (asked.as_str(), case.input.as_bytes()), wanted, got)
}
