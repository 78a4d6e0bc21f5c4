//! Runs over streams of which no call fails.
use crate::ending::{Ended, same_ending, shown, split};
use std::alloc::Global;
use std::test::Fail;
use tplib_cmd::run;
use trop_io::{MemSink, MemSource};

/// That a run of the words on the input ends so; a failure with what was wanted and what came, and with the word why the
/// case stands, where it does not.
pub fn ends_so(
    alloc: Global,
    why: &str,
    words: &str,
    input: &[u8],
    wanted: Ended<'_>,
) -> Result<(), Fail> {
    let list = split(alloc, words)?;
    let bytes = Vec::from_slice(alloc, input)?;
    let mut source = MemSource::new(bytes, 4096, Vec::new(alloc));
    let mut answer = MemSink::new(alloc, 1_048_576, 4096, Vec::new(alloc))?;
    let mut line = MemSink::new(alloc, 256, 64, Vec::new(alloc))?;
    let status = run(alloc, &list, &mut source, &mut answer, &mut line);
    let asked = format!(in alloc; "{why}: {words}")?;
    let got = (status.code(), answer.bytes(), line.bytes());
    same_ending(alloc, (asked.as_str(), input), wanted, got)
}

/// The end with this code: with 0 and 1 the text is the answer, and with any other the line of errors.
pub fn ended(code: u8, text: &str) -> Ended<'_> {
    let text = text.as_bytes();
    if code <= 1 {
        (code, text, b"")
    } else {
        (code, b"", text)
    }
}

/// That the run on each of the inputs ends with this code and the text beside it.
pub fn each_ends_so(
    alloc: Global,
    words: &str,
    code: u8,
    cases: &[(&str, &str)],
) -> Result<(), Fail> {
    for (input, text) in cases {
        ends_so(
            alloc,
            "a row of a table",
            words,
            input.as_bytes(),
            ended(code, text),
        )?;
    }
    Ok(())
}

/// What a run of the words on the input writes; a failure where it does not end with the code 0.
pub fn answer_of(alloc: Global, words: &str, input: &[u8]) -> Result<Vec<u8>, Fail> {
    let list = split(alloc, words)?;
    let bytes = Vec::from_slice(alloc, input)?;
    let mut input = MemSource::new(bytes, 4096, Vec::new(alloc));
    let mut out = MemSink::new(alloc, 65_536, 4096, Vec::new(alloc))?;
    let mut err = MemSink::new(alloc, 256, 64, Vec::new(alloc))?;
    let status = run(alloc, &list, &mut input, &mut out, &mut err);
    if status.code() != 0 {
        return Err(Fail::new(format!(in alloc;
            "{words}: code {}: {}",
            status.code(),
            shown(err.bytes())
        )?));
    }
    Ok(Vec::from_slice(alloc, out.bytes())?)
}
