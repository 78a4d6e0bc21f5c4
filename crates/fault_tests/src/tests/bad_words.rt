//! Words that are no command.
use run_examples::{ends_so, same_ending};
use std::test::Fail;
use tplib_cmd::run;
use trop_io::{MemSink, MemSource};

// Words that are no command, separated by single blanks.
const BAD_WORDS: [&str; 53] = [
    "reduce now",
    "now reduce",
    "reduce reduce",
    "Reduce",
    "REDUCE",
    "reduces",
    "redu",
    " reduce",
    "reduce ",
    "-reduce",
    "--help",
    "--version",
    "help",
    "ext ext",
    "extend",
    "tangent 1",
    "tangents",
    "op",
    "op includes",
    "op join join",
    "op forget",
    "op forget x",
    "op forget var=",
    "op forget var=1x",
    "op forget var=x=y",
    "op forget var=aaaaaaaaaaaaaaaaaaaaaaaaaaaaaaaaa",
    "analyze",
    "analyze delay=2",
    "analyze mode=bool",
    "analyze mode=max mode=min",
    "analyze delay=2 mode=max",
    "analyze mode=max delay=02",
    "analyze mode=max delay=+2",
    "analyze mode=max delay=-1",
    "analyze mode=max delay=1001",
    "analyze mode=max delay=",
    "analyze mode=max,delay=2",
    "check check",
    "trace",
    "trace turns",
    "trace turns=",
    "trace turns=01",
    "trace turns=1 turns=1",
    "trace turns=18446744073709551616",
    "sample",
    "sample seed=1",
    "sample seed=1 vars=2",
    "sample seed=1 rows=2 vars=3",
    "sample seed=1 vars=0 rows=1",
    "sample seed=1 vars=32 rows=1",
    "sample seed=1 vars=2 rows=3 4",
    "int now",
    "int lean=off",
];

// Modes of analyses that are in no table of words.
const OTHER_MODES: [&str; 3] = [
    "analyze mode=interval",
    "analyze mode=zone mode=mixed",
    "analyze mode=Zone delay=2",
];

const LINE: &[u8] = b"tplib: bad words\n";

#[test]
fn words_that_are_no_command(rt: HostRuntime) -> Result<(), Fail> {
    let alloc = rt.alloc();
    for words in &BAD_WORDS {
        ends_so(alloc, "no command", words, b"kind", (2, b"", LINE))?;
    }
    Ok(())
}

#[test]
fn modes_that_are_no_command(rt: HostRuntime) -> Result<(), Fail> {
    let alloc = rt.alloc();
    for words in &OTHER_MODES {
        ends_so(alloc, "no mode", words, b"vars;", (2, b"", LINE))?;
    }
    Ok(())
}

#[test]
fn no_words_at_all(rt: HostRuntime) -> Result<(), Fail> {
    let alloc = rt.alloc();
    let words = Vec::new(alloc);
    let mut input = MemSource::new(Vec::new(alloc), 1, Vec::new(alloc));
    let mut out = MemSink::new(alloc, 8, 8, Vec::new(alloc))?;
    let mut err = MemSink::new(alloc, 64, 8, Vec::new(alloc))?;
    let status = run(alloc, &words, &mut input, &mut out, &mut err);
    let got = (status.code(), out.bytes(), err.bytes());
    same_ending(alloc, ("no words", b""), (2, b"", LINE), got)
}
