//! The program `tplib`: standard input, output and error, and the words of the command line, handed to
//! [`tplib_cmd::run`].
#![tactic(auto)]

use std::env;
use std::process::ExitCode;
use tplib_cmd::run;
use trop_io::{StdSink, StdSource};

/// The exit status where the system does not give the words. No run ends with it.
const NO_WORDS: u8 = 10;

// The words behind the program's own name.
fn words_of(rt: &HostRuntime) -> Option<Vec<String>> {
    let mut words = Vec::new(rt.alloc());
    let args = env::args(rt).ok()?;
    for word in args.skip(1) {
        words.push(word).ok()?;
    }
    Some(words)
}

fn main(rt: HostRuntime) -> ExitCode {
    let Some(words) = words_of(&rt) else {
        return ExitCode::from(NO_WORDS);
    };
    let mut input = StdSource::new(rt.stdin());
    let mut out = StdSink::new(rt.stdout());
    let mut err = StdSink::new(rt.stderr());
    let status = run(rt.alloc(), &words, &mut input, &mut out, &mut err);
    ExitCode::from(status.code())
}
