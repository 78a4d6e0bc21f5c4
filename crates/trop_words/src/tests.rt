//! The words of each command, and words that spell none.
use super::*;
use std::alloc::Global;
use std::test::Fail;

fn words_of(alloc: Global, line: &str) -> Result<Vec<String>, Fail> {
    let mut words = Vec::new(alloc);
    for word in line.split(' ') {
        words.push(String::from_str(alloc, word)?)?;
    }
    Ok(words)
}

const GOOD: [(&str, Command<'static>); 23] = [
    ("reduce", Command::Reduce),
    ("ext", Command::Ext),
    ("int", Command::Int { lean: false }),
    ("int lean=on", Command::Int { lean: true }),
    ("tangent", Command::Tangent),
    ("op include", Command::Include),
    ("op equal", Command::Equal),
    ("op join", Command::Join),
    ("op meet", Command::Meet),
    ("op forget var=max", Command::Forget { var: "max" }),
    (
        "op forget var=_bcdefghijklmnopqrstuvwxyz012345",
        Command::Forget {
            var: "_bcdefghijklmnopqrstuvwxyz012345",
        },
    ),
    ("trace turns=0", Command::Trace { turns: 0 }),
    ("trace turns=10000", Command::Trace { turns: 10_000 }),
    ("check", Command::Check),
    (
        "analyze mode=max",
        Command::Analyze {
            mode: Mode::Max,
            delay: 2,
            narrow: 0,
        },
    ),
    (
        "analyze mode=min delay=0",
        Command::Analyze {
            mode: Mode::Min,
            delay: 0,
            narrow: 0,
        },
    ),
    (
        "analyze mode=min narrow=100",
        Command::Analyze {
            mode: Mode::Min,
            delay: 2,
            narrow: 100,
        },
    ),
    (
        "analyze mode=max delay=2 narrow=0",
        Command::Analyze {
            mode: Mode::Max,
            delay: 2,
            narrow: 0,
        },
    ),
    (
        "analyze mode=max delay=1000 narrow=7",
        Command::Analyze {
            mode: Mode::Max,
            delay: 1_000,
            narrow: 7,
        },
    ),
    (
        "analyze mode=mixed",
        Command::Analyze {
            mode: Mode::Mixed,
            delay: 2,
            narrow: 0,
        },
    ),
    (
        "analyze mode=zone delay=0 narrow=1",
        Command::Analyze {
            mode: Mode::Zone,
            delay: 0,
            narrow: 1,
        },
    ),
    (
        "sample seed=0 vars=1 rows=0",
        Command::Sample {
            seed: 0,
            vars: 1,
            rows: 0,
        },
    ),
    (
        "sample seed=2147483647 vars=31 rows=1024",
        Command::Sample {
            seed: 2_147_483_647,
            vars: 31,
            rows: 1_024,
        },
    ),
];

const BAD: [&str; 31] = [
    "",
    "Reduce",
    "reduce ",
    "reduce reduce",
    "--help",
    "int lean=off",
    "int lean=",
    "int lean",
    "int lean=on ",
    "int lean=on lean=on",
    "lean=on int",
    "ext lean=on",
    "op",
    "op forget",
    "op forget var=",
    "op forget var=9x",
    "op forget var=abcdefghijklmnopqrstuvwxyz0123456",
    "op reduce",
    "trace turns=10001",
    "trace turns=01",
    "trace turns=+1",
    "trace turns=",
    "analyze delay=2",
    "analyze mode=both",
    "analyze mode=zones",
    "analyze mode=",
    "analyze mode=max narrow=101",
    "analyze mode=max narrow=1 delay=1",
    "analyze mode=max delay=1 delay=1",
    "sample seed=0 vars=0 rows=0",
    "sample vars=1 seed=0 rows=0",
];

#[test]
fn the_table_of_words(rt: HostRuntime) -> Result<(), Fail> {
    let alloc = rt.alloc();
    for (line, command) in GOOD {
        let words = words_of(alloc, line)?;
        assert!(rt; read_words(&words) == Ok(command), "{line}");
    }
    for line in BAD {
        let words = words_of(alloc, line)?;
        assert!(rt; read_words(&words) == Err(BadWords), "{line}");
    }
    assert!(rt; read_words(&[]) == Err(BadWords));
    let text = format!(in alloc; "{BadWords}")?;
    assert_eq!(rt; text.as_str(), "bad words");
    Ok(())
}
