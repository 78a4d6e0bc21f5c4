//! Samples: their lines, and that no read is made.
use run_examples::{Run, answer_of, leaves};
use std::test::Fail;

// Why a sample stands, its words, and what it writes.
const SAMPLES: [(&str, &str, &str); 2] = [
    (
        "the greater of -10 and x + 6 is at most y + 1",
        "sample seed=0 vars=2 rows=1",
        "vars 2\ninequalities 1\ngenerators 3\nexternal 2\nlargest 11\n",
    ),
    (
        "no inequality: the unit vectors, and no bound",
        "sample seed=1 vars=3 rows=0",
        "vars 3\ninequalities 0\ngenerators 4\nexternal 0\nlargest 0\n",
    ),
];

// Samples that are made twice.
const TWICE: [&str; 4] = [
    "sample seed=7 vars=5 rows=8",
    "sample seed=0 vars=1 rows=12",
    "sample seed=2147483647 vars=3 rows=5",
    "sample seed=11 vars=12 rows=2",
];

// Each read fails, so none is made.
const UNREAD: Run<'static> = Run {
    why: "",
    words: "",
    input: "unread",
    room: 256,
    read_fails: 1,
    write_fails: 0,
    err_fails: 0,
};

#[test]
fn samples_made_twice(rt: HostRuntime) -> Result<(), Fail> {
    for words in &TWICE {
        let first = answer_of(rt.alloc(), words, b"unread")?;
        let again = Run {
            why: "made twice",
            words,
            ..UNREAD
        };
        leaves(rt.alloc(), &again, (0, &first, b""))?;
    }
    Ok(())
}

#[test]
fn samples_read_nothing(rt: HostRuntime) -> Result<(), Fail> {
    for (why, words, text) in &SAMPLES {
        let unread = Run {
            why,
            words,
            ..UNREAD
        };
        leaves(rt.alloc(), &unread, (0, text.as_bytes(), b""))?;
    }
    Ok(())
}
