//! Sources and sinks that fail.
use run_examples::{Ended, Run, leaves, same_ending, split};
use std::alloc::Global;
use std::test::Fail;
use tplib_cmd::run;
use trop_io::{MemSink, MemSource};

const POINTS: &str = "kind gens\nsemiring max\nvars x\npoint [0]\npoint [1]\npoint [2]\n";

const REDUCED: &str = "kind gens\nsemiring max\nvars x\npoint [0]\npoint [2]\n";

const BELOW: &str = "kind ineqs\nsemiring max\nvars x y\nx <= y\n";

const CONVERTED: &str =
    "kind gens\nsemiring max\nvars x y\nray [-oo, 0]\nray [0, 0]\npoint [-oo, -oo]\n";

const READ_FAILED: &[u8] = b"tplib: read failed\n";

const WRITE_FAILED: &[u8] = b"tplib: write failed\n";

const REDUCE: Run<'static> = Run {
    why: "points in a row",
    words: "reduce",
    input: POINTS,
    room: 4096,
    read_fails: 0,
    write_fails: 0,
    err_fails: 0,
};

const EXT: Run<'static> = Run {
    why: "one inequality",
    words: "ext",
    input: BELOW,
    ..REDUCE
};

// The 60 bytes of the one take 4 reads, the 40 bytes of the other take 3, and the end takes one more.
const READS: [(Run<'static>, u64); 9] = [
    (REDUCE, 1),
    (REDUCE, 2),
    (REDUCE, 3),
    (REDUCE, 4),
    (REDUCE, 5),
    (EXT, 1),
    (EXT, 2),
    (EXT, 3),
    (EXT, 4),
];

// That a run whose read of this number fails ends so. The line of errors is written whole, or cut off where the second write
// of it fails.
fn fails_in_read(alloc: Global, case: &Run<'_>, read_fails: u64) -> Result<(), Fail> {
    let failing = Run {
        read_fails,
        ..*case
    };
    let cut = Run {
        err_fails: 2,
        ..failing
    };
    leaves(alloc, &failing, (6, b"", READ_FAILED))?;
    leaves(alloc, &cut, (6, b"", b"tplib: "))
}

#[test]
fn a_source_that_fails_at_each_call_in_turn(rt: HostRuntime) -> Result<(), Fail> {
    for (case, read_fails) in &READS {
        fails_in_read(rt.alloc(), case, *read_fails)?;
    }
    Ok(())
}

// The 50 bytes of the one answer take 7 writes, the 73 bytes of the other 10, and each but the last takes 8 of them.
const WRITES: [(Run<'static>, u64, &str); 17] = [
    (REDUCE, 1, ""),
    (REDUCE, 2, "kind gen"),
    (REDUCE, 3, "kind gens\nsemiri"),
    (REDUCE, 4, "kind gens\nsemiring max\nv"),
    (REDUCE, 5, "kind gens\nsemiring max\nvars x\npo"),
    (REDUCE, 6, "kind gens\nsemiring max\nvars x\npoint [0]\n"),
    (
        REDUCE,
        7,
        "kind gens\nsemiring max\nvars x\npoint [0]\npoint [2",
    ),
    (EXT, 1, ""),
    (EXT, 2, "kind gen"),
    (EXT, 3, "kind gens\nsemiri"),
    (EXT, 4, "kind gens\nsemiring max\nv"),
    (EXT, 5, "kind gens\nsemiring max\nvars x y\n"),
    (EXT, 6, "kind gens\nsemiring max\nvars x y\nray [-oo"),
    (
        EXT,
        7,
        "kind gens\nsemiring max\nvars x y\nray [-oo, 0]\nray",
    ),
    (
        EXT,
        8,
        "kind gens\nsemiring max\nvars x y\nray [-oo, 0]\nray [0, 0]\n",
    ),
    (
        EXT,
        9,
        "kind gens\nsemiring max\nvars x y\nray [-oo, 0]\nray [0, 0]\npoint [-",
    ),
    (
        EXT,
        10,
        "kind gens\nsemiring max\nvars x y\nray [-oo, 0]\nray [0, 0]\npoint [-oo, -oo]",
    ),
];

// That a run whose write of this number fails ends so. The line of errors is written whole, or not at all where the first
// write of it fails.
fn fails_in_write(
    alloc: Global,
    case: &Run<'_>,
    write_fails: u64,
    front: &str,
) -> Result<(), Fail> {
    let failing = Run {
        write_fails,
        ..*case
    };
    let silent = Run {
        err_fails: 1,
        ..failing
    };
    leaves(alloc, &failing, (7, front.as_bytes(), WRITE_FAILED))?;
    leaves(alloc, &silent, (7, front.as_bytes(), b""))
}

#[test]
fn a_sink_that_fails_at_each_call_in_turn(rt: HostRuntime) -> Result<(), Fail> {
    for (case, write_fails, front) in &WRITES {
        fails_in_write(rt.alloc(), case, *write_fails, front)?;
    }
    Ok(())
}

// A run, its code, and what it leaves in its two sinks.
const RUNS: [(Run<'static>, u8, &str, &str); 14] = [
    (REDUCE, 0, REDUCED, ""),
    (
        Run {
            why: "each call behind the last one fails",
            read_fails: 6,
            write_fails: 8,
            err_fails: 1,
            ..REDUCE
        },
        0,
        REDUCED,
        "",
    ),
    (
        Run {
            why: "no call fails, but one that is not made",
            read_fails: 6,
            ..REDUCE
        },
        0,
        REDUCED,
        "",
    ),
    (
        Run {
            why: "no write fails, but one that is not made",
            write_fails: 8,
            ..REDUCE
        },
        0,
        REDUCED,
        "",
    ),
    (
        Run {
            why: "the room is just enough, and the line fails",
            room: 50,
            err_fails: 1,
            ..REDUCE
        },
        0,
        REDUCED,
        "",
    ),
    (
        Run {
            why: "one byte less room",
            room: 49,
            ..REDUCE
        },
        7,
        "kind gens\nsemiring max\nvars x\npoint [0]\npoint [2]",
        "tplib: write failed\n",
    ),
    (
        Run {
            why: "little room, and the line fails",
            room: 4,
            err_fails: 1,
            ..REDUCE
        },
        7,
        "kind",
        "",
    ),
    (
        Run {
            why: "the end of the input fails before any write",
            read_fails: 5,
            write_fails: 1,
            ..REDUCE
        },
        6,
        "",
        "tplib: read failed\n",
    ),
    (
        Run {
            why: "a read, a write and the line fail",
            read_fails: 2,
            write_fails: 1,
            err_fails: 1,
            ..REDUCE
        },
        6,
        "",
        "",
    ),
    (
        Run {
            why: "a fault of the text before a failing write",
            input: "kind",
            read_fails: 3,
            write_fails: 1,
            ..REDUCE
        },
        3,
        "",
        "tplib: line 1, column 5: syntax\n",
    ),
    (
        Run {
            why: "a failing read before a fault of the text",
            input: "kind",
            read_fails: 2,
            write_fails: 1,
            ..REDUCE
        },
        6,
        "",
        "tplib: read failed\n",
    ),
    (
        Run {
            why: "an empty input, no room, and the line fails",
            input: "",
            room: 0,
            err_fails: 1,
            ..REDUCE
        },
        3,
        "",
        "",
    ),
    (
        Run {
            why: "bad words before failing streams",
            words: "reduce now",
            read_fails: 1,
            write_fails: 1,
            ..REDUCE
        },
        2,
        "",
        "tplib: bad words\n",
    ),
    (
        Run {
            why: "bad words, and the line fails",
            words: "analyze delay=2",
            read_fails: 1,
            write_fails: 1,
            err_fails: 1,
            ..REDUCE
        },
        2,
        "",
        "",
    ),
];

#[test]
fn devices_that_fail_together(rt: HostRuntime) -> Result<(), Fail> {
    for (case, code, out, err) in &RUNS {
        leaves(rt.alloc(), case, (*code, out.as_bytes(), err.as_bytes()))?;
    }
    Ok(())
}

// That a text with a comment behind it, of so many bytes in all, ends so.
fn ends_at_length(
    alloc: Global,
    asked: (&str, &str),
    length: usize,
    wanted: Ended<'_>,
) -> Result<(), Fail> {
    let words = split(alloc, asked.0)?;
    let mut bytes = Vec::from_slice(alloc, asked.1.as_bytes())?;
    bytes.resize(length, b'#')?;
    let mut input = MemSource::new(bytes, 1_048_576, Vec::new(alloc));
    let mut answer = MemSink::new(alloc, 128, 64, Vec::new(alloc))?;
    let mut line = MemSink::new(alloc, 64, 64, Vec::new(alloc))?;
    let status = run(alloc, &words, &mut input, &mut answer, &mut line);
    same_ending(
        alloc,
        (asked.0, asked.1.as_bytes()),
        wanted,
        (status.code(), answer.bytes(), line.bytes()),
    )
}

// The longest input, and one byte more.
#[test]
fn inputs_up_to_4194304_bytes(rt: HostRuntime) -> Result<(), Fail> {
    let alloc = rt.alloc();
    let too_long: Ended<'_> = (3, b"", b"tplib: input longer than 4194304 bytes\n");
    for (words, text, answer) in [("reduce", POINTS, REDUCED), ("ext", BELOW, CONVERTED)] {
        let answered: Ended<'_> = (0, answer.as_bytes(), b"");
        ends_at_length(alloc, (words, text), 4_194_304, answered)?;
        ends_at_length(alloc, (words, text), 4_194_305, too_long)?;
    }
    Ok(())
}

// Where the words are bad the input is left, and another run reads it.
#[test]
fn bad_words_leave_the_input(rt: HostRuntime) -> Result<(), Fail> {
    let alloc = rt.alloc();
    let bytes = Vec::from_slice(alloc, POINTS.as_bytes())?;
    let mut input = MemSource::new(bytes, 16, Vec::new(alloc));
    for (words, code, out, err) in [
        ("reduced", 2, "", "tplib: bad words\n"),
        ("reduce", 0, REDUCED, ""),
    ] {
        let list = split(alloc, words)?;
        let mut answer = MemSink::new(alloc, 64, 8, Vec::new(alloc))?;
        let mut line = MemSink::new(alloc, 64, 8, Vec::new(alloc))?;
        let status = run(alloc, &list, &mut input, &mut answer, &mut line);
        same_ending(
            alloc,
            (words, POINTS.as_bytes()),
            (code, out.as_bytes(), err.as_bytes()),
            (status.code(), answer.bytes(), line.bytes()),
        )?;
    }
    Ok(())
}
