//! Runs over streams in memory, and how they end.
use run_examples::{Ended, Run, leaves, same_ending, split};
use std::test::Fail;
use tplib_cmd::run;
use trop_io::{MemSink, SureSink, SureSource};

// A run with room for its answer, of which no call fails.
const CALM: Run<'static> = Run {
    why: "",
    words: "",
    input: "",
    room: 4096,
    read_fails: 0,
    write_fails: 0,
    err_fails: 0,
};

const THREE_POINTS: &str = "kind gens\nsemiring max\nvars x\npoint [0]\npoint [1]\npoint [2]\n";

// A run, its code, and what it leaves in its two sinks.
const CASES: [(Run<'static>, u8, &str, &str); 22] = [
    (
        Run {
            why: "the middle point of three goes",
            words: "reduce",
            input: THREE_POINTS,
            ..CALM
        },
        0,
        "kind gens\nsemiring max\nvars x\npoint [0]\npoint [2]\n",
        "",
    ),
    (
        Run {
            why: "a header alone, without its last line end",
            words: "reduce",
            input: "kind gens\nsemiring max\nvars x",
            ..CALM
        },
        0,
        "kind gens\nsemiring max\nvars x\n",
        "",
    ),
    (
        Run {
            why: "rays are scaled, and one of zeros goes",
            words: "reduce",
            input: "# rays\nkind gens\nsemiring max\nvars x\nray [3]\nray [-oo]\n",
            ..CALM
        },
        0,
        "kind gens\nsemiring max\nvars x\nray [0]\n",
        "",
    ),
    (
        Run {
            why: "multiples are one row in min",
            words: "reduce",
            input: "kind gens\nsemiring min\nvars x y\npoint [0, oo]\nray [5, -2]\npoint [1, oo]\nray [6, -1]\n",
            ..CALM
        },
        0,
        "kind gens\nsemiring min\nvars x y\nray [0, -7]\npoint [1, oo]\npoint [0, oo]\n",
        "",
    ),
    (
        Run {
            why: "a sum of two goes in bool",
            words: "reduce",
            input: "kind gens\nsemiring bool\nvars x y\nray [true, true]\nray [false, true]\nray [true, false]\n",
            ..CALM
        },
        0,
        "kind gens\nsemiring bool\nvars x y\nray [false, true]\nray [true, false]\n",
        "",
    ),
    (
        Run {
            why: "the second read fails",
            words: "reduce",
            input: THREE_POINTS,
            read_fails: 2,
            ..CALM
        },
        6,
        "",
        "tplib: read failed\n",
    ),
    (
        Run {
            why: "the second write fails",
            words: "reduce",
            input: THREE_POINTS,
            write_fails: 2,
            ..CALM
        },
        7,
        "kind gen",
        "tplib: write failed\n",
    ),
    (
        Run {
            why: "a file of inequalities",
            words: "reduce",
            input: "kind ineqs\nsemiring max\nvars x\n",
            ..CALM
        },
        3,
        "",
        "tplib: line 1: wrong kind\n",
    ),
    (
        Run {
            why: "a row that is too long",
            words: "reduce",
            input: "kind gens\nsemiring max\nvars x\npoint [0, 1]\n",
            ..CALM
        },
        3,
        "",
        "tplib: line 4, column 9: syntax\n",
    ),
    (
        Run {
            why: "a number past the limit",
            words: "reduce",
            input: "kind gens\nsemiring max\nvars x\npoint [1099511627777]\n",
            ..CALM
        },
        3,
        "",
        "tplib: line 4: number out of range\n",
    ),
    (
        Run {
            why: "one inequality",
            words: "ext",
            input: "kind ineqs\nsemiring max\nvars x y\nx <= y\n",
            ..CALM
        },
        0,
        "kind gens\nsemiring max\nvars x y\nray [-oo, 0]\nray [0, 0]\npoint [-oo, -oo]\n",
        "",
    ),
    (
        Run {
            why: "one inequality in min",
            words: "ext",
            input: "kind ineqs\nsemiring min\nvars x y\nx >= y\n",
            ..CALM
        },
        0,
        "kind gens\nsemiring min\nvars x y\nray [oo, 0]\nray [0, 0]\npoint [oo, oo]\n",
        "",
    ),
    (
        Run {
            why: "two implications",
            words: "ext",
            input: "kind ineqs\nsemiring bool\nvars x y z\nx => y\ny => z\n",
            ..CALM
        },
        0,
        "kind gens\nsemiring bool\nvars x y z\nray [false, false, true]\nray [false, true, true]\nray [true, true, true]\npoint [false, false, false]\n",
        "",
    ),
    (
        Run {
            why: "a number past the limit in a later line",
            words: "ext",
            input: "kind ineqs\nsemiring max\nvars x\n0 <= x\nx <= 1099511627777\n",
            ..CALM
        },
        3,
        "",
        "tplib: line 5: number out of range\n",
    ),
    (
        Run {
            why: "two hyperedges and two types",
            words: "tangent",
            input: "kind at\nsemiring max\nvars x y\nx <= y\ny <= x\nat [-oo, 0, 0]\n",
            ..CALM
        },
        0,
        "edge 1: y -> x\nedge 2: x -> y\ntypes: x y\nextreme: yes\n",
        "",
    ),
    (
        Run {
            why: "no solution",
            words: "tangent",
            input: "kind at\nsemiring max\nvars x y\nx <= y\ny <= x\nat [0, 1, 0]\n",
            ..CALM
        },
        1,
        "not a solution: inequality 1\n",
        "",
    ),
    (
        Run {
            why: "words that are no command leave the input",
            words: "reduce now",
            input: THREE_POINTS,
            read_fails: 1,
            ..CALM
        },
        2,
        "",
        "tplib: bad words\n",
    ),
    (
        Run {
            why: "no report at all",
            words: "check",
            input: "",
            ..CALM
        },
        3,
        "",
        "tplib: line 1, column 1: syntax\n",
    ),
    (
        Run {
            why: "an empty program, with a narrowing pass",
            words: "analyze mode=max delay=0 narrow=1",
            input: "vars;",
            ..CALM
        },
        0,
        "report 2\nmode max\ndelay 0\nnarrow 1\npasses 1\nprogram\nvars;\nend\nat 0 exit\npoint []\nend\n",
        "",
    ),
    (
        Run {
            why: "a block without rows",
            words: "check",
            input: "report 1\nmode max\ndelay 0\npasses 1\nprogram\nvars; end\nat 0 exit\nend\n",
            ..CALM
        },
        3,
        "",
        "tplib: line 8: report fault\n",
    ),
    (
        Run {
            why: "nothing at the entry",
            words: "check",
            input: "report 1\nmode max\ndelay 0\npasses 1\nprogram\nvars; end\nat 0 exit\nunreachable\nend\n",
            ..CALM
        },
        1,
        "not whole\n",
        "",
    ),
    (
        Run {
            why: "a write of the answer yes fails",
            words: "check",
            input: "report 1\nmode max\ndelay 0\npasses 1\nprogram\nvars; end\nat 0 exit\npoint []\nend\n",
            write_fails: 2,
            ..CALM
        },
        7,
        "inductiv",
        "tplib: write failed\n",
    ),
];

#[test]
fn runs_and_how_they_end(rt: HostRuntime) -> Result<(), Fail> {
    for (case, code, out, err) in &CASES {
        leaves(rt.alloc(), case, (*code, out.as_bytes(), err.as_bytes()))?;
    }
    Ok(())
}

#[test]
fn an_input_that_is_one_byte_too_long(rt: HostRuntime) -> Result<(), Fail> {
    let alloc = rt.alloc();
    let words = split(alloc, "ext")?;
    let mut input = SureSource::new(vec![in alloc; b' '; 4_194_305]?, 65_536);
    let mut err = MemSink::new(alloc, 64, 64, Vec::new(alloc))?;
    let status = run(alloc, &words, &mut input, &mut SureSink::new(), &mut err);
    let line = b"tplib: input longer than 4194304 bytes\n";
    let got: Ended<'_> = (status.code(), b"", err.bytes());
    same_ending(alloc, ("ext", b"blanks"), (3, b"", line), got)
}
