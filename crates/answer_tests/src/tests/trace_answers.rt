//! Chosen runs: what `trace` writes, and which trace files it refuses.
use run_examples::{each_ends_so, ended, ends_so};
use std::alloc::Global;
use std::test::Fail;

// How many steps, a trace file, and what is written.
const RUNS: [(&str, &str, &str); 22] = [
    (
        "trace turns=100",
        "vars i; i := 0; while i < 2 { i := i + 1; } start [5] choices []",
        "at 0 [5]\nat 1 [0]\nat 2 [0]\nat 1 [1]\nat 2 [1]\nat 1 [2]\nat exit [2]\nend finished\n",
    ),
    (
        "trace turns=3",
        "vars i; i := 0; while i < 2 { i := i + 1; } start [5] choices []",
        "at 0 [5]\nat 1 [0]\nat 2 [0]\nat 1 [1]\nend turns-spent\n",
    ),
    (
        "trace turns=100",
        "vars i; havoc i; start [5] choices []",
        "at 0 [5]\nend out-of-choices\n",
    ),
    (
        "trace turns=100",
        "vars i; assume i < 0; start [5] choices []",
        "at 0 [5]\nend assume-failed\n",
    ),
    (
        "trace turns=9",
        "vars; if ? { skip; } start [] choices [1]",
        "at 0 []\nat 1 []\nat exit []\nend finished\n",
    ),
    (
        "trace turns=9",
        "vars; if ? { skip; } start [] choices [0]",
        "at 0 []\nat exit []\nend finished\n",
    ),
    (
        "trace turns=1",
        "vars v1 v2 v3 v4 v5 v6 v7 v8 v9 v10 v11 v12 v13 v14 v15 v16 v17 v18 v19 v20 v21 v22 v23 v24 v25 v26 v27 v28 v29 v30 v31 v32 v33 v34 v35 v36 v37 v38 v39 v40 v41 v42 v43 v44 v45 v46 v47 v48 v49 v50 v51 v52 v53 v54 v55 v56 v57 v58 v59 v60 v61 v62 v63; start [1, 2, 3, 4, 5, 6, 7, 8, 9, 10, 11, 12, 13, 14, 15, 16, 17, 18, 19, 20, 21, 22, 23, 24, 25, 26, 27, 28, 29, 30, 31, 32, 33, 34, 35, 36, 37, 38, 39, 40, 41, 42, 43, 44, 45, 46, 47, 48, 49, 50, 51, 52, 53, 54, 55, 56, 57, 58, 59, 60, 61, 62, -63] choices []",
        "at exit [1, 2, 3, 4, 5, 6, 7, 8, 9, 10, 11, 12, 13, 14, 15, 16, 17, 18, 19, 20, 21, 22, 23, 24, 25, 26, 27, 28, 29, 30, 31, 32, 33, 34, 35, 36, 37, 38, 39, 40, 41, 42, 43, 44, 45, 46, 47, 48, 49, 50, 51, 52, 53, 54, 55, 56, 57, 58, 59, 60, 61, 62, -63]\nend finished\n",
    ),
    // No statement is left: finished, whatever is asked for.
    (
        "trace turns=0",
        "vars x y; start [7, -2] choices [1]",
        "at exit [7, -2]\nend finished\n",
    ),
    // No step is left: turns spent, although no choice is left either.
    (
        "trace turns=0",
        "vars x; havoc x; start [7] choices []",
        "at 0 [7]\nend turns-spent\n",
    ),
    // As many steps as it takes.
    (
        "trace turns=1",
        "vars x; x := x - 3; start [1] choices []",
        "at 0 [1]\nat exit [-2]\nend finished\n",
    ),
    // The right side is looked at only where the left one does not decide.
    (
        "trace turns=10000",
        "vars x; assume x < 0 && ?; start [1] choices []",
        "at 0 [1]\nend assume-failed\n",
    ),
    (
        "trace turns=10000",
        "vars x; assume x < 0 || ?; start [1] choices []",
        "at 0 [1]\nend out-of-choices\n",
    ),
    (
        "trace turns=10000",
        "vars x; assume x > 0 || ?; havoc x; start [1] choices [7]",
        "at 0 [1]\nat 1 [1]\nat exit [7]\nend finished\n",
    ),
    // A choice other than 0 is true.
    (
        "trace turns=2",
        "vars x; assume !(? && ?); start [1] choices [-1, 0, 5]",
        "at 0 [1]\nat exit [1]\nend finished\n",
    ),
    // Each comparison, at equal numbers.
    (
        "trace turns=7",
        "vars x; assume x <= 4 && x >= 4 && x == 4 && !(x != 4) && !(x < 4) && !(x > 4); start [4] choices []",
        "at 0 [4]\nat exit [4]\nend finished\n",
    ),
    // Numbers go past those of a trace file.
    (
        "trace turns=2",
        "vars x; x := x + 2147483648; x := x + 2147483648; start [1099511627776] choices []",
        "at 0 [1099511627776]\nat 1 [1101659111424]\nat exit [1103806595072]\nend finished\n",
    ),
    (
        "trace turns=5",
        "vars x y;\nhavoc y; # the least number\nx := y - 2147483648;\r\nstart [0,\n1] choices\n[-\t1099511627776, 2]\n",
        "at 0 [0, 1]\nat 1 [0, -1099511627776]\nat exit [-1101659111424, -1099511627776]\nend finished\n",
    ),
    // Statements are numbered by their first tokens.
    (
        "trace turns=50",
        "vars x y; if x <= y { x := y; } else { y := x; skip; } assert x = y; start [3, 1] choices []",
        "at 0 [3, 1]\nat 2 [3, 1]\nat 3 [3, 3]\nat 4 [3, 3]\nat exit [3, 3]\nend finished\n",
    ),
    // An assert that is wrong changes nothing, and may have both words.
    (
        "trace turns=50",
        "vars x; assert max(x, 2) <= min(x, 5); start [9] choices []",
        "at 0 [9]\nat exit [9]\nend finished\n",
    ),
    (
        "trace turns=50",
        "vars i; while ? { i := i + 1; } start [0] choices [1, 2, 0]",
        "at 0 [0]\nat 1 [0]\nat 0 [1]\nat 1 [1]\nat 0 [2]\nat exit [2]\nend finished\n",
    ),
    (
        "trace turns=50",
        "vars i; while ? { i := i + 1; } start [0] choices [1]",
        "at 0 [0]\nat 1 [0]\nat 0 [1]\nend out-of-choices\n",
    ),
    // A body of no statement.
    (
        "trace turns=50",
        "vars; while ? { } start [] choices [1, 0]",
        "at 0 []\nat 0 []\nat exit []\nend finished\n",
    ),
];

// Trace files that are at fault, and the line on the sink of errors.
const FAULTS: [(&str, &str); 10] = [
    ("", "tplib: line 1, column 1: syntax\n"),
    ("kind gens\n", "tplib: line 1, column 1: syntax\n"),
    (
        "vars x;\nx := y;\nstart [0] choices []",
        "tplib: line 2: unknown name\n",
    ),
    (
        "vars x\nx;\nstart [0, 0] choices []",
        "tplib: line 2: duplicate name\n",
    ),
    (
        "vars x;\nx := 2147483649;\nstart [0] choices []",
        "tplib: line 2: number out of range\n",
    ),
    (
        "vars x;\nstart [0]\nchoices [1099511627777]",
        "tplib: line 3: number out of range\n",
    ),
    (
        "vars x y;\nstart [0] choices []",
        "tplib: line 2, column 9: syntax\n",
    ),
    ("vars x; start [0]", "tplib: line 2, column 1: syntax\n"),
    ("vars x; end", "tplib: line 1, column 9: syntax\n"),
    (
        "vars; start [] choices [] end",
        "tplib: line 1, column 27: syntax\n",
    ),
];

/// Why a case stands, a trace file of a head, the same part so many times, and what stands last, and the code and the text of
/// the end.
type Long = (
    &'static str,
    &'static str,
    (&'static str, u32),
    &'static str,
    u8,
    &'static str,
);

const LONG: [Long; 4] = [
    (
        "as many statements as there may be",
        "vars;",
        ("skip;", 400),
        "start [] choices []",
        0,
        "at 0 []\nat 1 []\nend turns-spent\n",
    ),
    (
        "one statement more",
        "vars;",
        ("skip;", 401),
        "start [] choices []",
        3,
        "tplib: line 1: too many statements\n",
    ),
    (
        "more atoms than there may be",
        "vars;\nassume ?",
        (" || ?", 1_200),
        "; start [] choices []",
        3,
        "tplib: line 2: too many atoms\n",
    ),
    (
        "nested deeper than it may be",
        "vars;\n\n",
        ("if ? {", 65),
        "",
        3,
        "tplib: line 3: nested too deep\n",
    ),
];

fn text_of(alloc: Global, head: &str, part: &str, count: u32, last: &str) -> Result<Vec<u8>, Fail> {
    let mut text = Vec::from_slice(alloc, head.as_bytes())?;
    for _ in 0..count {
        text.extend_from_slice(part.as_bytes())?;
    }
    text.extend_from_slice(last.as_bytes())?;
    Ok(text)
}

#[test]
fn chosen_runs(rt: HostRuntime) -> Result<(), Fail> {
    for (words, input, answer) in &RUNS {
        ends_so(
            rt.alloc(),
            "a chosen run",
            words,
            input.as_bytes(),
            ended(0, answer),
        )?;
    }
    Ok(())
}

#[test]
fn trace_files_at_fault(rt: HostRuntime) -> Result<(), Fail> {
    each_ends_so(rt.alloc(), "trace turns=1", 3, &FAULTS)
}

#[test]
fn limits_of_trace_files(rt: HostRuntime) -> Result<(), Fail> {
    for (why, head, (part, count), last, code, text) in &LONG {
        let input = text_of(rt.alloc(), head, part, *count, last)?;
        ends_so(rt.alloc(), why, "trace turns=1", &input, ended(*code, text))?;
    }
    Ok(())
}
