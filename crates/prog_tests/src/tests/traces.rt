use super::reading::read_trace;
use std::test::Fail;
use trop_text::Fault;

// Trace files, each with its first fault, or none where it is read.
const FILES: [(&str, Option<Fault>); 27] = [
    ("vars x; start [1] choices []", None),
    ("vars; start [] choices [1, -2, 0]", None),
    (
        "vars x y;\nx := y;\nstart\n[1099511627776,\n- 1099511627776]\nchoices [ ]\n",
        None,
    ),
    (
        "vars v1 v2 v3 v4 v5 v6 v7 v8 v9 v10 v11 v12 v13 v14 v15 v16 v17 v18 v19 v20 v21 v22 v23 v24 v25 v26 v27 v28 v29 v30 v31 v32 v33 v34 v35 v36 v37 v38 v39 v40 v41 v42 v43 v44 v45 v46 v47 v48 v49 v50 v51 v52 v53 v54 v55 v56 v57 v58 v59 v60 v61 v62 v63; start [0, 0, 0, 0, 0, 0, 0, 0, 0, 0, 0, 0, 0, 0, 0, 0, 0, 0, 0, 0, 0, 0, 0, 0, 0, 0, 0, 0, 0, 0, 0, 0, 0, 0, 0, 0, 0, 0, 0, 0, 0, 0, 0, 0, 0, 0, 0, 0, 0, 0, 0, 0, 0, 0, 0, 0, 0, 0, 0, 0, 0, 0, 0] choices []",
        None,
    ),
    (
        "vars v1 v2 v3 v4 v5 v6 v7 v8 v9 v10 v11 v12 v13 v14 v15 v16 v17 v18 v19 v20 v21 v22 v23 v24 v25 v26 v27 v28 v29 v30 v31 v32 v33 v34 v35 v36 v37 v38 v39 v40 v41 v42 v43 v44 v45 v46 v47 v48 v49 v50 v51 v52 v53 v54 v55 v56 v57 v58 v59 v60 v61 v62 v63 v64;",
        Some(Fault::TooManyVars { line: 1 }),
    ),
    (
        "vars v1 v2 v3 v4 v5 v6 v7 v8 v9 v10 v11 v12 v13 v14 v15 v16 v17 v18 v19 v20 v21 v22 v23 v24 v25 v26 v27 v28 v29 v30 v31 v32 v33 v34 v35 v36 v37 v38 v39 v40 v41 v42 v43 v44 v45 v46 v47 v48 v49 v50 v51 v52 v53 v54 v55 v56 v57 v58 v59 v60 v61 v62 v63 v1;",
        Some(Fault::TooManyVars { line: 1 }),
    ),
    (
        "vars v1 v2 v3 v4 v5 v6 v7 v8 v9 v10 v11 v12 v13 v14 v15 v16 v17 v18 v19 v20 v21 v22 v23 v24 v25 v26 v27 v28 v29 v30 v31 v32 v33 v34 v35 v36 v37 v38 v39 v40 v41 v42 v43 v44 v45 v46 v47 v48 v49 v50 v51 v52 v53 v54 v55 v56 v57 v58 v59 v60 v61 v62 v63 max;",
        Some(Fault::Syntax {
            line: 1,
            column: 249,
        }),
    ),
    ("vars x;", Some(Fault::Syntax { line: 2, column: 1 })),
    ("vars x; end", Some(Fault::Syntax { line: 1, column: 9 })),
    ("vars x; start", Some(Fault::Syntax { line: 2, column: 1 })),
    (
        "vars x; start 1;",
        Some(Fault::Syntax {
            line: 1,
            column: 15,
        }),
    ),
    (
        "vars x; start [] choices []",
        Some(Fault::Syntax {
            line: 1,
            column: 16,
        }),
    ),
    (
        "vars x; start [1, 2] choices []",
        Some(Fault::Syntax {
            line: 1,
            column: 17,
        }),
    ),
    (
        "vars x y; start [1] choices []",
        Some(Fault::Syntax {
            line: 1,
            column: 19,
        }),
    ),
    (
        "vars; start [1] choices []",
        Some(Fault::Syntax {
            line: 1,
            column: 14,
        }),
    ),
    (
        "vars x; start [1 choices []",
        Some(Fault::Syntax {
            line: 1,
            column: 18,
        }),
    ),
    (
        "vars x; start [x] choices []",
        Some(Fault::Syntax {
            line: 1,
            column: 16,
        }),
    ),
    (
        "vars x; start [--1] choices []",
        Some(Fault::Syntax {
            line: 1,
            column: 17,
        }),
    ),
    (
        "vars x; start [1099511627777] choices []",
        Some(Fault::NumberRange { line: 1 }),
    ),
    (
        "vars x; start [1] []",
        Some(Fault::Syntax {
            line: 1,
            column: 19,
        }),
    ),
    (
        "vars x; start [1] choices [1 2]",
        Some(Fault::Syntax {
            line: 1,
            column: 30,
        }),
    ),
    (
        "vars x; start [1] choices [1,]",
        Some(Fault::Syntax {
            line: 1,
            column: 30,
        }),
    ),
    (
        "vars x; start [1] choices [] x",
        Some(Fault::Syntax {
            line: 1,
            column: 30,
        }),
    ),
    (
        "vars x; start [1] choices []\n[",
        Some(Fault::Syntax { line: 2, column: 1 }),
    ),
    (
        "vars x; start [1]",
        Some(Fault::Syntax { line: 2, column: 1 }),
    ),
    (
        "vars x; start [1] choices [1",
        Some(Fault::Syntax { line: 2, column: 1 }),
    ),
    (
        "vars x; start [1] choices [1099511627777]",
        Some(Fault::NumberRange { line: 1 }),
    ),
];

#[test]
fn trace_files_and_their_first_faults(rt: HostRuntime) -> Result<(), Fail> {
    let mut failed = false;
    for (text, wanted) in &FILES {
        let got = read_trace(rt.alloc(), text.as_bytes())?;
        if got != *wanted {
            println!(rt; "{text}: wanted {wanted:?}, got {got:?}")?;
            failed = true;
        }
    }
    assert!(rt; !failed);
    Ok(())
}
