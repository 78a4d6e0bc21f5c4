// Verdicts on an assert that is the last statement, by the end of the analysis at its point; worked by hand.
use super::claims::verdict;
use dom_iter::analyse;
use dom_poly::PolyDomain;
use prog_graph::build;
use prog_lang::{AssertRule, read_program};
use prog_tree::{Claim, Stmt};
use std::alloc::Global;
use std::test::Fail;
use trop_scalar::{MaxInt, MinInt, Numeric};

struct Case {
    name: &'static str,
    reversed: bool,
    program: &'static str,
    wanted: &'static str,
}

// As many variables as a program may have.
const CHAIN: &str =
    "vars v1 v2 v3 v4 v5 v6 v7 v8 v9 v10 v11 v12 v13 v14 v15 v16 v17 v18 v19 v20 v21 v22 v23 v24 v25 v26 \
    v27 v28 v29 v30 v31 v32 v33 v34 v35 v36 v37 v38 v39 v40 v41 v42 v43 v44 v45 v46 v47 v48 v49 v50 v51 \
    v52 v53 v54 v55 v56 v57 v58 v59 v60 v61 v62 v63; v2 := v1 + 1; v3 := v2 + 1; v4 := v3 + 1; v5 := v4 \
    + 1; v6 := v5 + 1; v7 := v6 + 1; v8 := v7 + 1; v9 := v8 + 1; v10 := v9 + 1; v11 := v10 + 1; v12 := \
    v11 + 1; v13 := v12 + 1; v14 := v13 + 1; v15 := v14 + 1; v16 := v15 + 1; v17 := v16 + 1; v18 := v17 \
    + 1; v19 := v18 + 1; v20 := v19 + 1; v21 := v20 + 1; v22 := v21 + 1; v23 := v22 + 1; v24 := v23 + 1; \
    v25 := v24 + 1; v26 := v25 + 1; v27 := v26 + 1; v28 := v27 + 1; v29 := v28 + 1; v30 := v29 + 1; v31 \
    := v30 + 1; v32 := v31 + 1; v33 := v32 + 1; v34 := v33 + 1; v35 := v34 + 1; v36 := v35 + 1; v37 := \
    v36 + 1; v38 := v37 + 1; v39 := v38 + 1; v40 := v39 + 1; v41 := v40 + 1; v42 := v41 + 1; v43 := v42 \
    + 1; v44 := v43 + 1; v45 := v44 + 1; v46 := v45 + 1; v47 := v46 + 1; v48 := v47 + 1; v49 := v48 + 1; \
    v50 := v49 + 1; v51 := v50 + 1; v52 := v51 + 1; v53 := v52 + 1; v54 := v53 + 1; v55 := v54 + 1; v56 \
    := v55 + 1; v57 := v56 + 1; v58 := v57 + 1; v59 := v58 + 1; v60 := v59 + 1; v61 := v60 + 1; v62 := \
    v61 + 1; v63 := v62 + 1; assert v63 = v1 + 62;";

const CASES: [Case; 14] = [
    Case {
        name: "a bound that follows",
        reversed: false,
        program: "vars x y; havoc x; assume x <= 3; y := x + 1; assert y <= 4;",
        wanted: "proved",
    },
    Case {
        name: "a bound that is one too low",
        reversed: false,
        program: "vars x y; havoc x; assume x <= 3; y := x + 1; assert y <= 3;",
        wanted: "unknown",
    },
    Case {
        name: "an equality of which one direction follows",
        reversed: false,
        program: "vars x; havoc x; assume x <= 3; assert x = 3;",
        wanted: "unknown",
    },
    Case {
        name: "an equality of which the other direction follows",
        reversed: false,
        program: "vars x; havoc x; assume x >= 3; assert x = 3;",
        wanted: "unknown",
    },
    Case {
        name: "an equality",
        reversed: false,
        program: "vars x; x := 3; assert x = 3;",
        wanted: "proved",
    },
    Case {
        name: "no state",
        reversed: false,
        program: "vars x; assume 1 <= 0; assert x <= 0;",
        wanted: "proved",
    },
    Case {
        name: "numbers alone",
        reversed: false,
        program: "vars x; assert 0 <= 1;",
        wanted: "proved",
    },
    Case {
        name: "a false comparison of numbers",
        reversed: false,
        program: "vars x; assert 1 <= 0;",
        wanted: "unknown",
    },
    Case {
        name: "the greatest of two",
        reversed: false,
        program: "vars x y; assert max(x, y) >= x;",
        wanted: "proved",
    },
    Case {
        name: "the greatest of two and one of them",
        reversed: false,
        program: "vars x y; assert max(x, y) <= x;",
        wanted: "unknown",
    },
    Case {
        name: "the word of the other mode",
        reversed: false,
        program: "vars x y; assert min(x, y) <= x;",
        wanted: "another mode",
    },
    Case {
        name: "the least of two",
        reversed: true,
        program: "vars x y; assume x >= 1; assume y >= 1; assert min(x, y) >= 1;",
        wanted: "proved",
    },
    Case {
        name: "a string that was copied",
        reversed: true,
        program: "vars ls n ld; assume ls >= 0; ld := 0; while ld < n && ld < ls { ld := ld + 1; } \
            if ld >= n { havoc ld; assume ld >= n; } assert min(ls, n) = min(ld, n);",
        wanted: "proved",
    },
    Case {
        name: "63 variables",
        reversed: false,
        program: CHAIN,
        wanted: "proved",
    },
];

// The verdict of the value at the point before the exit.
fn last_verdict<S: Numeric>(values: &[PolyDomain<S>], claim: &Claim) -> &'static str {
    let [.., value, _] = values else {
        return "no point";
    };
    match verdict(value, claim) {
        Some(true) => "proved",
        Some(false) => "unknown",
        None => "another mode",
    }
}

// What comes of the analysis and its verdict.
fn outcome<S: Numeric>(alloc: Global, text: &[u8]) -> Result<&'static str, Fail> {
    if text.len() > 100_000 {
        return Ok("too long");
    }
    let Ok(program) = read_program(alloc, text, AssertRule::Any) else {
        return Ok("no program");
    };
    let Some(Stmt::Assert(claim)) = program.body().as_slice().last() else {
        return Ok("no assert");
    };
    let graph = build(alloc, &program)?;
    if graph.vars() > 63 {
        return Ok("too many variables");
    }
    match analyse::<PolyDomain<S>>(alloc, &graph, 2, 0) {
        Ok(family) => Ok(last_verdict(family.values.as_slice(), claim)),
        Err(_) => Ok("refused"),
    }
}

#[test]
fn verdicts(rt: HostRuntime) -> Result<(), Fail> {
    let alloc = rt.alloc();
    let mut failed = false;
    for case in &CASES {
        let text = case.program.as_bytes();
        let got = if case.reversed {
            outcome::<MinInt>(alloc, text)?
        } else {
            outcome::<MaxInt>(alloc, text)?
        };
        if got != case.wanted {
            println!(rt; "{}: wanted {}, got {}", case.name, case.wanted, got)?;
            failed = true;
        }
    }
    assert!(rt; !failed);
    Ok(())
}
