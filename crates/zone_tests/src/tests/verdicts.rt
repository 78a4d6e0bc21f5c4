// Verdicts on an assert that is the last statement, by the end of the analysis at its point; worked by hand.
use super::claims::verdict;
use dom_iter::analyse;
use dom_zone::ZoneDomain;
use prog_graph::build;
use prog_lang::{AssertRule, read_program};
use prog_tree::{Claim, Stmt};
use std::alloc::Global;
use std::test::Fail;

struct Case {
    name: &'static str,
    program: &'static str,
    wanted: &'static str,
}

const CASES: [Case; 8] = [
    Case {
        name: "a maximum of which each term is below the other side",
        program: "vars x y; x := y + 2; assert max(x, y) <= y + 2;",
        wanted: "proved",
    },
    Case {
        name: "a bound that is one too low",
        program: "vars x y; x := y + 2; assert x <= y + 1;",
        wanted: "unknown",
    },
    Case {
        name: "a minimum of which one term is below the other side",
        program: "vars x y z; x := y + 2; assert min(x, z) <= y + 2;",
        wanted: "proved",
    },
    Case {
        name: "a maximum of which one term is below no term of the other side",
        program: "vars x y z; x := y + 2; assert max(x, z) <= max(y + 2, x);",
        wanted: "unknown",
    },
    Case {
        name: "an equality",
        program: "vars x y; x := y + 2; assert x = y + 2;",
        wanted: "proved",
    },
    Case {
        name: "an equality of which one direction follows",
        program: "vars x y; assume x <= y + 2; assert x = y + 2;",
        wanted: "unknown",
    },
    Case {
        name: "a maximum that no single pair of terms shows",
        program: "vars x y z; if ? { z := x; } else { z := y; } assert z <= max(x, y);",
        wanted: "unknown",
    },
    Case {
        name: "no state",
        program: "vars x; assume 1 <= 0; assert x <= 0;",
        wanted: "proved",
    },
];

// The verdict of the value at the point before the exit.
fn last_verdict(values: &[ZoneDomain], claim: &Claim) -> &'static str {
    let [.., value, _] = values else {
        return "no point";
    };
    match verdict(value, claim) {
        Some(true) => "proved",
        Some(false) => "unknown",
        None => "another program",
    }
}

// What comes of the analysis and its verdict.
fn outcome(alloc: Global, text: &[u8]) -> Result<&'static str, Fail> {
    if text.len() > 100_000 {
        return Ok("too long");
    }
    let Ok(program) = read_program(alloc, text, AssertRule::Any) else {
        return Ok("no program");
    };
    let Some(Stmt::Assert(claim)) = program.body().as_slice().last() else {
        return Ok("no assert");
    };
    let graph = build(alloc, &program)?;
    if graph.vars() > 63 {
        return Ok("too many variables");
    }
    match analyse::<ZoneDomain>(alloc, &graph, 2, 0) {
        Ok(family) => Ok(last_verdict(family.values.as_slice(), claim)),
        Err(_) => Ok("refused"),
    }
}

#[test]
fn verdicts(rt: HostRuntime) -> Result<(), Fail> {
    let alloc = rt.alloc();
    let mut failed = false;
    for case in &CASES {
        let got = outcome(alloc, case.program.as_bytes())?;
        if got != case.wanted {
            println!(rt; "{}: wanted {}, got {}", case.name, case.wanted, got)?;
            failed = true;
        }
    }
    assert!(rt; !failed);
    Ok(())
}
