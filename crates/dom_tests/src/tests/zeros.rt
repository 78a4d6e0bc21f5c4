// Analyses by the domain that knows whether the first variable is zero; what is wanted is written by hand.
use super::reading::graph_of;
use crate::{FirstZero, Known};
use dom_iter::{Family, analyse};
use std::alloc::Global;
use std::test::Fail;

// A program, the delay and the passes of the narrowing, the passes of the ascent, and for each point `0` where the
// first variable is zero, `?` where it may be any number.
struct Case {
    program: &'static str,
    delay: u32,
    narrow: u32,
    passes: u64,
    known: &'static str,
}

const CASES: [Case; 6] = [
    Case {
        program: "vars ls n ld; assume ls >= 0; ld := 0; while ld < n && ld < ls { ld :=
ld + 1; } if ld >= n { havoc ld; assume ld >= n; } assert min(ls, n) =
min(ld, n);",
        delay: 2,
        narrow: 0,
        passes: 2,
        known: "??????????",
    },
    Case {
        program: "vars ld n ls; assume ls >= 0; ld := 0; while ld < n && ld < ls { ld :=
ld + 1; } if ld >= n { havoc ld; assume ld >= n; } assert min(ls, n) =
min(ld, n);",
        delay: 2,
        narrow: 0,
        passes: 3,
        known: "??????????",
    },
    Case {
        program: "vars ld n ls; assume ls >= 0; ld := 0; while ld < n && ld < ls { ls :=
ls - 1; } if ld >= n { havoc ld; assume ld >= n; } assert min(ls, n) =
min(ld, n);",
        delay: 0,
        narrow: 2,
        passes: 2,
        known: "??00000???",
    },
    Case {
        program: "vars x; x := 0; while ? { x := x + 1; x := 0; } skip;",
        delay: 0,
        narrow: 1,
        passes: 2,
        known: "?00?00",
    },
    Case {
        program: "vars x; x := 0; while ? { x := x + 1; } x := 0; skip;",
        delay: 1,
        narrow: 1,
        passes: 3,
        known: "????00",
    },
    Case {
        program: "vars;",
        delay: 1000,
        narrow: 100,
        passes: 1,
        known: "?",
    },
];

fn letter(known: Known) -> char {
    match known {
        Known::Nothing => '-',
        Known::Zero => '0',
        Known::Anything => '?',
    }
}

// The passes of the ascent, and what is known at each point.
fn told(alloc: Global, family: &Family<FirstZero>) -> Result<String, Fail> {
    let mut text = format!(in alloc; "{} passes, ", family.passes)?;
    for value in &family.values {
        text.push(letter(value.known()))?;
    }
    Ok(text)
}

fn analysed(alloc: Global, case: &Case) -> Result<String, Fail> {
    let (delay, narrow) = (case.delay, case.narrow);
    let Some(graph) = graph_of(alloc, case.program.as_bytes())? else {
        return Ok(String::from_str(alloc, "no program")?);
    };
    if graph.vars() > 63 {
        return Ok(String::from_str(alloc, "too many variables")?);
    }
    if delay > 1000 {
        return Ok(String::from_str(alloc, "too great a delay")?);
    }
    if narrow > 100 {
        return Ok(String::from_str(alloc, "too much narrowing")?);
    }
    match analyse::<FirstZero>(alloc, &graph, delay, narrow) {
        Ok(family) => told(alloc, &family),
        Err(_) => Ok(String::from_str(alloc, "refused")?),
    }
}

#[test]
fn first_variables(rt: HostRuntime) -> Result<(), Fail> {
    let alloc = rt.alloc();
    for case in &CASES {
        let wanted = format!(in alloc; "{} passes, {}", case.passes, case.known)?;
        let got = analysed(alloc, case)?;
        assert_eq!(rt; got.as_str(), wanted.as_str(), "{}", case.program);
    }
    Ok(())
}
