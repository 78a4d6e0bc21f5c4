// Analyses by zones; what is wanted was worked by hand.
use super::bounds::bounds_text;
use super::reading::graph_of;
use dom_core::{Domain, Part, Place};
use dom_iter::{Family, IterErr, analyse};
use dom_zone::ZoneDomain;
use std::alloc::Global;
use std::test::Fail;

struct Case {
    name: &'static str,
    program: &'static str,
    delay: u32,
    narrow: u32,

    // The passes, and for each point the bounds, and how many are kept where some are.
    wanted: &'static str,
}

const COUNTING: &str = "vars i; i := 0; while i < 10 { i := i + 1; }";

const CASES: [Case; 9] = [
    Case {
        name: "counting with one pass of the narrowing",
        program: COUNTING,
        delay: 0,
        narrow: 1,
        wanted: "3 passes
0:
1: 0-1<=0 1-0<=10
2: 0-1<=0 1-0<=9
3: 0-1<=-10 1-0<=10",
    },
    Case {
        name: "counting without narrowing",
        program: COUNTING,
        delay: 0,
        narrow: 0,
        wanted: "3 passes
0:
1: 0-1<=0 kept 1
2: 0-1<=0 1-0<=9
3: 0-1<=-10",
    },
    Case {
        name: "a difference of two variables",
        program: "vars x y; x := y + 2; assert max(x, y) <= y + 2;",
        delay: 2,
        narrow: 0,
        wanted: "1 passes
0:
1: 1-2<=2 2-1<=-2
2: 1-2<=2 2-1<=-2",
    },
    Case {
        name: "a variable that takes its own value and more",
        program: "vars x y; x := y; x := x + 3;",
        delay: 2,
        narrow: 0,
        wanted: "1 passes
0:
1: 1-2<=0 2-1<=0
2: 1-2<=3 2-1<=-3",
    },
    Case {
        name: "what two variables have in common once a third is forgotten",
        program: "vars x y z; x := y; z := y + 1; havoc y;",
        delay: 2,
        narrow: 0,
        wanted: "1 passes
0:
1: 1-2<=0 2-1<=0
2: 1-2<=0 1-3<=-1 2-1<=0 2-3<=-1 3-1<=1 3-2<=1
3: 1-3<=-1 3-1<=1",
    },
    Case {
        name: "the join of two branches",
        program: "vars x y; if ? { x := y + 1; } else { x := y + 4; }",
        delay: 2,
        narrow: 0,
        wanted: "1 passes
0:
1:
2:
3: 1-2<=4 2-1<=-1",
    },
    Case {
        name: "a guard that leaves no state",
        program: "vars x; x := 1; assume x <= 0; x := 5;",
        delay: 2,
        narrow: 0,
        wanted: "1 passes
0:
1: 0-1<=-1 1-0<=1
2: empty
3: empty",
    },
    Case {
        name: "no variable",
        program: "vars;",
        delay: 2,
        narrow: 0,
        wanted: "1 passes
0:",
    },
    Case {
        name: "a number out of range",
        program: "vars x; x := 0; while ? { x := x + 2147483648; }",
        delay: 1000,
        narrow: 0,
        wanted: "range: pass 514 point 1 edge 3",
    },
];

fn place_text(alloc: Global, cause: &str, place: &Place) -> Result<String, Fail> {
    let (pass, point) = (place.pass, place.point);
    let part = match place.part {
        Part::Edge(k) => format!(in alloc; "edge {k}")?,
        Part::Sum(k) => format!(in alloc; "sum {k}")?,
        Part::Head => format!(in alloc; "head")?,
        Part::Polar(i, k) => format!(in alloc; "polar {i} rows {k}")?,
        Part::Kept(k) => format!(in alloc; "kept {k}")?,
    };
    Ok(format!(in alloc; "{cause}: pass {pass} point {point} {part}")?)
}

fn family_text(alloc: Global, family: &Family<ZoneDomain>) -> Result<String, Fail> {
    let passes = family.passes;
    let mut text = format!(in alloc; "{passes} passes")?;
    for point in 0..family.values.len() {
        let value = &family.values[point];
        let bounds = bounds_text(alloc, value)?;
        let width = value.width();
        let most = u64::from(value.vars()) * (u64::from(value.vars()) + 1);
        text = if width <= most {
            format!(in alloc; "{text}\n{point}:{bounds} kept {width}")?
        } else {
            format!(in alloc; "{text}\n{point}:{bounds}")?
        };
    }
    Ok(text)
}

// What comes of the analysis.
fn outcome(alloc: Global, case: &Case) -> Result<String, Fail> {
    let graph = match graph_of(alloc, case.program.as_bytes())? {
        Some(graph) => graph,
        None => return Ok(format!(in alloc; "no program")?),
    };
    let delay = case.delay;
    let narrow = case.narrow;
    if graph.vars() > 63 {
        return Ok(format!(in alloc; "too many variables")?);
    }
    if delay > 1000 {
        return Ok(format!(in alloc; "too long a delay")?);
    }
    if narrow > 100 {
        return Ok(format!(in alloc; "too much narrowing")?);
    }
    match analyse::<ZoneDomain>(alloc, &graph, delay, narrow) {
        Ok(family) => family_text(alloc, &family),
        Err(IterErr::Limit(place)) => place_text(alloc, "limit", &place),
        Err(IterErr::Range(place)) => place_text(alloc, "range", &place),
        Err(IterErr::NoMemory) => Ok(format!(in alloc; "no memory")?),
    }
}

#[test]
fn analyses(rt: HostRuntime) -> Result<(), Fail> {
    let alloc = rt.alloc();
    let mut failed = false;
    for case in &CASES {
        let got = outcome(alloc, case)?;
        if got.as_str() != case.wanted {
            println!(rt; "{}: wanted {}\ngot {}", case.name, case.wanted, got)?;
            failed = true;
        }
    }
    assert!(rt; !failed);
    Ok(())
}
