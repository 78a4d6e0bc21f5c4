// Analyses by tropical polyhedra; what is wanted was worked by hand.
use super::reading::graph_of;
use dom_core::{Domain, Part, Place};
use dom_iter::{Family, IterErr, analyse};
use dom_poly::PolyDomain;
use row_examples::rows_text;
use std::alloc::Global;
use std::test::Fail;
use trop_scalar::{MaxInt, MinInt, Numeric};

// A program that is read with the order of numbers, or the reverse one.
struct Case {
    name: &'static str,
    reversed: bool,
    program: &'static str,
    delay: u32,
    narrow: u32,

    // The passes, and for each point the rows, and how long its kept list is where it has one.
    wanted: &'static str,
}

const COPYING: &str =
    "vars ls n ld; assume ls >= 0; ld := 0; while ld < n && ld < ls { ld := ld + 1; } \
    if ld >= n { havoc ld; assume ld >= n; } assert min(ls, n) = min(ld, n);";

const COUNTING: &str = "vars i; i := 0; while i < 10 { i := i + 1; }";

// Seven moves, each of which a turn of the loop makes or leaves out. The sum of the variables is the same at each state
// of a point, so that no state lies below another and each is an extreme row of its own: behind the third move of the
// third turn they are 4 * 4 * 4 * 3 * 3 * 3 * 3.
const MOVES: &str =
    "vars a b c d e f g h; a := 0; b := 0; c := 0; d := 0; e := 0; f := 0; g := 0; h := 0; while ? { \
    if ? { a := a + 1; b := b - 1; } if ? { b := b + 1; c := c - 1; } if ? { c := c + 1; d := d - 1; } \
    if ? { d := d + 1; e := e - 1; } if ? { e := e + 1; f := f - 1; } if ? { f := f + 1; g := g - 1; } \
    if ? { g := g + 1; h := h - 1; } }";

const CASES: [Case; 11] = [
    Case {
        name: "copying a string",
        reversed: true,
        program: COPYING,
        delay: 2,
        narrow: 0,
        wanted: "4 passes
0: . . . 0, . . 0 ., . 0 . ., 0 . . .
1: . . . 0, . . 0 ., 0 . . ., 0 0 . .
2: . . 0 ., 0 . . ., 0 . . 0, 0 0 . 0 kept 3
3: 0 . . ., 0 . . 0, 0 . 1 0, 0 0 . 0
4: 0 . . ., 0 . . 0, 0 . 1 0, 0 1 . 0
5: . . 0 ., 0 . . ., 0 . 0 0, 0 0 . 0
6: . . 0 ., 0 . . ., 0 . 0 0, 0 0 0 0
7: . . . 0, . . 0 ., 0 . . ., 0 0 0 .
8: . . 0 ., . . 0 0, 0 . . ., 0 0 . 0, 0 0 0 .
9: . . 0 ., . . 0 0, 0 . . ., 0 0 . 0, 0 0 0 .",
    },
    Case {
        name: "an endless loop that is widened at once",
        reversed: false,
        program: "vars i; i := 0; while ? { i := i + 1; }",
        delay: 0,
        narrow: 0,
        wanted: "3 passes
0: . 0, 0 .
1: . 0, 0 0 kept 1
2: . 0, 0 0
3: . 0, 0 0",
    },
    Case {
        name: "an endless loop that is widened at its third change",
        reversed: false,
        program: "vars i; i := 0; while ? { i := i + 1; }",
        delay: 2,
        narrow: 0,
        wanted: "4 passes
0: . 0, 0 .
1: . 0, 0 0 kept 1
2: . 0, 0 0
3: . 0, 0 0",
    },
    Case {
        name: "a loop that is not entered",
        reversed: false,
        program: "vars i; i := 0; while i > 0 { i := i + 1; }",
        delay: 2,
        narrow: 0,
        wanted: "2 passes
0: . 0, 0 .
1: 0 0
2: 
3: 0 0",
    },
    Case {
        name: "no statement",
        reversed: true,
        program: "vars;",
        delay: 2,
        narrow: 0,
        wanted: "1 passes
0: 0",
    },
    Case {
        name: "counting without narrowing",
        reversed: false,
        program: COUNTING,
        delay: 0,
        narrow: 0,
        wanted: "3 passes
0: . 0, 0 .
1: . 0, 0 0 kept 1
2: 0 0, 0 9
3: . 0, 0 10",
    },
    Case {
        name: "counting with one pass of the narrowing",
        reversed: false,
        program: COUNTING,
        delay: 0,
        narrow: 1,
        wanted: "3 passes
0: . 0, 0 .
1: 0 0, 0 10
2: 0 0, 0 9
3: 0 10",
    },
    Case {
        name: "a bound that is assumed",
        reversed: false,
        program: "vars x y; havoc x; assume x <= 3; y := x + 1; assert y <= 4;",
        delay: 2,
        narrow: 0,
        wanted: "1 passes
0: . . 0, . 0 ., 0 . .
1: . . 0, . 0 ., 0 . .
2: . . 0, 0 . ., 0 3 .
3: 0 . ., 0 3 4
4: 0 . ., 0 3 4",
    },
    Case {
        name: "a guard that leaves rays alone",
        reversed: false,
        program: "vars x y; x := 0; y := 0; havoc y; assume y <= x - 1; assume x >= 1; assert 1 <= 0;",
        delay: 2,
        narrow: 0,
        wanted: "1 passes
0: . . 0, . 0 ., 0 . .
1: . . 0, 0 0 .
2: 0 0 0
3: . . 0, 0 0 .
4: 0 0 ., 0 0 -1
5: 
6: ",
    },
    Case {
        name: "a number out of range",
        reversed: false,
        program: "vars x; x := 0; while ? { x := x + 2147483648; }",
        delay: 1000,
        narrow: 0,
        wanted: "range: pass 514 point 1 edge 3",
    },
    Case {
        name: "more rows than a value may have",
        reversed: false,
        program: MOVES,
        delay: 10,
        narrow: 0,
        wanted: "limit: pass 3 point 18 sum 21",
    },
];

fn place_text(alloc: Global, cause: &str, place: &Place) -> Result<String, Fail> {
    let (pass, point) = (place.pass, place.point);
    let part = match place.part {
        Part::Edge(k) => format!(in alloc; "edge {k}")?,
        Part::Sum(k) => format!(in alloc; "sum {k}")?,
        Part::Head => format!(in alloc; "head")?,
        Part::Polar(i, k) => format!(in alloc; "polar {i} rows {k}")?,
        Part::Kept(k) => format!(in alloc; "kept {k}")?,
    };
    Ok(format!(in alloc; "{cause}: pass {pass} point {point} {part}")?)
}

fn family_text<S: Numeric>(alloc: Global, family: &Family<PolyDomain<S>>) -> Result<String, Fail> {
    let passes = family.passes;
    let mut text = format!(in alloc; "{passes} passes")?;
    for point in 0..family.values.len() {
        let value = &family.values[point];
        let rows = rows_text(alloc, value.poly().rows())?;
        let width = value.width();
        text = if width < 4097 {
            format!(in alloc; "{text}\n{point}: {rows} kept {width}")?
        } else {
            format!(in alloc; "{text}\n{point}: {rows}")?
        };
    }
    Ok(text)
}

// What comes of the analysis.
fn outcome<S: Numeric>(alloc: Global, case: &Case) -> Result<String, Fail> {
    let graph = match graph_of(alloc, case.program.as_bytes())? {
        Some(graph) => graph,
        None => return Ok(format!(in alloc; "no program")?),
    };
    let delay = case.delay;
    let narrow = case.narrow;
    if graph.vars() > 63 {
        return Ok(format!(in alloc; "too many variables")?);
    }
    if delay > 1000 {
        return Ok(format!(in alloc; "too long a delay")?);
    }
    if narrow > 100 {
        return Ok(format!(in alloc; "too much narrowing")?);
    }
    match analyse::<PolyDomain<S>>(alloc, &graph, delay, narrow) {
        Ok(family) => family_text(alloc, &family),
        Err(IterErr::Limit(place)) => place_text(alloc, "limit", &place),
        Err(IterErr::Range(place)) => place_text(alloc, "range", &place),
        Err(IterErr::NoMemory) => Ok(format!(in alloc; "no memory")?),
    }
}

#[test]
fn analyses(rt: HostRuntime) -> Result<(), Fail> {
    let alloc = rt.alloc();
    let mut failed = false;
    for case in &CASES {
        let got = if case.reversed {
            outcome::<MinInt>(alloc, case)?
        } else {
            outcome::<MaxInt>(alloc, case)?
        };
        if got.as_str() != case.wanted {
            println!(rt; "{}: wanted {}\ngot {}", case.name, case.wanted, got)?;
            failed = true;
        }
    }
    assert!(rt; !failed);
    Ok(())
}
