//! Answers of `int lean=on`, worked out by hand.
use itoa::Buffer;
use run_examples::{answer_of, ended, ends_so};
use std::alloc::Global;
use std::test::Fail;

/// Why a case stands, the file that a run reads, and the code and the text of its end.
type Case = (&'static str, &'static str, u8, &'static str);

const CASES: [Case; 10] = [
    (
        "a single point: both bounds are needed",
        "kind gens\nsemiring max\nvars x\npoint [2]\n",
        0,
        "kind ineqs\nsemiring max\nvars x\n0 <= x - 2\n# fails at [0, -oo]\nx <= 2\n# fails at [-oo, 0]\n",
    ),
    (
        "a single point in min",
        "kind gens\nsemiring min\nvars x\npoint [-2]\n",
        0,
        "kind ineqs\nsemiring min\nvars x\n0 >= x + 2\n# fails at [0, oo]\nx >= -2\n# fails at [oo, 0]\n",
    ),
    (
        "a truth value that is fixed",
        "kind gens\nsemiring bool\nvars x\npoint [true]\n",
        0,
        "kind ineqs\nsemiring bool\nvars x\ntrue => x\n# fails at [true, false]\nx => true\n# fails at [false, true]\n",
    ),
    (
        "the bound x <= 3 follows from x <= y - 1 and y <= 4",
        "kind gens\nsemiring max\nvars x y\npoint [-oo, -oo]\npoint [3, 4]\n",
        0,
        "kind ineqs\nsemiring max\nvars x y\nx <= y - 1\n# fails at [0, 3, -oo]\ny <= x + 1\n# fails at [0, -oo, 4]\ny <= 4\n# fails at [-oo, 0, 1]\n",
    ),
    (
        "the mirror of this in min",
        "kind gens\nsemiring min\nvars x y\npoint [oo, oo]\npoint [-3, -4]\n",
        0,
        "kind ineqs\nsemiring min\nvars x y\nx >= y + 1\n# fails at [0, -3, oo]\ny >= x - 1\n# fails at [0, oo, -4]\ny >= -4\n# fails at [oo, 0, -1]\n",
    ),
    (
        "two truth values that are one",
        "kind gens\nsemiring bool\nvars x y\npoint [false, false]\npoint [true, true]\n",
        0,
        "kind ineqs\nsemiring bool\nvars x y\nx => y\n# fails at [true, true, false]\ny => x\n# fails at [true, false, true]\ny => true\n# fails at [false, true, true]\n",
    ),
    (
        "no row: each coordinate is bounded by the zero",
        "kind gens\nsemiring max\nvars x\n",
        0,
        "kind ineqs\nsemiring max\nvars x\n0 <= -oo\n# fails at [0, -oo]\nx <= -oo\n# fails at [-oo, 0]\n",
    ),
    (
        "all vectors, whose list is empty",
        "kind gens\nsemiring max\nvars x\nray [0]\npoint [-oo]\n",
        0,
        "kind ineqs\nsemiring max\nvars x\n",
    ),
    (
        "a file of inequalities",
        "kind ineqs\nsemiring max\nvars x\n",
        3,
        "tplib: line 1: wrong kind\n",
    ),
    (
        "an entry too many",
        "kind gens\nsemiring max\nvars x\npoint [2, 3]\n",
        3,
        "tplib: line 4, column 9: syntax\n",
    ),
];

// A cone with 286 extreme rows. The inequalities of its external list come in another order: x <= max(a7, b7) down to
// x <= max(a1, b1), then x <= max(p, c7, d7) and so on, and those of p and a last. Without the first of them an extreme row
// with x has one of each pair a, b, and beside it p or one of each pair c, d: 64 for p, and with 6 pairs c, d another 4,096.
const LARGE_FRONT: &str =
    "kind ineqs\nsemiring max\nvars x p a1 a2 a3 a4 a5 a6 a7 b1 b2 b3 b4 b5 b6 b7 c1 d1 c2 d2 c3 d3 c4 d4 c5 d5 c6 d6 c7 d7\nx <= max(p, a1)\nx <= max(p, a2)\nx <= max(p, a3)\nx <= max(p, a4)\nx <= max(p, a5)\nx <= max(p, a6)\nx <= max(p, a7)\nx <= max(a1, b1)\nx <= max(a2, b2)\nx <= max(a3, b3)\nx <= max(a4, b4)\nx <= max(a5, b5)\nx <= max(a6, b6)\nx <= max(a7, b7)\nx <= max(p, c1, d1)\nx <= max(p, c2, d2)\nx <= max(p, c3, d3)\nx <= max(p, c4, d4)\nx <= max(p, c5, d5)\nx <= max(p, c6, d6)\nx <= max(p, c7, d7)\n";

#[test]
fn lean_lists_with_their_rows(rt: HostRuntime) -> Result<(), Fail> {
    for (why, input, code, text) in &CASES {
        let wanted = ended(*code, text);
        ends_so(rt.alloc(), why, "int lean=on", input.as_bytes(), wanted)?;
    }
    Ok(())
}

// What `int lean=on` prints is converted back to the rows.
#[test]
fn lean_lists_convert_back(rt: HostRuntime) -> Result<(), Fail> {
    let rows = "kind gens\nsemiring max\nvars x y\npoint [-oo, -oo]\npoint [3, 4]\n";
    let bounds = answer_of(rt.alloc(), "int lean=on", rows.as_bytes())?;
    ends_so(rt.alloc(), "there and back", "ext", &bounds, ended(0, rows))
}

#[test]
fn the_others_of_an_inequality_past_the_limit(rt: HostRuntime) -> Result<(), Fail> {
    let rows = answer_of(rt.alloc(), "ext", LARGE_FRONT.as_bytes())?;
    let line = ended(4, "tplib: limit: lean 1 inequalities 12\n");
    ends_so(rt.alloc(), "a large front", "int lean=on", &rows, line)
}

// Four points with 8 variables each, of 32: a bound on the constant has a variable of each of them, so there are 4,096.
fn four_groups(alloc: Global) -> Result<Vec<u8>, Fail> {
    let mut text = Vec::from_slice(alloc, b"kind gens\nsemiring max\nvars")?;
    for place in 1..=32u64 {
        let mut buffer = Buffer::new();
        text.extend_from_slice(b" v")?;
        text.extend_from_slice(buffer.format(place).as_bytes())?;
    }
    for group in 0..4u64 {
        text.extend_from_slice(b"\npoint")?;
        for place in 0..32u64 {
            let between: &[u8] = if place == 0 { b" [" } else { b", " };
            let entry: &[u8] = if place / 8 == group { b"0" } else { b"-oo" };
            text.extend_from_slice(between)?;
            text.extend_from_slice(entry)?;
        }
        text.extend_from_slice(b"]")?;
    }
    text.extend_from_slice(b"\n")?;
    Ok(text)
}

#[test]
fn a_polar_past_the_limit(rt: HostRuntime) -> Result<(), Fail> {
    let text = four_groups(rt.alloc())?;
    for words in ["int", "int lean=on"] {
        let line = ended(4, "tplib: limit: polar 0 rows 4\n");
        ends_so(rt.alloc(), "four groups", words, &text, line)?;
    }
    Ok(())
}
