//! Files with as many names and lines as there may be, and with one more.
use run_examples::{ended, ends_so};
use std::alloc::Global;
use std::test::Fail;

/// The words of a command, a head that it reads, and a line that is repeated behind it.
#[derive(Clone, Copy)]
struct Lines {
    words: &'static str,
    head: &'static str,
    line: &'static str,
}

const POINTS: Lines = Lines {
    words: "reduce",
    head: "kind gens\nsemiring max\nvars x\n",
    line: "point [0]\n",
};

const BOTTOMS: Lines = Lines {
    words: "reduce",
    head: "kind gens\nsemiring max\nvars x\n",
    line: "ray [-oo]\n",
};

const SEVENS: Lines = Lines {
    words: "reduce",
    head: "kind gens\nsemiring min\nvars x\n",
    line: "point [7] # seven\n\n",
};

const TRUE_RAYS: Lines = Lines {
    words: "reduce",
    head: "kind gens\nsemiring bool\nvars x\n",
    line: "ray [true]\n",
};

const MIN_BOTTOMS: Lines = Lines {
    words: "reduce",
    head: "kind gens\nsemiring min\nvars x\n",
    line: "ray [oo]\n\n",
};

const FALSE_POINTS: Lines = Lines {
    words: "reduce",
    head: "kind gens\nsemiring bool\nvars x\n",
    line: "point [false]\n",
};

const UPPER: Lines = Lines {
    words: "ext",
    head: "kind ineqs\nsemiring max\nvars x\n",
    line: "x <= 3\n",
};

const UPPER_AGAIN: Lines = Lines {
    words: "ext",
    head: "kind ineqs\nsemiring max\nvars x\n",
    line: "x <= 3 # again\n\n",
};

const LOWER: Lines = Lines {
    words: "ext",
    head: "kind ineqs\nsemiring min\nvars x\n",
    line: "x >= 3\n",
};

const FALSE: Lines = Lines {
    words: "ext",
    head: "kind ineqs\nsemiring bool\nvars x\n",
    line: "x => false\n",
};

const UPPER_SPACED: Lines = Lines {
    words: "ext",
    head: "kind ineqs\nsemiring max\nvars x\n",
    line: "x <= 3\n# c\n\n",
};

const SLACK: Lines = Lines {
    words: "tangent",
    head: "kind at\nsemiring max\nvars x\n",
    line: "x <= 4\n",
};

/// Why a case stands, the line and how often it is repeated, what stands last, and the code and the text of the end.
type Case = (&'static str, Lines, u32, &'static str, u8, &'static str);

fn text_of(alloc: Global, lines: &Lines, count: u32, last: &str) -> Result<Vec<u8>, Fail> {
    let mut text = Vec::from_slice(alloc, lines.head.as_bytes())?;
    for _ in 0..count {
        text.extend_from_slice(lines.line.as_bytes())?;
    }
    text.extend_from_slice(last.as_bytes())?;
    Ok(text)
}

fn are_met(alloc: Global, cases: &[Case]) -> Result<(), Fail> {
    for (why, lines, count, last, code, text) in cases {
        let input = text_of(alloc, lines, *count, last)?;
        ends_so(alloc, why, lines.words, &input, ended(*code, text))?;
    }
    Ok(())
}

// Up to 4,096 lines of generators are read, and one more is not.
const GENERATORS: [Case; 21] = [
    (
        "as many points as there may be",
        POINTS,
        4_096,
        "",
        0,
        "kind gens\nsemiring max\nvars x\npoint [0]\n",
    ),
    (
        "a comment, an empty line and a blank behind them",
        POINTS,
        4_096,
        "# end\n\n\t",
        0,
        "kind gens\nsemiring max\nvars x\npoint [0]\n",
    ),
    (
        "the last of them without a line end",
        POINTS,
        4_095,
        "point [1]",
        0,
        "kind gens\nsemiring max\nvars x\npoint [0]\npoint [1]\n",
    ),
    (
        "rays of zeros count and add nothing",
        BOTTOMS,
        4_096,
        "",
        0,
        "kind gens\nsemiring max\nvars x\n",
    ),
    (
        "comments and empty lines between them, in min",
        SEVENS,
        4_096,
        "",
        0,
        "kind gens\nsemiring min\nvars x\npoint [7]\n",
    ),
    (
        "rays in bool",
        TRUE_RAYS,
        4_096,
        "",
        0,
        "kind gens\nsemiring bool\nvars x\nray [true]\n",
    ),
    (
        "a fault in the last of them",
        POINTS,
        4_095,
        "point [x]",
        3,
        "tplib: line 4099, column 8: syntax\n",
    ),
    (
        "a number out of range in the last of them",
        POINTS,
        4_095,
        "point [1099511627777]",
        3,
        "tplib: line 4099: number out of range\n",
    ),
    (
        "one point more",
        POINTS,
        4_096,
        "point [0]\n",
        3,
        "tplib: line 4100: too many lines\n",
    ),
    (
        "one ray more, cut off",
        POINTS,
        4_096,
        "ray",
        3,
        "tplib: line 4100: too many lines\n",
    ),
    (
        "one more, with faults of its own",
        POINTS,
        4_096,
        "point [x] $\n",
        3,
        "tplib: line 4100: too many lines\n",
    ),
    (
        "one ray of zeros more",
        POINTS,
        4_096,
        "ray [-oo]",
        3,
        "tplib: line 4100: too many lines\n",
    ),
    (
        "a name behind them",
        POINTS,
        4_096,
        "x\n",
        3,
        "tplib: line 4100, column 1: syntax\n",
    ),
    (
        "the word of pairs behind them",
        POINTS,
        4_096,
        "and\n",
        3,
        "tplib: line 4100, column 1: syntax\n",
    ),
    (
        "the word of a row behind them",
        POINTS,
        4_096,
        "at [0, 0]",
        3,
        "tplib: line 4100, column 1: syntax\n",
    ),
    (
        "a number behind them",
        POINTS,
        4_096,
        "1\n",
        3,
        "tplib: line 4100, column 1: syntax\n",
    ),
    (
        "a byte of no token behind them",
        POINTS,
        4_096,
        "$",
        3,
        "tplib: line 4100, column 1: syntax\n",
    ),
    (
        "one more behind a comment and an empty line",
        POINTS,
        4_096,
        "# more\n\n  ray [0]\n",
        3,
        "tplib: line 4102: too many lines\n",
    ),
    (
        "one more where all are rays of zeros",
        BOTTOMS,
        4_096,
        "ray [-oo]\n",
        3,
        "tplib: line 4100: too many lines\n",
    ),
    (
        "one more in min, with empty lines between them",
        MIN_BOTTOMS,
        4_096,
        "point [0]",
        3,
        "tplib: line 8196: too many lines\n",
    ),
    (
        "one more in bool, cut off",
        FALSE_POINTS,
        4_096,
        "point",
        3,
        "tplib: line 4100: too many lines\n",
    ),
];

// Up to 1,024 inequalities are read, and what could begin one more is not.
const INEQUALITIES: [Case; 37] = [
    (
        "as many as there may be",
        UPPER,
        1_024,
        "",
        0,
        "kind gens\nsemiring max\nvars x\npoint [-oo]\npoint [3]\n",
    ),
    (
        "comments and empty lines between them",
        UPPER_AGAIN,
        1_024,
        "# end",
        0,
        "kind gens\nsemiring max\nvars x\npoint [-oo]\npoint [3]\n",
    ),
    (
        "as many in min",
        LOWER,
        1_024,
        "",
        0,
        "kind gens\nsemiring min\nvars x\npoint [oo]\npoint [3]\n",
    ),
    (
        "as many in bool, with an empty line behind them",
        FALSE,
        1_024,
        "\n",
        0,
        "kind gens\nsemiring bool\nvars x\npoint [false]\n",
    ),
    (
        "an unknown name in the last of them",
        UPPER,
        1_023,
        "x <= z\n",
        3,
        "tplib: line 1027: unknown name\n",
    ),
    (
        "the last of them cut off",
        UPPER,
        1_023,
        "x <=",
        3,
        "tplib: line 1027, column 5: syntax\n",
    ),
    (
        "one more",
        UPPER,
        1_024,
        "x <= 3\n",
        3,
        "tplib: line 1028: too many lines\n",
    ),
    (
        "one more, cut off behind its name",
        UPPER,
        1_024,
        "x\n",
        3,
        "tplib: line 1028: too many lines\n",
    ),
    (
        "one more, of an unknown name",
        UPPER,
        1_024,
        "z\n",
        3,
        "tplib: line 1028: too many lines\n",
    ),
    (
        "one more, of a number that is too long",
        UPPER,
        1_024,
        "99999999999999999999\n",
        3,
        "tplib: line 1028: too many lines\n",
    ),
    (
        "one more, of a minus and a name",
        UPPER,
        1_024,
        "- x",
        3,
        "tplib: line 1028: too many lines\n",
    ),
    (
        "one more, of the word of a sum alone",
        UPPER,
        1_024,
        "max",
        3,
        "tplib: line 1028: too many lines\n",
    ),
    (
        "one more, of a sum at fault",
        UPPER,
        1_024,
        "max )",
        3,
        "tplib: line 1028: too many lines\n",
    ),
    (
        "one more, of a minus alone",
        UPPER,
        1_024,
        "-",
        3,
        "tplib: line 1028: too many lines\n",
    ),
    (
        "a sign that begins none",
        UPPER,
        1_024,
        ")\n",
        3,
        "tplib: line 1028, column 1: syntax\n",
    ),
    (
        "the sign of the order",
        UPPER,
        1_024,
        "<= 3",
        3,
        "tplib: line 1028, column 1: syntax\n",
    ),
    (
        "the sum of min",
        UPPER,
        1_024,
        "min(x) <= 3\n",
        3,
        "tplib: line 1028, column 1: syntax\n",
    ),
    (
        "the sum of bool",
        UPPER,
        1_024,
        "or",
        3,
        "tplib: line 1028, column 1: syntax\n",
    ),
    (
        "the zero of min",
        UPPER,
        1_024,
        "oo\n",
        3,
        "tplib: line 1028, column 1: syntax\n",
    ),
    (
        "a truth value",
        UPPER,
        1_024,
        "true",
        3,
        "tplib: line 1028, column 1: syntax\n",
    ),
    (
        "the word of a point",
        UPPER,
        1_024,
        "point\n",
        3,
        "tplib: line 1028, column 1: syntax\n",
    ),
    (
        "the word of a row",
        UPPER,
        1_024,
        "at [0, 0]",
        3,
        "tplib: line 1028, column 1: syntax\n",
    ),
    (
        "a word that is too long for a name",
        UPPER,
        1_024,
        "aaaaaaaaaaaaaaaaaaaaaaaaaaaaaaaaa\n",
        3,
        "tplib: line 1028, column 1: syntax\n",
    ),
    (
        "a byte of no token",
        UPPER,
        1_024,
        "$",
        3,
        "tplib: line 1028, column 1: syntax\n",
    ),
    (
        "one more behind comments and empty lines",
        UPPER_SPACED,
        1_024,
        "  x <= 3\n",
        3,
        "tplib: line 3076: too many lines\n",
    ),
    (
        "one more in min, of its zero",
        LOWER,
        1_024,
        "oo\n",
        3,
        "tplib: line 1028: too many lines\n",
    ),
    (
        "one more in min, of a minus alone",
        LOWER,
        1_024,
        "-",
        3,
        "tplib: line 1028: too many lines\n",
    ),
    (
        "one more in min, of the word of a sum",
        LOWER,
        1_024,
        "min",
        3,
        "tplib: line 1028: too many lines\n",
    ),
    (
        "one more in min, of an unknown name",
        LOWER,
        1_024,
        "z",
        3,
        "tplib: line 1028: too many lines\n",
    ),
    (
        "the sum of max in min",
        LOWER,
        1_024,
        "max",
        3,
        "tplib: line 1028, column 1: syntax\n",
    ),
    (
        "a truth value in min",
        LOWER,
        1_024,
        "false",
        3,
        "tplib: line 1028, column 1: syntax\n",
    ),
    (
        "one more in bool, of a truth value",
        FALSE,
        1_024,
        "true",
        3,
        "tplib: line 1028: too many lines\n",
    ),
    (
        "one more in bool, of the word of a sum",
        FALSE,
        1_024,
        "or",
        3,
        "tplib: line 1028: too many lines\n",
    ),
    (
        "one more in bool",
        FALSE,
        1_024,
        "x => x",
        3,
        "tplib: line 1028: too many lines\n",
    ),
    (
        "a number in bool",
        FALSE,
        1_024,
        "1",
        3,
        "tplib: line 1028, column 1: syntax\n",
    ),
    (
        "a minus in bool",
        FALSE,
        1_024,
        "-",
        3,
        "tplib: line 1028, column 1: syntax\n",
    ),
    (
        "the sum of max in bool",
        FALSE,
        1_024,
        "max(x) => x",
        3,
        "tplib: line 1028, column 1: syntax\n",
    ),
];

// The same in front of a row.
const ROWS: [Case; 8] = [
    (
        "as many as there may be before a row",
        SLACK,
        1_024,
        "at [0, 3]\n",
        0,
        "types: none\nextreme: no\n",
    ),
    (
        "the last of them alone is tight",
        SLACK,
        1_023,
        "x <= 3\nat [0, 3]",
        0,
        "edge 1024: 0 -> x\ntypes: x\nextreme: yes\n",
    ),
    (
        "a row that is too short behind them",
        SLACK,
        1_024,
        "at [0]\n",
        3,
        "tplib: line 1028, column 6: syntax\n",
    ),
    (
        "no row behind them",
        SLACK,
        1_024,
        "",
        3,
        "tplib: line 1028, column 1: syntax\n",
    ),
    (
        "one more before the row",
        SLACK,
        1_024,
        "x <= 4\nat [0, 3]\n",
        3,
        "tplib: line 1028: too many lines\n",
    ),
    (
        "one more, of an unknown name",
        SLACK,
        1_024,
        "z",
        3,
        "tplib: line 1028: too many lines\n",
    ),
    (
        "one more, of a number",
        SLACK,
        1_024,
        "5",
        3,
        "tplib: line 1028: too many lines\n",
    ),
    (
        "a sign that begins neither",
        SLACK,
        1_024,
        ")",
        3,
        "tplib: line 1028, column 1: syntax\n",
    ),
];

#[test]
fn at_most_4096_lines_of_generators(rt: HostRuntime) -> Result<(), Fail> {
    are_met(rt.alloc(), &GENERATORS)
}

#[test]
fn at_most_1024_inequalities(rt: HostRuntime) -> Result<(), Fail> {
    are_met(rt.alloc(), &INEQUALITIES)
}

#[test]
fn at_most_1024_inequalities_before_a_row(rt: HostRuntime) -> Result<(), Fail> {
    are_met(rt.alloc(), &ROWS)
}
