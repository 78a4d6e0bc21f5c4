//! Answers of `int`, of the operations on cones and of `sample`, worked out by hand.
use run_examples::{answer_of, ended, ends_so};
use std::test::Fail;

/// Why a case stands, the words of a run, the file that it reads, and the code and the text of its end.
type Case = (&'static str, &'static str, &'static str, u8, &'static str);

const CASES: [Case; 30] = [
    (
        "the inequalities of a single point",
        "int",
        "kind gens\nsemiring max\nvars x\npoint [2]\n",
        0,
        "kind ineqs\nsemiring max\nvars x\n0 <= x - 2\nx <= 2\n",
    ),
    (
        "no row: the vector of zeros alone",
        "int",
        "kind gens\nsemiring max\nvars x\n",
        0,
        "kind ineqs\nsemiring max\nvars x\n0 <= -oo\nx <= -oo\n",
    ),
    (
        "a truth value that is fixed",
        "int",
        "kind gens\nsemiring bool\nvars x\npoint [true]\n",
        0,
        "kind ineqs\nsemiring bool\nvars x\ntrue => x\nx => true\n",
    ),
    (
        "two points of which one has no finite number",
        "int",
        "kind gens\nsemiring max\nvars x y\npoint [-oo, -oo]\npoint [3, 4]\n",
        0,
        "kind ineqs\nsemiring max\nvars x y\nx <= y - 1\nx <= 3\ny <= x + 1\ny <= 4\n",
    ),
    (
        "the mirror of the first in min",
        "int",
        "kind gens\nsemiring min\nvars x\npoint [-2]\n",
        0,
        "kind ineqs\nsemiring min\nvars x\n0 >= x + 2\nx >= -2\n",
    ),
    (
        "a file of inequalities",
        "int",
        "kind ineqs\nsemiring max\nvars x\n",
        3,
        "tplib: line 1: wrong kind\n",
    ),
    (
        "the point is between the two others",
        "op include",
        "kind pair\nsemiring max\nvars x\npoint [1]\nand\npoint [0]\npoint [2]\n",
        0,
        "included\n",
    ),
    (
        "the first of two points is outside",
        "op include",
        "kind pair\nsemiring max\nvars x\npoint [0]\npoint [2]\nand\npoint [1]\n",
        1,
        "not included: row [0, 0]\n",
    ),
    (
        "another point in min",
        "op include",
        "kind pair\nsemiring min\nvars x\npoint [0]\nand\npoint [1]\n",
        1,
        "not included: row [0, 0]\n",
    ),
    (
        "nothing lies in everything",
        "op include",
        "kind pair\nsemiring bool\nvars x\nand\nray [true]\n",
        0,
        "included\n",
    ),
    (
        "other rows of one cone",
        "op equal",
        "kind pair\nsemiring max\nvars x\npoint [0]\npoint [1]\npoint [2]\nand\npoint [0]\npoint [2]\n",
        0,
        "equal\n",
    ),
    (
        "the left side has more",
        "op equal",
        "kind pair\nsemiring max\nvars x\npoint [0]\npoint [2]\nand\npoint [0]\n",
        1,
        "not equal: left row [0, 2]\n",
    ),
    (
        "the right side has more",
        "op equal",
        "kind pair\nsemiring max\nvars x\npoint [0]\nand\npoint [0]\npoint [2]\n",
        1,
        "not equal: right row [0, 2]\n",
    ),
    (
        "a ray and a point of zeros",
        "op equal",
        "kind pair\nsemiring bool\nvars x\nray [true]\nand\npoint [false]\n",
        1,
        "not equal: left row [false, true]\n",
    ),
    (
        "nothing on both sides",
        "op equal",
        "kind pair\nsemiring min\nvars x y\nand\n",
        0,
        "equal\n",
    ),
    (
        "two points joined",
        "op join",
        "kind pair\nsemiring max\nvars x\npoint [0]\nand\npoint [2]\n",
        0,
        "kind gens\nsemiring max\nvars x\npoint [0]\npoint [2]\n",
    ),
    (
        "two points joined in min",
        "op join",
        "kind pair\nsemiring min\nvars x\npoint [0]\nand\npoint [2]\n",
        0,
        "kind gens\nsemiring min\nvars x\npoint [2]\npoint [0]\n",
    ),
    (
        "a row that is a sum of two goes",
        "op join",
        "kind pair\nsemiring bool\nvars x y\nray [true, false]\nand\nray [false, true]\nray [true, true]\n",
        0,
        "kind gens\nsemiring bool\nvars x y\nray [false, true]\nray [true, false]\n",
    ),
    (
        "segments that overlap",
        "op meet",
        "kind pair\nsemiring max\nvars x\npoint [0]\npoint [2]\nand\npoint [1]\npoint [5]\n",
        0,
        "kind gens\nsemiring max\nvars x\npoint [1]\npoint [2]\n",
    ),
    (
        "points apart",
        "op meet",
        "kind pair\nsemiring max\nvars x\npoint [0]\nand\npoint [1]\n",
        0,
        "kind gens\nsemiring max\nvars x\n",
    ),
    (
        "segments that overlap in min",
        "op meet",
        "kind pair\nsemiring min\nvars x\npoint [0]\npoint [2]\nand\npoint [1]\npoint [5]\n",
        0,
        "kind gens\nsemiring min\nvars x\npoint [2]\npoint [1]\n",
    ),
    (
        "a ray in the sum of both",
        "op meet",
        "kind pair\nsemiring bool\nvars x y\nray [true, false]\nray [false, true]\nand\nray [true, true]\n",
        0,
        "kind gens\nsemiring bool\nvars x y\nray [true, true]\n",
    ),
    (
        "a point forgets x",
        "op forget var=x",
        "kind gens\nsemiring max\nvars x y\npoint [2, 3]\n",
        0,
        "kind gens\nsemiring max\nvars x y\nray [0, -oo]\npoint [-oo, 3]\n",
    ),
    (
        "nothing forgets x",
        "op forget var=x",
        "kind gens\nsemiring max\nvars x\n",
        0,
        "kind gens\nsemiring max\nvars x\nray [0]\n",
    ),
    (
        "a point forgets y in min",
        "op forget var=y",
        "kind gens\nsemiring min\nvars x y\npoint [2, 3]\n",
        0,
        "kind gens\nsemiring min\nvars x y\nray [oo, 0]\npoint [2, oo]\n",
    ),
    (
        "a point of bool forgets x",
        "op forget var=x",
        "kind gens\nsemiring bool\nvars x y\npoint [true, true]\n",
        0,
        "kind gens\nsemiring bool\nvars x y\nray [true, false]\npoint [false, true]\n",
    ),
    (
        "a name that is none of the variables",
        "op forget var=z",
        "kind gens\nsemiring max\nvars x y\npoint [2, 3]\n",
        3,
        "tplib: line 3: unknown name\n",
    ),
    (
        "the name is looked up behind all other faults of the text",
        "op forget var=z",
        "kind gens\nsemiring max\n\nvars x y\npoint [2]\n",
        3,
        "tplib: line 5, column 9: syntax\n",
    ),
    (
        "a reserved word is the name of no variable",
        "op forget var=max",
        "kind gens\nsemiring max\n# names\nvars x y\npoint [2, 3]\n",
        3,
        "tplib: line 4: unknown name\n",
    ),
    (
        "no word between the two lists",
        "op join",
        "kind pair\nsemiring max\nvars x\npoint [0]\n",
        3,
        "tplib: line 5, column 1: syntax\n",
    ),
];

#[test]
fn operations_on_cones(rt: HostRuntime) -> Result<(), Fail> {
    for (why, words, input, code, text) in &CASES {
        ends_so(rt.alloc(), why, words, input.as_bytes(), ended(*code, text))?;
    }
    Ok(())
}

// What `int` prints is converted back to the rows.
#[test]
fn inequalities_of_rows_convert_back(rt: HostRuntime) -> Result<(), Fail> {
    let rows = "kind gens\nsemiring max\nvars x y\npoint [-oo, -oo]\npoint [3, 4]\n";
    let bounds = answer_of(rt.alloc(), "int", rows.as_bytes())?;
    ends_so(rt.alloc(), "there and back", "ext", &bounds, ended(0, rows))
}
