//! Files of a vector with inequalities, at fault.
use run_examples::each_ends_so;
use std::test::Fail;

// Files of a system and a row that are at fault, and the line that `tangent` writes to the sink of errors.
const FAULTS: [(&str, &str); 49] = [
    ("", "tplib: line 1, column 1: syntax\n"),
    ("kind at\n", "tplib: line 2, column 1: syntax\n"),
    ("kind ineqs\nsemiring max\n", "tplib: line 1: wrong kind\n"),
    ("kind gens", "tplib: line 1: wrong kind\n"),
    ("kind pair at\n", "tplib: line 1: wrong kind\n"),
    ("kind tangent\n", "tplib: line 1, column 6: syntax\n"),
    (
        "kind at\nsemiring max\nvars x x\n",
        "tplib: line 3: duplicate name\n",
    ),
    (
        "kind at\nsemiring max\nvars x\n",
        "tplib: line 4, column 1: syntax\n",
    ),
    (
        "kind at\nsemiring max\nvars x",
        "tplib: line 4, column 1: syntax\n",
    ),
    (
        "kind at\nsemiring max\nvars x\n# no row\n\n",
        "tplib: line 6, column 1: syntax\n",
    ),
    (
        "kind at\nsemiring max\nvars x\nx <= 3\n",
        "tplib: line 5, column 1: syntax\n",
    ),
    (
        "kind at\nsemiring max\nvars x\nx <= 3",
        "tplib: line 5, column 1: syntax\n",
    ),
    (
        "kind at\nsemiring max\nvars x\nx <= 3\n# at [0, 0]",
        "tplib: line 6, column 1: syntax\n",
    ),
    (
        "kind at\nsemiring max\nvars x\nat\n",
        "tplib: line 4, column 3: syntax\n",
    ),
    (
        "kind at\nsemiring max\nvars x\nat",
        "tplib: line 4, column 3: syntax\n",
    ),
    (
        "kind at\nsemiring max\nvars x\nat [0, 0\n",
        "tplib: line 4, column 9: syntax\n",
    ),
    (
        "kind at\nsemiring max\nvars x\nat 0, 0\n",
        "tplib: line 4, column 4: syntax\n",
    ),
    (
        "kind at\nsemiring max\nvars x\nat []\n",
        "tplib: line 4, column 5: syntax\n",
    ),
    (
        "kind at\nsemiring max\nvars x\nat [0]\n",
        "tplib: line 4, column 6: syntax\n",
    ),
    (
        "kind at\nsemiring max\nvars x\nat [0, 0, 0]\n",
        "tplib: line 4, column 9: syntax\n",
    ),
    (
        "kind at\nsemiring max\nvars x\nat [0, 0,]\n",
        "tplib: line 4, column 9: syntax\n",
    ),
    (
        "kind at\nsemiring max\nvars x\nat [0, 0] x\n",
        "tplib: line 4, column 11: syntax\n",
    ),
    (
        "kind at\nsemiring max\nvars x\nat [0, 0] at [0, 0]\n",
        "tplib: line 4, column 11: syntax\n",
    ),
    (
        "kind at\nsemiring max\nvars x\nat [0, 0]\nat [0, 0]\n",
        "tplib: line 5, column 1: syntax\n",
    ),
    (
        "kind at\nsemiring max\nvars x\nat [0, 0]\n\nx <= 3\n",
        "tplib: line 6, column 1: syntax\n",
    ),
    (
        "kind at\nsemiring max\nvars x\nat [0, 0]\n# done\n  $",
        "tplib: line 6, column 3: syntax\n",
    ),
    (
        "kind at\nsemiring max\nvars x\nat [0, 0]\n1",
        "tplib: line 5, column 1: syntax\n",
    ),
    (
        "kind at\nsemiring max\nvars x\nat [0, x]\n",
        "tplib: line 4, column 8: syntax\n",
    ),
    (
        "kind at\nsemiring max\nvars x\nat [oo, 0]\n",
        "tplib: line 4, column 5: syntax\n",
    ),
    (
        "kind at\nsemiring min\nvars x\nat [-oo, 0]\n",
        "tplib: line 4, column 6: syntax\n",
    ),
    (
        "kind at\nsemiring min\nvars x\nat [0, - oo]\n",
        "tplib: line 4, column 10: syntax\n",
    ),
    (
        "kind at\nsemiring bool\nvars x\nat [true, 1]\n",
        "tplib: line 4, column 11: syntax\n",
    ),
    (
        "kind at\nsemiring bool\nvars x\nat [true]\n",
        "tplib: line 4, column 9: syntax\n",
    ),
    (
        "kind at\nsemiring max\nvars x\nat [0, 1099511627777]\n",
        "tplib: line 4: number out of range\n",
    ),
    (
        "kind at\nsemiring max\nvars x\nat [-1099511627777, 0] x\n",
        "tplib: line 4: number out of range\n",
    ),
    (
        "kind at\nsemiring max\nvars x\nx <= 1099511627777\nat [0, 0]\n",
        "tplib: line 4: number out of range\n",
    ),
    (
        "kind at\nsemiring max\nvars x\nat [0, 0, 1099511627777]\n",
        "tplib: line 4, column 9: syntax\n",
    ),
    (
        "kind at\nsemiring max\nvars x\nz <= 3\nat [0, 0]\n",
        "tplib: line 4: unknown name\n",
    ),
    (
        "kind at\nsemiring max\nvars x\nx <= 3 at [0, 0]\n",
        "tplib: line 4, column 8: syntax\n",
    ),
    (
        "kind at\nsemiring max\nvars x\nx <= at\n",
        "tplib: line 4, column 6: syntax\n",
    ),
    (
        "kind at\nsemiring max\nvars x\npoint [0]\n",
        "tplib: line 4, column 1: syntax\n",
    ),
    (
        "kind at\nsemiring max\nvars x\nray [0, 0]\n",
        "tplib: line 4, column 1: syntax\n",
    ),
    (
        "kind at\nsemiring max\nvars x\nand\n",
        "tplib: line 4, column 1: syntax\n",
    ),
    (
        "kind at\nsemiring max\nvars x\nx <= 3\nx\n",
        "tplib: line 5, column 2: syntax\n",
    ),
    (
        "kind at\nsemiring max\nvars x\nx <= 3\n)\n",
        "tplib: line 5, column 1: syntax\n",
    ),
    (
        "kind at\nsemiring max\nvars\nat []\n",
        "tplib: line 4, column 5: syntax\n",
    ),
    (
        "kind at\nsemiring max\nvars\nat [0, 0]\n",
        "tplib: line 4, column 6: syntax\n",
    ),
    (
        "kind at\nsemiring max\nvars x\naaaaaaaaaaaaaaaaaaaaaaaaaaaaaaaaa <= 3\n",
        "tplib: line 4, column 1: syntax\n",
    ),
    (
        "kind at\nsemiring bool\nvars x y\nx <= y\nat [true, true, true]\n",
        "tplib: line 4, column 3: syntax\n",
    ),
];

#[test]
fn files_of_a_row_at_fault(rt: HostRuntime) -> Result<(), Fail> {
    each_ends_so(rt.alloc(), "tangent", 3, &FAULTS)?;
    Ok(())
}
