//! Answers of `tangent`.
use run_examples::each_ends_so;
use std::test::Fail;

// Systems with a row that solves them, and what `tangent` writes.
const SOLUTIONS: [(&str, &str); 29] = [
    (
        "kind at\nsemiring max\nvars x y\nx <= y\ny <= x\nat [0, 0, 0]\n",
        "edge 1: y -> x\nedge 2: x -> y\ntypes: none\nextreme: no\n",
    ),
    (
        "kind at\nsemiring max\nvars x y\nx <= y\ny <= x\nat [-oo, 0, 0]\n",
        "edge 1: y -> x\nedge 2: x -> y\ntypes: x y\nextreme: yes\n",
    ),
    (
        "kind at\nsemiring max\nvars x y\nx <= y\ny <= x\nat [-oo, -oo, -oo]\n",
        "types: none\nextreme: no\n",
    ),
    (
        "kind at\nsemiring max\nvars x y\nx <= y\ny <= x\nat [0, -oo, -oo]\n",
        "types: 0\nextreme: yes\n",
    ),
    (
        "kind at\nsemiring max\nvars x y\nx <= y\ny <= x\n\n# scaled\n\tat[-oo,\t7, 07] # row\n\n# end",
        "edge 1: y -> x\nedge 2: x -> y\ntypes: x y\nextreme: yes\n",
    ),
    (
        "kind at\nsemiring max\nvars x y z\nx <= max(y, z)\nat [-oo, 0, 0, 0]\n",
        "edge 1: y z -> x\ntypes: none\nextreme: no\n",
    ),
    (
        "kind at\nsemiring max\nvars x y z\nx <= max(y, z)\nat [-oo, 0, 0, -oo]\n",
        "edge 1: y -> x\ntypes: x\nextreme: yes\n",
    ),
    (
        "kind at\nsemiring max\nvars x y z\nx <= max(y, z)\nat [-oo, 0, -oo, 0]",
        "edge 1: z -> x\ntypes: x\nextreme: yes\n",
    ),
    (
        "kind at\nsemiring max\nvars x y z\nx <= max(y, z)\nat [-oo, 0, 1, 0]\n",
        "types: none\nextreme: no\n",
    ),
    (
        "kind at\nsemiring max\nvars x y z\nx <= max(y, z)\nat [-oo, -oo, 5, -oo]\n",
        "types: y\nextreme: yes\n",
    ),
    (
        "kind at\nsemiring max\nvars x\nx <= 3\nat [0, 3]\n",
        "edge 1: 0 -> x\ntypes: x\nextreme: yes\n",
    ),
    (
        "kind at\nsemiring max\nvars x\nx <= 3\nat [0, 2]\n",
        "types: none\nextreme: no\n",
    ),
    (
        "kind at\nsemiring max\nvars x\nx <= 3\nat [0, -oo]\n",
        "types: 0\nextreme: yes\n",
    ),
    (
        "kind at\nsemiring max\nvars x\nx <= 3\nat [-1099511627776, -1099511627773]\n",
        "edge 1: 0 -> x\ntypes: x\nextreme: yes\n",
    ),
    (
        "kind at\nsemiring max\nvars x\nmax(0, x) <= max(0, x)\nat [0, 0]\n",
        "edge 1: 0 x -> 0 x\ntypes: none\nextreme: no\n",
    ),
    (
        "kind at\nsemiring max\nvars x\n-oo <= -oo\nx <= -oo\nat [5, -oo]\n",
        "types: 0\nextreme: yes\n",
    ),
    (
        "kind at\nsemiring max\nvars x\nat [-oo, 3]\n",
        "types: x\nextreme: yes\n",
    ),
    (
        "kind at\nsemiring max\nvars x\nat [1, 3]\n",
        "types: none\nextreme: no\n",
    ),
    (
        "kind at\nsemiring max\nvars\nat [4]\n",
        "types: 0\nextreme: yes\n",
    ),
    (
        "kind at\nsemiring min\nvars\nat [oo]",
        "types: none\nextreme: no\n",
    ),
    (
        "kind at\nsemiring min\nvars x y z\nx >= min(y, z)\nat [oo, 0, 0, 0]\n",
        "edge 1: y z -> x\ntypes: none\nextreme: no\n",
    ),
    (
        "kind at\nsemiring min\nvars x y z\nx >= min(y, z)\nat [oo, 0, 0, oo]\n",
        "edge 1: y -> x\ntypes: x\nextreme: yes\n",
    ),
    (
        "kind at\nsemiring min\nvars x y\nx <= y\ny <= x\nat [oo, 1, 1]\n",
        "edge 1: x -> y\nedge 2: y -> x\ntypes: x y\nextreme: yes\n",
    ),
    (
        "kind at\nsemiring min\nvars x\nx >= 3\nat [0, 3]\n",
        "edge 1: 0 -> x\ntypes: x\nextreme: yes\n",
    ),
    (
        "kind at\nsemiring bool\nvars x y z\nx => or(y, z)\nat [false, true, true, true]\n",
        "edge 1: y z -> x\ntypes: none\nextreme: no\n",
    ),
    (
        "kind at\nsemiring bool\nvars x y z\nx => or(y, z)\nat [false, true, true, false]\n",
        "edge 1: y -> x\ntypes: x\nextreme: yes\n",
    ),
    (
        "kind at\nsemiring bool\nvars x y z\nx => or(y, z)\nat [false, false, false, true]\n",
        "types: z\nextreme: yes\n",
    ),
    (
        "kind at\nsemiring bool\nvars x y\ntrue => or(x, y)\nat [true, true, true]\n",
        "edge 1: x y -> 0\ntypes: none\nextreme: no\n",
    ),
    (
        "kind at\nsemiring bool\nvars x y\nx => y\ny => x\ntrue => x\nat [true, true, true]\n",
        "edge 1: y -> x\nedge 2: x -> y\nedge 3: x -> 0\ntypes: 0\nextreme: yes\n",
    ),
];

// Systems with a row that fails an inequality, and the number of the first.
const NO_SOLUTIONS: [(&str, &str); 9] = [
    (
        "kind at\nsemiring max\nvars x y\nx <= y\ny <= x\nat [0, 1, 0]\n",
        "not a solution: inequality 1\n",
    ),
    (
        "kind at\nsemiring max\nvars x y\nx <= y\ny <= x\nat [0, 0, 1]\n",
        "not a solution: inequality 2\n",
    ),
    (
        "kind at\nsemiring max\nvars x y\nx <= y\ny <= x\nat [-oo, -oo, 0]\n",
        "not a solution: inequality 2\n",
    ),
    (
        "kind at\nsemiring max\nvars x\nx <= 5\nx <= 3\nat [0, 4]\n",
        "not a solution: inequality 2\n",
    ),
    (
        "kind at\nsemiring max\nvars x\nx <= 3\nx <= 3\nat [0, 4]",
        "not a solution: inequality 1\n",
    ),
    (
        "kind at\nsemiring max\nvars\n0 <= -oo\nat [0]\n",
        "not a solution: inequality 1\n",
    ),
    (
        "kind at\nsemiring min\nvars x\nx >= 3\n\n# second\nx >= 4\nat [0, 3]\n",
        "not a solution: inequality 2\n",
    ),
    (
        "kind at\nsemiring min\nvars x\nx <= 3\nat [0, oo]\n",
        "not a solution: inequality 1\n",
    ),
    (
        "kind at\nsemiring bool\nvars x y\ny => y\nx => y\nat [false, true, false]\n",
        "not a solution: inequality 2\n",
    ),
];

#[test]
fn tangent_hypergraphs_types_and_extremality(rt: HostRuntime) -> Result<(), Fail> {
    each_ends_so(rt.alloc(), "tangent", 0, &SOLUTIONS)?;
    Ok(())
}

#[test]
fn rows_that_are_no_solutions(rt: HostRuntime) -> Result<(), Fail> {
    each_ends_so(rt.alloc(), "tangent", 1, &NO_SOLUTIONS)?;
    Ok(())
}
