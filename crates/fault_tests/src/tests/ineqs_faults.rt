//! Files of inequalities, at fault.
use run_examples::each_ends_so;
use std::test::Fail;

// Files of inequalities that are at fault, and the line that `ext` writes to the sink of errors.
const FAULTS: [(&str, &str); 120] = [
    ("", "tplib: line 1, column 1: syntax\n"),
    (
        "kind ineqs\nsemiring min",
        "tplib: line 3, column 1: syntax\n",
    ),
    ("kind ineqs # none\n\n", "tplib: line 3, column 1: syntax\n"),
    ("kind gens\n", "tplib: line 1: wrong kind\n"),
    ("kind pair pair\n", "tplib: line 1: wrong kind\n"),
    ("\nkind at", "tplib: line 2: wrong kind\n"),
    ("kind ext\n", "tplib: line 1, column 6: syntax\n"),
    (
        "kind ineqs\nsemiring max\nvars x x\n",
        "tplib: line 3: duplicate name\n",
    ),
    (
        "kind ineqs\nsemiring min\nvars v1 v2 v3 v4 v5 v6 v7 v8 v9 v10 v11 v12 v13 v14 v15 v16 v17 v18 v19 v20 v21 v22 v23 v24 v25 v26 v27 v28 v29 v30 v31 v32 v33 v34 v35 v36 v37 v38 v39 v40 v41 v42 v43 v44 v45 v46 v47 v48 v49 v50 v51 v52 v53 v54 v55 v56 v57 v58 v59 v60 v61 v62 v63 v64\n",
        "tplib: line 3: too many variables\n",
    ),
    (
        "kind ineqs\nsemiring bool\nvars x true\n",
        "tplib: line 3, column 8: syntax\n",
    ),
    (
        "kind ineqs\nsemiring max\nvars aaaaaaaaaaaaaaaaaaaaaaaaaaaaaaaaa\n",
        "tplib: line 3, column 6: syntax\n",
    ),
    (
        "kind ineqs\nsemiring max\nvars x\nx <=\n",
        "tplib: line 4, column 5: syntax\n",
    ),
    (
        "kind ineqs\nsemiring max\nvars x\nx <=",
        "tplib: line 4, column 5: syntax\n",
    ),
    (
        "kind ineqs\nsemiring max\nvars x\nx <= # 3\r\n",
        "tplib: line 4, column 10: syntax\n",
    ),
    (
        "kind ineqs\nsemiring max\nvars x\nx >=\n",
        "tplib: line 4, column 5: syntax\n",
    ),
    (
        "kind ineqs\nsemiring max\nvars x\nx",
        "tplib: line 4, column 2: syntax\n",
    ),
    (
        "kind ineqs\nsemiring max\nvars x\nx\n<= 3\n",
        "tplib: line 4, column 2: syntax\n",
    ),
    (
        "kind ineqs\nsemiring max\nvars x\nx x <= 3\n",
        "tplib: line 4, column 3: syntax\n",
    ),
    (
        "kind ineqs\nsemiring max\nvars x\nx < 3\n",
        "tplib: line 4, column 3: syntax\n",
    ),
    (
        "kind ineqs\nsemiring max\nvars x\nx = 3\n",
        "tplib: line 4, column 3: syntax\n",
    ),
    (
        "kind ineqs\nsemiring max\nvars x\nx == 3\n",
        "tplib: line 4, column 3: syntax\n",
    ),
    (
        "kind ineqs\nsemiring max\nvars x\nx => 3\n",
        "tplib: line 4, column 3: syntax\n",
    ),
    (
        "kind ineqs\nsemiring max\nvars x\nx > 3\n",
        "tplib: line 4, column 3: syntax\n",
    ),
    (
        "kind ineqs\nsemiring max\nvars x\nx != 3\n",
        "tplib: line 4, column 3: syntax\n",
    ),
    (
        "kind ineqs\nsemiring max\nvars x\nx < = 3\n",
        "tplib: line 4, column 3: syntax\n",
    ),
    (
        "kind ineqs\nsemiring min\nvars x\nx => 3\n",
        "tplib: line 4, column 3: syntax\n",
    ),
    (
        "kind ineqs\nsemiring min\nvars x\nx := 3\n",
        "tplib: line 4, column 3: syntax\n",
    ),
    (
        "kind ineqs\nsemiring bool\nvars x y\nx <= y\n",
        "tplib: line 4, column 3: syntax\n",
    ),
    (
        "kind ineqs\nsemiring bool\nvars x y\nx >= y\n",
        "tplib: line 4, column 3: syntax\n",
    ),
    (
        "kind ineqs\nsemiring bool\nvars x y\nx = > y\n",
        "tplib: line 4, column 3: syntax\n",
    ),
    (
        "kind ineqs\nsemiring bool\nvars x y\nor(x) <= y\n",
        "tplib: line 4, column 7: syntax\n",
    ),
    (
        "kind ineqs\nsemiring max\nvars x\nx <= 3 4\n",
        "tplib: line 4, column 8: syntax\n",
    ),
    (
        "kind ineqs\nsemiring max\nvars x\nx <= 3 <= 4\n",
        "tplib: line 4, column 8: syntax\n",
    ),
    (
        "kind ineqs\nsemiring max\nvars x\nx <= 3;\n",
        "tplib: line 4, column 7: syntax\n",
    ),
    (
        "kind ineqs\nsemiring max\nvars x\nx <= 3 z\n",
        "tplib: line 4, column 8: syntax\n",
    ),
    (
        "kind ineqs\nsemiring max\nvars x\nx <= 3 1099511627777\n",
        "tplib: line 4, column 8: syntax\n",
    ),
    (
        "kind ineqs\nsemiring bool\nvars x y\nx => y x\n",
        "tplib: line 4, column 8: syntax\n",
    ),
    (
        "kind ineqs\nsemiring bool\nvars x y\nx => true false\n",
        "tplib: line 4, column 11: syntax\n",
    ),
    (
        "kind ineqs\nsemiring max\nvars x\n<= x\n",
        "tplib: line 4, column 1: syntax\n",
    ),
    (
        "kind ineqs\nsemiring max\nvars x\n[0]\n",
        "tplib: line 4, column 1: syntax\n",
    ),
    (
        "kind ineqs\nsemiring max\nvars x\n+ 3 <= x\n",
        "tplib: line 4, column 1: syntax\n",
    ),
    (
        "kind ineqs\nsemiring max\nvars x\n-x <= 3\n",
        "tplib: line 4, column 2: syntax\n",
    ),
    (
        "kind ineqs\nsemiring max\nvars x\n- <= 3\n",
        "tplib: line 4, column 3: syntax\n",
    ),
    (
        "kind ineqs\nsemiring max\nvars x\nx <= -\n",
        "tplib: line 4, column 7: syntax\n",
    ),
    (
        "kind ineqs\nsemiring max\nvars x\nx +\n",
        "tplib: line 4, column 4: syntax\n",
    ),
    (
        "kind ineqs\nsemiring max\nvars x\nx + <= 3\n",
        "tplib: line 4, column 5: syntax\n",
    ),
    (
        "kind ineqs\nsemiring max\nvars x\nx + x <= 3\n",
        "tplib: line 4, column 5: syntax\n",
    ),
    (
        "kind ineqs\nsemiring max\nvars x\nx + -3 <= 0\n",
        "tplib: line 4, column 5: syntax\n",
    ),
    (
        "kind ineqs\nsemiring max\nvars x\nx - oo <= 3\n",
        "tplib: line 4, column 5: syntax\n",
    ),
    (
        "kind ineqs\nsemiring max\nvars x\nx - -3 <= 0\n",
        "tplib: line 4, column 5: syntax\n",
    ),
    (
        "kind ineqs\nsemiring max\nvars x\n3 + x <= 3\n",
        "tplib: line 4, column 3: syntax\n",
    ),
    (
        "kind ineqs\nsemiring max\nvars x\nx + 2 + 3 <= 3\n",
        "tplib: line 4, column 7: syntax\n",
    ),
    (
        "kind ineqs\nsemiring max\nvars x\n2x <= 3\n",
        "tplib: line 4, column 2: syntax\n",
    ),
    (
        "kind ineqs\nsemiring max\nvars x\nx <= x2\n",
        "tplib: line 4: unknown name\n",
    ),
    (
        "kind ineqs\nsemiring max\nvars x\n-oo + 3 <= x\n",
        "tplib: line 4, column 5: syntax\n",
    ),
    (
        "kind ineqs\nsemiring max\nvars x\noo <= x\n",
        "tplib: line 4, column 1: syntax\n",
    ),
    (
        "kind ineqs\nsemiring max\nvars x\nx <= oo\n",
        "tplib: line 4, column 6: syntax\n",
    ),
    (
        "kind ineqs\nsemiring min\nvars x\n-oo <= x\n",
        "tplib: line 4, column 2: syntax\n",
    ),
    (
        "kind ineqs\nsemiring min\nvars x\nx >= - oo\n",
        "tplib: line 4, column 8: syntax\n",
    ),
    (
        "kind ineqs\nsemiring min\nvars x\nx - oo <= 3\n",
        "tplib: line 4, column 5: syntax\n",
    ),
    (
        "kind ineqs\nsemiring max\nvars x\ntrue <= x\n",
        "tplib: line 4, column 1: syntax\n",
    ),
    (
        "kind ineqs\nsemiring bool\nvars x y\n1 => x\n",
        "tplib: line 4, column 1: syntax\n",
    ),
    (
        "kind ineqs\nsemiring bool\nvars x y\nx => 3\n",
        "tplib: line 4, column 6: syntax\n",
    ),
    (
        "kind ineqs\nsemiring bool\nvars x y\nx + 1 => y\n",
        "tplib: line 4, column 3: syntax\n",
    ),
    (
        "kind ineqs\nsemiring bool\nvars x y\n-oo => x\n",
        "tplib: line 4, column 1: syntax\n",
    ),
    (
        "kind ineqs\nsemiring bool\nvars x y\noo => x\n",
        "tplib: line 4, column 1: syntax\n",
    ),
    (
        "kind ineqs\nsemiring max\nvars x\nmax\n",
        "tplib: line 4, column 4: syntax\n",
    ),
    (
        "kind ineqs\nsemiring max\nvars x\nmax x\n",
        "tplib: line 4, column 5: syntax\n",
    ),
    (
        "kind ineqs\nsemiring max\nvars x\nmax()\n",
        "tplib: line 4, column 5: syntax\n",
    ),
    (
        "kind ineqs\nsemiring max\nvars x\nmax(\n",
        "tplib: line 4, column 5: syntax\n",
    ),
    (
        "kind ineqs\nsemiring max\nvars x\nmax(x\n",
        "tplib: line 4, column 6: syntax\n",
    ),
    (
        "kind ineqs\nsemiring max\nvars x\nmax(x,)\n",
        "tplib: line 4, column 7: syntax\n",
    ),
    (
        "kind ineqs\nsemiring max\nvars x\nmax(x,",
        "tplib: line 4, column 7: syntax\n",
    ),
    (
        "kind ineqs\nsemiring max\nvars x\nmax(x x)\n",
        "tplib: line 4, column 7: syntax\n",
    ),
    (
        "kind ineqs\nsemiring max\nvars x\nmax(max(x)) <= 3\n",
        "tplib: line 4, column 5: syntax\n",
    ),
    (
        "kind ineqs\nsemiring max\nvars x\nmax(x) 3\n",
        "tplib: line 4, column 8: syntax\n",
    ),
    (
        "kind ineqs\nsemiring max\nvars x\nmax(x) + 1 <= 3\n",
        "tplib: line 4, column 8: syntax\n",
    ),
    (
        "kind ineqs\nsemiring max\nvars x\n(x) <= 3\n",
        "tplib: line 4, column 1: syntax\n",
    ),
    (
        "kind ineqs\nsemiring max\nvars x\nx <= max(x))\n",
        "tplib: line 4, column 12: syntax\n",
    ),
    (
        "kind ineqs\nsemiring max\nvars x\nor(x) <= 3\n",
        "tplib: line 4, column 1: syntax\n",
    ),
    (
        "kind ineqs\nsemiring max\nvars x\nmin(x) <= 3\n",
        "tplib: line 4, column 1: syntax\n",
    ),
    (
        "kind ineqs\nsemiring min\nvars x\nmax(x) >= 3\n",
        "tplib: line 4, column 1: syntax\n",
    ),
    (
        "kind ineqs\nsemiring min\nvars x\nx >= or(x)\n",
        "tplib: line 4, column 6: syntax\n",
    ),
    (
        "kind ineqs\nsemiring bool\nvars x y\nmax(x) => y\n",
        "tplib: line 4, column 1: syntax\n",
    ),
    (
        "kind ineqs\nsemiring bool\nvars x y\nx => min(x)\n",
        "tplib: line 4, column 6: syntax\n",
    ),
    (
        "kind ineqs\nsemiring bool\nvars x y\nor(x, or(y)) => x\n",
        "tplib: line 4, column 7: syntax\n",
    ),
    (
        "kind ineqs\nsemiring max\nvars x\nz <= x\n",
        "tplib: line 4: unknown name\n",
    ),
    (
        "kind ineqs\nsemiring max\nvars x\nx <= z\n",
        "tplib: line 4: unknown name\n",
    ),
    (
        "kind ineqs\nsemiring max\nvars x\nx <= z 3\n",
        "tplib: line 4: unknown name\n",
    ),
    (
        "kind ineqs\nsemiring max\nvars x\nz\n",
        "tplib: line 4: unknown name\n",
    ),
    (
        "kind ineqs\nsemiring max\nvars x\nz z\n",
        "tplib: line 4: unknown name\n",
    ),
    (
        "kind ineqs\nsemiring max\nvars x\nmax(x, z",
        "tplib: line 4: unknown name\n",
    ),
    (
        "kind ineqs\nsemiring max\nvars x\nX <= 3\n",
        "tplib: line 4: unknown name\n",
    ),
    (
        "kind ineqs\nsemiring max\nvars x\nx <= 3\n\n# z\n\nz <= 3\n",
        "tplib: line 8: unknown name\n",
    ),
    (
        "kind ineqs\nsemiring min\nvars x\nx >= 1\nx >= min(x, 3, y)\n",
        "tplib: line 5: unknown name\n",
    ),
    (
        "kind ineqs\nsemiring bool\nvars x y\nx => or(y, z)\n",
        "tplib: line 4: unknown name\n",
    ),
    (
        "kind ineqs\nsemiring max\nvars\nx <= 3\n",
        "tplib: line 4: unknown name\n",
    ),
    (
        "kind ineqs\nsemiring max\nvars x\naaaaaaaaaaaaaaaaaaaaaaaaaaaaaaaaa <= x\n",
        "tplib: line 4, column 1: syntax\n",
    ),
    (
        "kind ineqs\nsemiring max\nvars x\nx <= aaaaaaaaaaaaaaaaaaaaaaaaaaaaaaaaa\n",
        "tplib: line 4, column 6: syntax\n",
    ),
    (
        "kind ineqs\nsemiring max\nvars x\naaaaaaaaaaaaaaaaaaaaaaaaaaaaaaaa <= x\n",
        "tplib: line 4: unknown name\n",
    ),
    (
        "kind ineqs\nsemiring max\nvars x\npoint <= x\n",
        "tplib: line 4, column 1: syntax\n",
    ),
    (
        "kind ineqs\nsemiring max\nvars x\nx <= vars\n",
        "tplib: line 4, column 6: syntax\n",
    ),
    (
        "kind ineqs\nsemiring max\nvars x\nat [0, 0]\n",
        "tplib: line 4, column 1: syntax\n",
    ),
    (
        "kind ineqs\nsemiring max\nvars x\nand\n",
        "tplib: line 4, column 1: syntax\n",
    ),
    (
        "kind ineqs\nsemiring max\nvars x\nmax(x, inv) <= 3\n",
        "tplib: line 4, column 8: syntax\n",
    ),
    (
        "kind ineqs\nsemiring bool\nvars x y\nx => else\n",
        "tplib: line 4, column 6: syntax\n",
    ),
    (
        "kind ineqs\nsemiring max\nvars x\nfalse <= x\n",
        "tplib: line 4, column 1: syntax\n",
    ),
    (
        "kind ineqs\nsemiring max\nvars x\nx <= 1099511627777\n",
        "tplib: line 4: number out of range\n",
    ),
    (
        "kind ineqs\nsemiring max\nvars x\nx <= - 1099511627777\n",
        "tplib: line 4: number out of range\n",
    ),
    (
        "kind ineqs\nsemiring max\nvars x\n1099511627777\n",
        "tplib: line 4: number out of range\n",
    ),
    (
        "kind ineqs\nsemiring max\nvars x\nx + 1099511627777 <= 3\n",
        "tplib: line 4: number out of range\n",
    ),
    (
        "kind ineqs\nsemiring max\nvars x\nx - 1099511627777 <= 3\n",
        "tplib: line 4: number out of range\n",
    ),
    (
        "kind ineqs\nsemiring max\nvars x\nmax(x, 3, x - 99999999999999999999",
        "tplib: line 4: number out of range\n",
    ),
    (
        "kind ineqs\nsemiring min\nvars x\nx <= 3\nx >= 18446744073709551617\n",
        "tplib: line 5: number out of range\n",
    ),
    (
        "kind ineqs\nsemiring max\nvars x\nx <= 3 $\n",
        "tplib: line 4, column 8: syntax\n",
    ),
    (
        "kind ineqs\nsemiring max\nvars x\nx <= $3\n",
        "tplib: line 4, column 6: syntax\n",
    ),
    (
        "kind ineqs\nsemiring max\nvars x\nx é<= 3\n",
        "tplib: line 4, column 3: syntax\n",
    ),
    (
        "kind ineqs\nsemiring max\nvars x\nx <= 3\n@",
        "tplib: line 5, column 1: syntax\n",
    ),
    (
        "kind ineqs\nsemiring max\nvars x\nx & 3\n",
        "tplib: line 4, column 3: syntax\n",
    ),
    (
        "kind ineqs\nsemiring max\nvars x\nx <= 3\nz <= 3\nx x\n",
        "tplib: line 5: unknown name\n",
    ),
];

#[test]
fn files_of_inequalities_at_fault(rt: HostRuntime) -> Result<(), Fail> {
    each_ends_so(rt.alloc(), "ext", 3, &FAULTS)?;
    Ok(())
}
