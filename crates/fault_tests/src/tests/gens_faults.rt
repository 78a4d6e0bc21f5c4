//! Files of generators, at fault.
use run_examples::each_ends_so;
use std::test::Fail;

// Headers that are at fault, and the line that `reduce` writes to the sink of errors.
const HEADERS: [(&str, &str); 54] = [
    ("", "tplib: line 1, column 1: syntax\n"),
    ("\n", "tplib: line 2, column 1: syntax\n"),
    ("# nothing", "tplib: line 2, column 1: syntax\n"),
    ("# nothing\n\t \r\n", "tplib: line 3, column 1: syntax\n"),
    ("kind", "tplib: line 1, column 5: syntax\n"),
    ("kind  # none", "tplib: line 1, column 13: syntax\n"),
    ("kind\r\n", "tplib: line 1, column 6: syntax\n"),
    ("kind gens", "tplib: line 2, column 1: syntax\n"),
    ("kind gens\n", "tplib: line 2, column 1: syntax\n"),
    ("KIND gens\n", "tplib: line 1, column 1: syntax\n"),
    ("kinds gens\n", "tplib: line 1, column 1: syntax\n"),
    ("kindgens\n", "tplib: line 1, column 1: syntax\n"),
    ("kind points\n", "tplib: line 1, column 6: syntax\n"),
    ("kind 1\n", "tplib: line 1, column 6: syntax\n"),
    ("kind [\n", "tplib: line 1, column 6: syntax\n"),
    ("kind ineqs", "tplib: line 1: wrong kind\n"),
    ("kind pair\n", "tplib: line 1: wrong kind\n"),
    ("kind at at\n", "tplib: line 1: wrong kind\n"),
    ("# kind gens\n\nkind ineqs\n", "tplib: line 3: wrong kind\n"),
    ("kind gens gens\n", "tplib: line 1, column 11: syntax\n"),
    ("kind gens 1\n", "tplib: line 1, column 11: syntax\n"),
    ("kind gens\nvars x\n", "tplib: line 2, column 1: syntax\n"),
    ("kind gens\nsemiring\n", "tplib: line 2, column 9: syntax\n"),
    (
        "kind gens\nsemiring plus\n",
        "tplib: line 2, column 10: syntax\n",
    ),
    (
        "kind gens\nsemiring Max\n",
        "tplib: line 2, column 10: syntax\n",
    ),
    (
        "kind gens\nsemiring true\n",
        "tplib: line 2, column 10: syntax\n",
    ),
    (
        "kind gens\nsemiring max min\n",
        "tplib: line 2, column 14: syntax\n",
    ),
    (
        "kind gens\nsemiring max\n",
        "tplib: line 3, column 1: syntax\n",
    ),
    (
        "kind gens\nsemiring max\n\n# no names\n",
        "tplib: line 5, column 1: syntax\n",
    ),
    (
        "kind gens\nsemiring max\nvar x\n",
        "tplib: line 3, column 1: syntax\n",
    ),
    (
        "kind gens\nsemiring max\npoint []\n",
        "tplib: line 3, column 1: syntax\n",
    ),
    (
        "kind gens\nsemiring max\nvars x x\n",
        "tplib: line 3: duplicate name\n",
    ),
    (
        "kind gens\nsemiring max\n\nvars x y z x\n",
        "tplib: line 4: duplicate name\n",
    ),
    (
        "kind gens\nsemiring max\nvars x x\npoint\n",
        "tplib: line 3: duplicate name\n",
    ),
    (
        "kind gens\nsemiring max\nvars x x $\n",
        "tplib: line 3: duplicate name\n",
    ),
    (
        "kind gens\nsemiring max\nvars x 1\n",
        "tplib: line 3, column 8: syntax\n",
    ),
    (
        "kind gens\nsemiring max\nvars x1 1x\n",
        "tplib: line 3, column 9: syntax\n",
    ),
    (
        "kind gens\nsemiring max\nvars x, y\n",
        "tplib: line 3, column 7: syntax\n",
    ),
    (
        "kind gens\nsemiring max\nvars max\n",
        "tplib: line 3, column 6: syntax\n",
    ),
    (
        "kind gens\nsemiring max\nvars x point\n",
        "tplib: line 3, column 8: syntax\n",
    ),
    (
        "kind gens\nsemiring max\nvars x oo\n",
        "tplib: line 3, column 8: syntax\n",
    ),
    (
        "kind gens\nsemiring max\nvars choices x\n",
        "tplib: line 3, column 6: syntax\n",
    ),
    (
        "kind gens\nsemiring max\nvars x\tand\n",
        "tplib: line 3, column 8: syntax\n",
    ),
    (
        "kind gens\nsemiring max\nvars é\n",
        "tplib: line 3, column 6: syntax\n",
    ),
    (
        "kind gens\nsemiring max\nvars xé\n",
        "tplib: line 3, column 7: syntax\n",
    ),
    (
        "kind gens\nsemiring max\nvars x.y\n",
        "tplib: line 3, column 7: syntax\n",
    ),
    (
        "kind gens\nsemiring max\nvars aaaaaaaaaaaaaaaaaaaaaaaaaaaaaaaaa\n",
        "tplib: line 3, column 6: syntax\n",
    ),
    (
        "kind gens\nsemiring max\nvars x aaaaaaaaaaaaaaaaaaaaaaaaaaaaaaaaa x\n",
        "tplib: line 3, column 8: syntax\n",
    ),
    (
        "aaaaaaaaaaaaaaaaaaaaaaaaaaaaaaaaa\n",
        "tplib: line 1, column 1: syntax\n",
    ),
    (
        "kind gens\nsemiring max\nvars v1 v2 v3 v4 v5 v6 v7 v8 v9 v10 v11 v12 v13 v14 v15 v16 v17 v18 v19 v20 v21 v22 v23 v24 v25 v26 v27 v28 v29 v30 v31 v32 v33 v34 v35 v36 v37 v38 v39 v40 v41 v42 v43 v44 v45 v46 v47 v48 v49 v50 v51 v52 v53 v54 v55 v56 v57 v58 v59 v60 v61 v62 v63 v64\n",
        "tplib: line 3: too many variables\n",
    ),
    (
        "kind gens\nsemiring max\nvars v1 v2 v3 v4 v5 v6 v7 v8 v9 v10 v11 v12 v13 v14 v15 v16 v17 v18 v19 v20 v21 v22 v23 v24 v25 v26 v27 v28 v29 v30 v31 v32 v33 v34 v35 v36 v37 v38 v39 v40 v41 v42 v43 v44 v45 v46 v47 v48 v49 v50 v51 v52 v53 v54 v55 v56 v57 v58 v59 v60 v61 v62 v63 v1\n",
        "tplib: line 3: too many variables\n",
    ),
    (
        "kind gens\nsemiring max\nvars v1 v2 v3 v4 v5 v6 v7 v8 v9 v10 v11 v12 v13 v14 v15 v16 v17 v18 v19 v20 v21 v22 v23 v24 v25 v26 v27 v28 v29 v30 v31 v32 v33 v34 v35 v36 v37 v38 v39 v40 v41 v42 v43 v44 v45 v46 v47 v48 v49 v50 v51 v52 v53 v54 v55 v56 v57 v58 v59 v60 v61 v62 v63 ray\n",
        "tplib: line 3, column 249: syntax\n",
    ),
    (
        "kind gens\nsemiring max\nvars v1 v2 v3 v4 v5 v6 v7 v8 v9 v10 v11 v12 v13 v14 v15 v16 v17 v18 v19 v20 v21 v22 v23 v24 v25 v26 v27 v28 v29 v30 v31 v32 v33 v34 v35 v36 v37 v38 v39 v40 v41 v42 v43 v44 v45 v46 v47 v48 v49 v50 v51 v52 v53 v54 v55 v56 v57 v58 v59 v60 v61 v62 v63 aaaaaaaaaaaaaaaaaaaaaaaaaaaaaaaaa\n",
        "tplib: line 3, column 249: syntax\n",
    ),
    (
        "kind gens\nsemiring max\nvars v1 v2 v3 v4 v5 v6 v7 v8 v9 v10 v11 v12 v13 v14 v15 v16 v17 v18 v19 v20 v21 v22 v23 v24 v25 v26 v27 v28 v29 v30 v31 v32 v33 v34 v35 v36 v37 v38 v39 v40 v41 v42 v43 v44 v45 v46 v47 v48 v49 v50 v51 v52 v53 v54 v55 v56 v57 v58 v59 v60 v61 v62 v1 w\n",
        "tplib: line 3: duplicate name\n",
    ),
];

// Faults behind the header.
const BODIES: [(&str, &str); 71] = [
    (
        "kind gens\nsemiring max\nvars x\npoints [0]\n",
        "tplib: line 4, column 1: syntax\n",
    ),
    (
        "kind gens\nsemiring max\nvars x\nand\n",
        "tplib: line 4, column 1: syntax\n",
    ),
    (
        "kind gens\nsemiring max\nvars x\nat [0, 0]\n",
        "tplib: line 4, column 1: syntax\n",
    ),
    (
        "kind gens\nsemiring max\nvars x\n[0]\n",
        "tplib: line 4, column 1: syntax\n",
    ),
    (
        "kind gens\nsemiring max\nvars x\nx <= 3\n",
        "tplib: line 4, column 1: syntax\n",
    ),
    (
        "kind gens\nsemiring max\nvars x\npoint [0]\n\nvars x\n",
        "tplib: line 6, column 1: syntax\n",
    ),
    (
        "kind gens\nsemiring max\nvars x\npoint\n",
        "tplib: line 4, column 6: syntax\n",
    ),
    (
        "kind gens\nsemiring max\nvars x\npoint",
        "tplib: line 4, column 6: syntax\n",
    ),
    (
        "kind gens\nsemiring max\nvars x\npoint  # none\r\n",
        "tplib: line 4, column 15: syntax\n",
    ),
    (
        "kind gens\nsemiring max\nvars x\nray [\n",
        "tplib: line 4, column 6: syntax\n",
    ),
    (
        "kind gens\nsemiring max\nvars x\npoint [0\n",
        "tplib: line 4, column 9: syntax\n",
    ),
    (
        "kind gens\nsemiring max\nvars x\npoint [0\n]\n",
        "tplib: line 4, column 9: syntax\n",
    ),
    (
        "kind gens\nsemiring max\nvars x\npoint [-\n",
        "tplib: line 4, column 9: syntax\n",
    ),
    (
        "kind gens\nsemiring max\nvars x\npoint [0] [1]\n",
        "tplib: line 4, column 11: syntax\n",
    ),
    (
        "kind gens\nsemiring max\nvars x\npoint [0];\n",
        "tplib: line 4, column 10: syntax\n",
    ),
    (
        "kind gens\nsemiring max\nvars x\npoint [0] point [1]\n",
        "tplib: line 4, column 11: syntax\n",
    ),
    (
        "kind gens\nsemiring max\nvars x\npoint 0\n",
        "tplib: line 4, column 7: syntax\n",
    ),
    (
        "kind gens\nsemiring max\nvars x\npoint (0)\n",
        "tplib: line 4, column 7: syntax\n",
    ),
    (
        "kind gens\nsemiring max\nvars x\npoint []\n",
        "tplib: line 4, column 8: syntax\n",
    ),
    (
        "kind gens\nsemiring max\nvars x\npoint [,0]\n",
        "tplib: line 4, column 8: syntax\n",
    ),
    (
        "kind gens\nsemiring max\nvars x\npoint [0 1]\n",
        "tplib: line 4, column 10: syntax\n",
    ),
    (
        "kind gens\nsemiring max\nvars x\npoint [0, 1]\n",
        "tplib: line 4, column 9: syntax\n",
    ),
    (
        "kind gens\nsemiring max\nvars x\npoint [0,]\n",
        "tplib: line 4, column 9: syntax\n",
    ),
    (
        "kind gens\nsemiring max\nvars x y\npoint [0]\n",
        "tplib: line 4, column 9: syntax\n",
    ),
    (
        "kind gens\nsemiring max\nvars x y\npoint [0,]\n",
        "tplib: line 4, column 10: syntax\n",
    ),
    (
        "kind gens\nsemiring max\nvars x y\npoint [0 0]\n",
        "tplib: line 4, column 10: syntax\n",
    ),
    (
        "kind gens\nsemiring max\nvars x y\npoint [0, 1, 2]\n",
        "tplib: line 4, column 12: syntax\n",
    ),
    (
        "kind gens\nsemiring max\nvars x y\nray [0, 1]\nray [0]\n",
        "tplib: line 5, column 7: syntax\n",
    ),
    (
        "kind gens\nsemiring max\nvars x\npoint [x]\n",
        "tplib: line 4, column 8: syntax\n",
    ),
    (
        "kind gens\nsemiring max\nvars x\npoint [oo]\n",
        "tplib: line 4, column 8: syntax\n",
    ),
    (
        "kind gens\nsemiring max\nvars x\npoint [+5]\n",
        "tplib: line 4, column 8: syntax\n",
    ),
    (
        "kind gens\nsemiring max\nvars x\npoint [--5]\n",
        "tplib: line 4, column 9: syntax\n",
    ),
    (
        "kind gens\nsemiring max\nvars x\npoint [-]\n",
        "tplib: line 4, column 9: syntax\n",
    ),
    (
        "kind gens\nsemiring max\nvars x\npoint [-x]\n",
        "tplib: line 4, column 9: syntax\n",
    ),
    (
        "kind gens\nsemiring max\nvars x\npoint [true]\n",
        "tplib: line 4, column 8: syntax\n",
    ),
    (
        "kind gens\nsemiring max\nvars x\npoint [0x]\n",
        "tplib: line 4, column 9: syntax\n",
    ),
    (
        "kind gens\nsemiring max\nvars x\npoint [1.5]\n",
        "tplib: line 4, column 9: syntax\n",
    ),
    (
        "kind gens\nsemiring max\nvars x\n\tpoint\t[x]\n",
        "tplib: line 4, column 9: syntax\n",
    ),
    (
        "kind gens\nsemiring max\nvars x\npoint [0] $\n",
        "tplib: line 4, column 11: syntax\n",
    ),
    (
        "kind gens\nsemiring max\nvars x\npoint [0]é\n",
        "tplib: line 4, column 10: syntax\n",
    ),
    (
        "kind gens\nsemiring max\nvars x\npoint [0] & # &&\n",
        "tplib: line 4, column 11: syntax\n",
    ),
    (
        "kind gens\nsemiring max\nvars x\npoint [0] && \n",
        "tplib: line 4, column 11: syntax\n",
    ),
    (
        "kind gens\nsemiring min\nvars x\npoint [-oo]\n",
        "tplib: line 4, column 9: syntax\n",
    ),
    (
        "kind gens\nsemiring min\nvars x\npoint [- oo]\n",
        "tplib: line 4, column 10: syntax\n",
    ),
    (
        "kind gens\nsemiring min\nvars x\npoint [false]\n",
        "tplib: line 4, column 8: syntax\n",
    ),
    (
        "kind gens\nsemiring min\nvars x\npoint [oo1]\n",
        "tplib: line 4, column 8: syntax\n",
    ),
    (
        "kind gens\nsemiring bool\nvars x\npoint [0]\n",
        "tplib: line 4, column 8: syntax\n",
    ),
    (
        "kind gens\nsemiring bool\nvars x\npoint [1]\n",
        "tplib: line 4, column 8: syntax\n",
    ),
    (
        "kind gens\nsemiring bool\nvars x\npoint [oo]\n",
        "tplib: line 4, column 8: syntax\n",
    ),
    (
        "kind gens\nsemiring bool\nvars x\npoint [-oo]\n",
        "tplib: line 4, column 8: syntax\n",
    ),
    (
        "kind gens\nsemiring bool\nvars x\npoint [True]\n",
        "tplib: line 4, column 8: syntax\n",
    ),
    (
        "kind gens\nsemiring bool\nvars x\npoint [max]\n",
        "tplib: line 4, column 8: syntax\n",
    ),
    (
        "kind gens\nsemiring bool\nvars x\npoint [true, false]\n",
        "tplib: line 4, column 12: syntax\n",
    ),
    (
        "kind gens\nsemiring max\nvars\npoint [0]\n",
        "tplib: line 4, column 8: syntax\n",
    ),
    (
        "kind gens\nsemiring max\nvars\nray [\n",
        "tplib: line 4, column 6: syntax\n",
    ),
    (
        "kind gens\nsemiring min\nvars\nray [,]\n",
        "tplib: line 4, column 6: syntax\n",
    ),
    (
        "kind gens\nsemiring bool\nvars\npoint [99999999999999]\n",
        "tplib: line 4, column 8: syntax\n",
    ),
    (
        "kind gens\nsemiring max\nvars x\npoint [1099511627777]\n",
        "tplib: line 4: number out of range\n",
    ),
    (
        "kind gens\nsemiring max\nvars x\npoint [-1099511627777]\n",
        "tplib: line 4: number out of range\n",
    ),
    (
        "kind gens\nsemiring max\nvars x\npoint [1099511627777",
        "tplib: line 4: number out of range\n",
    ),
    (
        "kind gens\nsemiring max\nvars x\nray [99999999999999999999999999999999999999999999]\n",
        "tplib: line 4: number out of range\n",
    ),
    (
        "kind gens\nsemiring max\nvars x\npoint [18446744073709551616]\n",
        "tplib: line 4: number out of range\n",
    ),
    (
        "kind gens\nsemiring max\nvars x\npoint [0] 1099511627777\n",
        "tplib: line 4, column 11: syntax\n",
    ),
    (
        "kind gens\nsemiring max\nvars x\npoint [0, 1099511627777]\n",
        "tplib: line 4, column 9: syntax\n",
    ),
    (
        "kind gens\nsemiring max\nvars x y\npoint [0, 1099511627777] $\n",
        "tplib: line 4: number out of range\n",
    ),
    (
        "kind gens\nsemiring min\nvars x\nray [1099511627777]\n",
        "tplib: line 4: number out of range\n",
    ),
    (
        "kind gens\nsemiring min\nvars x\n# one\npoint [0]\npoint [- 1099511627777]\n",
        "tplib: line 6: number out of range\n",
    ),
    (
        "kind gens\nsemiring max\nvars x\npoint [0]\npoint [x]\npoint [1099511627777]\n",
        "tplib: line 5, column 8: syntax\n",
    ),
    (
        "kind gens\nsemiring max\nvars x\npoint [0]\npoint [1099511627777]\npoint [x]\n",
        "tplib: line 5: number out of range\n",
    ),
    (
        "kind gens\nsemiring max\nvars x\n$\n",
        "tplib: line 4, column 1: syntax\n",
    ),
    (
        "kind gens\nsemiring max\nvars x\npoint [0]\n\x01",
        "tplib: line 5, column 1: syntax\n",
    ),
];

#[test]
fn headers_of_generators_at_fault(rt: HostRuntime) -> Result<(), Fail> {
    each_ends_so(rt.alloc(), "reduce", 3, &HEADERS)?;
    Ok(())
}

#[test]
fn rows_of_generators_at_fault(rt: HostRuntime) -> Result<(), Fail> {
    each_ends_so(rt.alloc(), "reduce", 3, &BODIES)?;
    Ok(())
}
