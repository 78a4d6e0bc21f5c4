//! Answers of `reduce`.
use run_examples::{each_ends_so, ended, ends_so};
use std::test::Fail;

// Files of generators, and the file that `reduce` writes.
const ANSWERS: [(&str, &str); 34] = [
    (
        "kind gens\nsemiring max\nvars x\npoint [0]\npoint [1]\npoint [2]\n",
        "kind gens\nsemiring max\nvars x\npoint [0]\npoint [2]\n",
    ),
    (
        "kind gens\nsemiring max\nvars x\n",
        "kind gens\nsemiring max\nvars x\n",
    ),
    (
        "kind gens\nsemiring max\nvars x",
        "kind gens\nsemiring max\nvars x\n",
    ),
    (
        "kind gens\nsemiring max\nvars x\nray [3]\nray [-oo]\n",
        "kind gens\nsemiring max\nvars x\nray [0]\n",
    ),
    (
        "kind gens\nsemiring max\nvars x\nray [-oo]\nray [-oo]\n",
        "kind gens\nsemiring max\nvars x\n",
    ),
    (
        "kind gens\nsemiring max\nvars x\npoint [-oo]\nray [-oo]\n",
        "kind gens\nsemiring max\nvars x\npoint [-oo]\n",
    ),
    (
        "kind gens\nsemiring max\nvars x\npoint [1099511627776]\nray [-1099511627776]\n",
        "kind gens\nsemiring max\nvars x\nray [0]\npoint [1099511627776]\n",
    ),
    (
        "kind gens\nsemiring max\nvars x\npoint [-1099511627776]\npoint [1099511627776]\n",
        "kind gens\nsemiring max\nvars x\npoint [-1099511627776]\npoint [1099511627776]\n",
    ),
    (
        "kind gens\nsemiring max\nvars x\npoint [0]\npoint [0]\n",
        "kind gens\nsemiring max\nvars x\npoint [0]\n",
    ),
    (
        "kind gens\nsemiring max\nvars x\npoint [2]\npoint [0]\npoint [1]",
        "kind gens\nsemiring max\nvars x\npoint [0]\npoint [2]\n",
    ),
    (
        "kind gens\nsemiring max\nvars x\npoint [- oo]\npoint[-\t5]\n",
        "kind gens\nsemiring max\nvars x\npoint [-oo]\npoint [-5]\n",
    ),
    (
        "kind gens\nsemiring max\nvars x\npoint [-0]\n",
        "kind gens\nsemiring max\nvars x\npoint [0]\n",
    ),
    (
        "kind gens\nsemiring max\nvars x\npoint [007]\nray [-00000000000000000000000000000000001099511627776]\n",
        "kind gens\nsemiring max\nvars x\nray [0]\npoint [7]\n",
    ),
    (
        "kind gens\r\nsemiring max\r\nvars x\r\npoint [0]\r\n",
        "kind gens\nsemiring max\nvars x\npoint [0]\n",
    ),
    (
        "\n# a file\n\tkind\tgens # of points\n\n semiring  max\nvars\tx#y\n\n  point[0]  # the first\n#point [9]\n\r\npoint [ 1 ]\n# end",
        "kind gens\nsemiring max\nvars x\npoint [0]\npoint [1]\n",
    ),
    (
        "kind gens\nsemiring max\nvars x # é $ \x01\npoint [0]#\n",
        "kind gens\nsemiring max\nvars x\npoint [0]\n",
    ),
    (
        "kind gens\nsemiring max\nvars\npoint []\nray []\npoint []\n",
        "kind gens\nsemiring max\nvars\npoint []\n",
    ),
    (
        "kind gens\nsemiring min\nvars # none\nray []\n",
        "kind gens\nsemiring min\nvars\n",
    ),
    (
        "kind gens\nsemiring bool\nvars\n",
        "kind gens\nsemiring bool\nvars\n",
    ),
    (
        "kind gens\nsemiring bool\nvars\npoint[ ]\n",
        "kind gens\nsemiring bool\nvars\npoint []\n",
    ),
    (
        "kind gens\nsemiring max\nvars aaaaaaaaaaaaaaaaaaaaaaaaaaaaaaaa\npoint [1]\n",
        "kind gens\nsemiring max\nvars aaaaaaaaaaaaaaaaaaaaaaaaaaaaaaaa\npoint [1]\n",
    ),
    (
        "kind gens\nsemiring max\nvars _ _1 Kind kind gens pair ineqs semiring analyze reduce bool Max x0\n",
        "kind gens\nsemiring max\nvars _ _1 Kind kind gens pair ineqs semiring analyze reduce bool Max x0\n",
    ),
    (
        "kind gens\nsemiring max\nvars v1 v2 v3 v4 v5 v6 v7 v8 v9 v10 v11 v12 v13 v14 v15 v16 v17 v18 v19 v20 v21 v22 v23 v24 v25 v26 v27 v28 v29 v30 v31 v32 v33 v34 v35 v36 v37 v38 v39 v40 v41 v42 v43 v44 v45 v46 v47 v48 v49 v50 v51 v52 v53 v54 v55 v56 v57 v58 v59 v60 v61 v62 v63\n",
        "kind gens\nsemiring max\nvars v1 v2 v3 v4 v5 v6 v7 v8 v9 v10 v11 v12 v13 v14 v15 v16 v17 v18 v19 v20 v21 v22 v23 v24 v25 v26 v27 v28 v29 v30 v31 v32 v33 v34 v35 v36 v37 v38 v39 v40 v41 v42 v43 v44 v45 v46 v47 v48 v49 v50 v51 v52 v53 v54 v55 v56 v57 v58 v59 v60 v61 v62 v63\n",
    ),
    (
        "kind gens\nsemiring max\nvars v1 v2 v3 v4 v5 v6 v7 v8 v9 v10 v11 v12 v13 v14 v15 v16 v17 v18 v19 v20 v21 v22 v23 v24 v25 v26 v27 v28 v29 v30 v31 v32 v33 v34 v35 v36 v37 v38 v39 v40 v41 v42 v43 v44 v45 v46 v47 v48 v49 v50 v51 v52 v53 v54 v55 v56 v57 v58 v59 v60 v61 v62 v63\nray [-oo, -oo, -oo, -oo, -oo, -oo, -oo, -oo, -oo, -oo, -oo, -oo, -oo, -oo, -oo, -oo, -oo, -oo, -oo, -oo, -oo, -oo, -oo, -oo, -oo, -oo, -oo, -oo, -oo, -oo, -oo, -oo, -oo, -oo, -oo, -oo, -oo, -oo, -oo, -oo, -oo, -oo, -oo, -oo, -oo, -oo, -oo, -oo, -oo, -oo, -oo, -oo, -oo, -oo, -oo, -oo, -oo, -oo, -oo, -oo, -oo, -oo, 7]\n",
        "kind gens\nsemiring max\nvars v1 v2 v3 v4 v5 v6 v7 v8 v9 v10 v11 v12 v13 v14 v15 v16 v17 v18 v19 v20 v21 v22 v23 v24 v25 v26 v27 v28 v29 v30 v31 v32 v33 v34 v35 v36 v37 v38 v39 v40 v41 v42 v43 v44 v45 v46 v47 v48 v49 v50 v51 v52 v53 v54 v55 v56 v57 v58 v59 v60 v61 v62 v63\nray [-oo, -oo, -oo, -oo, -oo, -oo, -oo, -oo, -oo, -oo, -oo, -oo, -oo, -oo, -oo, -oo, -oo, -oo, -oo, -oo, -oo, -oo, -oo, -oo, -oo, -oo, -oo, -oo, -oo, -oo, -oo, -oo, -oo, -oo, -oo, -oo, -oo, -oo, -oo, -oo, -oo, -oo, -oo, -oo, -oo, -oo, -oo, -oo, -oo, -oo, -oo, -oo, -oo, -oo, -oo, -oo, -oo, -oo, -oo, -oo, -oo, -oo, 0]\n",
    ),
    (
        "kind gens\nsemiring max\nvars x y\nray [5, 7]\nray [-oo, 3]\n",
        "kind gens\nsemiring max\nvars x y\nray [-oo, 0]\nray [0, 2]\n",
    ),
    (
        "kind gens\nsemiring max\nvars x y\npoint [0, 0]\npoint [2, 1]\npoint [1, 1]\npoint [3, -oo]\nray [-oo, 4]\n",
        "kind gens\nsemiring max\nvars x y\nray [-oo, 0]\npoint [0, 0]\npoint [3, -oo]\n",
    ),
    (
        "kind gens\nsemiring min\nvars x y\npoint [0, oo]\nray [5, -2]\npoint [1, oo]\nray [6, -1]\n",
        "kind gens\nsemiring min\nvars x y\nray [0, -7]\npoint [1, oo]\npoint [0, oo]\n",
    ),
    (
        "kind gens\nsemiring min\nvars x\npoint [0]\npoint [1]\npoint [2]\n",
        "kind gens\nsemiring min\nvars x\npoint [2]\npoint [0]\n",
    ),
    (
        "kind gens\nsemiring min\nvars x\nray [3]\nray [oo]\n",
        "kind gens\nsemiring min\nvars x\nray [0]\n",
    ),
    (
        "kind gens\nsemiring min\nvars x\npoint [oo]\npoint [-0]\npoint [00]\n",
        "kind gens\nsemiring min\nvars x\npoint [oo]\npoint [0]\n",
    ),
    (
        "kind gens\nsemiring min\nvars x\npoint [-1099511627776]\npoint [1099511627776]\n",
        "kind gens\nsemiring min\nvars x\npoint [1099511627776]\npoint [-1099511627776]\n",
    ),
    (
        "kind gens\nsemiring bool\nvars x y\nray [true, true]\nray [false, true]\nray [true, false]\n",
        "kind gens\nsemiring bool\nvars x y\nray [false, true]\nray [true, false]\n",
    ),
    (
        "kind gens\nsemiring bool\nvars x y\npoint [true, false]\npoint [false, false]\nray[true,false]\nray [false, false]\n",
        "kind gens\nsemiring bool\nvars x y\nray [true, false]\npoint [false, false]\n",
    ),
    (
        "kind gens\nsemiring bool\nvars x\npoint [true]\npoint [false]\n",
        "kind gens\nsemiring bool\nvars x\npoint [false]\npoint [true]\n",
    ),
];

#[test]
fn files_of_generators_are_reduced(rt: HostRuntime) -> Result<(), Fail> {
    each_ends_so(rt.alloc(), "reduce", 0, &ANSWERS)?;
    Ok(())
}

#[test]
fn what_reduce_writes_is_read_back_as_it_stands(rt: HostRuntime) -> Result<(), Fail> {
    let alloc = rt.alloc();
    for (_, out) in &ANSWERS {
        ends_so(alloc, "again", "reduce", out.as_bytes(), ended(0, out))?;
    }
    Ok(())
}
