//! Answers of `ext`.
use run_examples::each_ends_so;
use std::test::Fail;

// Files of inequalities, and the file of generators that `ext` writes.
const ANSWERS: [(&str, &str); 53] = [
    (
        "kind ineqs\nsemiring max\nvars x\nx <= 3\n",
        "kind gens\nsemiring max\nvars x\npoint [-oo]\npoint [3]\n",
    ),
    (
        "kind ineqs\nsemiring max\nvars x\nx <= 3\nx <= 3\nx + 2 <= 5\n",
        "kind gens\nsemiring max\nvars x\npoint [-oo]\npoint [3]\n",
    ),
    (
        "kind ineqs\nsemiring max\nvars x\n3 >= x",
        "kind gens\nsemiring max\nvars x\npoint [-oo]\npoint [3]\n",
    ),
    (
        "kind ineqs\nsemiring max\nvars x\n\tmax(x)\t<=\r 3 # three\r\n\n",
        "kind gens\nsemiring max\nvars x\npoint [-oo]\npoint [3]\n",
    ),
    (
        "kind ineqs\nsemiring max\nvars x\nx+2<=5\n",
        "kind gens\nsemiring max\nvars x\npoint [-oo]\npoint [3]\n",
    ),
    (
        "kind ineqs\nsemiring max\nvars x\nx - 2 <= 1\n",
        "kind gens\nsemiring max\nvars x\npoint [-oo]\npoint [3]\n",
    ),
    (
        "kind ineqs\nsemiring max\nvars x\nx + 0 <= max(3)\n",
        "kind gens\nsemiring max\nvars x\npoint [-oo]\npoint [3]\n",
    ),
    (
        "kind ineqs\nsemiring max\nvars x\nx - 0 <= max(3, 2, -oo)\n",
        "kind gens\nsemiring max\nvars x\npoint [-oo]\npoint [3]\n",
    ),
    (
        "kind ineqs\nsemiring max\nvars x\nmax(x, x + 2) <= 5\n",
        "kind gens\nsemiring max\nvars x\npoint [-oo]\npoint [3]\n",
    ),
    (
        "kind ineqs\nsemiring max\nvars x\nmax(x + 1, x, -oo) <= 4\n",
        "kind gens\nsemiring max\nvars x\npoint [-oo]\npoint [3]\n",
    ),
    (
        "kind ineqs\nsemiring max\nvars x\nx <= 003\n",
        "kind gens\nsemiring max\nvars x\npoint [-oo]\npoint [3]\n",
    ),
    (
        "kind ineqs\nsemiring max\nvars x\nmax(5, x) >= x + 2\n3 >= x\n",
        "kind gens\nsemiring max\nvars x\npoint [-oo]\npoint [3]\n",
    ),
    (
        "kind ineqs\nsemiring max\nvars x\nx <= 3\n# x <= 2\n",
        "kind gens\nsemiring max\nvars x\npoint [-oo]\npoint [3]\n",
    ),
    (
        "kind ineqs\nsemiring max\nvars x y\nx <= y\n",
        "kind gens\nsemiring max\nvars x y\nray [-oo, 0]\nray [0, 0]\npoint [-oo, -oo]\n",
    ),
    (
        "kind ineqs\nsemiring max\nvars x y\ny >= x",
        "kind gens\nsemiring max\nvars x y\nray [-oo, 0]\nray [0, 0]\npoint [-oo, -oo]\n",
    ),
    (
        "kind ineqs\nsemiring max\nvars x\n0 <= x\nx <= -1\n",
        "kind gens\nsemiring max\nvars x\n",
    ),
    (
        "kind ineqs\nsemiring max\nvars x\n-oo <= -oo\n",
        "kind gens\nsemiring max\nvars x\nray [0]\npoint [-oo]\n",
    ),
    (
        "kind ineqs\nsemiring max\nvars x\n",
        "kind gens\nsemiring max\nvars x\nray [0]\npoint [-oo]\n",
    ),
    (
        "kind ineqs\nsemiring max\nvars x\n\n# none\n",
        "kind gens\nsemiring max\nvars x\nray [0]\npoint [-oo]\n",
    ),
    (
        "kind ineqs\nsemiring max\nvars x\n-oo <= x\n",
        "kind gens\nsemiring max\nvars x\nray [0]\npoint [-oo]\n",
    ),
    (
        "kind ineqs\nsemiring max\nvars x\nx >= - oo\n",
        "kind gens\nsemiring max\nvars x\nray [0]\npoint [-oo]\n",
    ),
    (
        "kind ineqs\nsemiring max\nvars x\nx <= x\n",
        "kind gens\nsemiring max\nvars x\nray [0]\npoint [-oo]\n",
    ),
    (
        "kind ineqs\nsemiring max\nvars x\nx <= max(x, 3)\n",
        "kind gens\nsemiring max\nvars x\nray [0]\npoint [-oo]\n",
    ),
    (
        "kind ineqs\nsemiring max\nvars x\n-oo >= -oo",
        "kind gens\nsemiring max\nvars x\nray [0]\npoint [-oo]\n",
    ),
    (
        "kind ineqs\nsemiring max\nvars x",
        "kind gens\nsemiring max\nvars x\nray [0]\npoint [-oo]\n",
    ),
    (
        "kind ineqs\nsemiring max\nvars x\nx <= 1099511627776\n",
        "kind gens\nsemiring max\nvars x\npoint [-oo]\npoint [1099511627776]\n",
    ),
    (
        "kind ineqs\nsemiring max\nvars x\nx >= -1099511627776\n",
        "kind gens\nsemiring max\nvars x\nray [0]\npoint [-1099511627776]\n",
    ),
    (
        "kind ineqs\nsemiring max\nvars x\nx - 1099511627776 <= 1099511627776\n",
        "kind gens\nsemiring max\nvars x\npoint [-oo]\npoint [2199023255552]\n",
    ),
    (
        "kind ineqs\nsemiring max\nvars x\nx + 1099511627776 <= - 0\n",
        "kind gens\nsemiring max\nvars x\npoint [-oo]\npoint [-1099511627776]\n",
    ),
    (
        "kind ineqs\nsemiring max\nvars x\nx >= 3\n",
        "kind gens\nsemiring max\nvars x\nray [0]\npoint [3]\n",
    ),
    (
        "kind ineqs\nsemiring max\nvars x\nx >= 3\nx <= 3\n",
        "kind gens\nsemiring max\nvars x\npoint [3]\n",
    ),
    (
        "kind ineqs\nsemiring max\nvars x\nx <= -oo\n",
        "kind gens\nsemiring max\nvars x\npoint [-oo]\n",
    ),
    (
        "kind ineqs\nsemiring max\nvars x\n0 <= -oo\nx <= -oo",
        "kind gens\nsemiring max\nvars x\n",
    ),
    (
        "kind ineqs\nsemiring max\nvars x y\nx <= y + 1099511627776\n",
        "kind gens\nsemiring max\nvars x y\nray [-oo, 0]\nray [0, -1099511627776]\npoint [-oo, -oo]\n",
    ),
    (
        "kind ineqs\nsemiring max\nvars x y\nmax(x, y) <= 3\n",
        "kind gens\nsemiring max\nvars x y\npoint [-oo, -oo]\npoint [-oo, 3]\npoint [3, -oo]\n",
    ),
    (
        "kind ineqs\nsemiring max\nvars\n",
        "kind gens\nsemiring max\nvars\npoint []\n",
    ),
    (
        "kind ineqs\nsemiring max\nvars\n0 <= -1\n",
        "kind gens\nsemiring max\nvars\n",
    ),
    (
        "kind ineqs\nsemiring min\nvars\n0 <= 1\n-5 <= min(7, 3)\n",
        "kind gens\nsemiring min\nvars\npoint []\n",
    ),
    (
        "kind ineqs\nsemiring bool\nvars\ntrue => false\n",
        "kind gens\nsemiring bool\nvars\n",
    ),
    (
        "kind ineqs\nsemiring min\nvars x\nx <= 3\n",
        "kind gens\nsemiring min\nvars x\nray [0]\npoint [3]\n",
    ),
    (
        "kind ineqs\nsemiring min\nvars x\n3 >= x\n",
        "kind gens\nsemiring min\nvars x\nray [0]\npoint [3]\n",
    ),
    (
        "kind ineqs\nsemiring min\nvars x\nx >= 3\n",
        "kind gens\nsemiring min\nvars x\npoint [oo]\npoint [3]\n",
    ),
    (
        "kind ineqs\nsemiring min\nvars x\nmin(x, x + 2) >= 3\nx>=oo\n",
        "kind gens\nsemiring min\nvars x\npoint [oo]\n",
    ),
    (
        "kind ineqs\nsemiring min\nvars x\noo <= x\n",
        "kind gens\nsemiring min\nvars x\npoint [oo]\n",
    ),
    (
        "kind ineqs\nsemiring min\nvars x\noo >= oo\n",
        "kind gens\nsemiring min\nvars x\nray [0]\npoint [oo]\n",
    ),
    (
        "kind ineqs\nsemiring min\nvars x y\nx >= y\n",
        "kind gens\nsemiring min\nvars x y\nray [oo, 0]\nray [0, 0]\npoint [oo, oo]\n",
    ),
    (
        "kind ineqs\nsemiring min\nvars x y\nmin(x, y) >= - 1\n",
        "kind gens\nsemiring min\nvars x y\npoint [oo, oo]\npoint [oo, -1]\npoint [-1, oo]\n",
    ),
    (
        "kind ineqs\nsemiring bool\nvars x y z\nx => y\ny => z\n",
        "kind gens\nsemiring bool\nvars x y z\nray [false, false, true]\nray [false, true, true]\nray [true, true, true]\npoint [false, false, false]\n",
    ),
    (
        "kind ineqs\nsemiring bool\nvars x\ntrue => x\n",
        "kind gens\nsemiring bool\nvars x\nray [true]\npoint [true]\n",
    ),
    (
        "kind ineqs\nsemiring bool\nvars x\nx => false\n",
        "kind gens\nsemiring bool\nvars x\npoint [false]\n",
    ),
    (
        "kind ineqs\nsemiring bool\nvars x\nx => or(true)\n",
        "kind gens\nsemiring bool\nvars x\npoint [false]\npoint [true]\n",
    ),
    (
        "kind ineqs\nsemiring bool\nvars x\nfalse=>x",
        "kind gens\nsemiring bool\nvars x\nray [true]\npoint [false]\n",
    ),
    (
        "kind ineqs\nsemiring bool\nvars x y\nor(x, y, false) => false\n",
        "kind gens\nsemiring bool\nvars x y\npoint [false, false]\n",
    ),
];

#[test]
fn files_of_inequalities_are_converted(rt: HostRuntime) -> Result<(), Fail> {
    each_ends_so(rt.alloc(), "ext", 0, &ANSWERS)?;
    Ok(())
}
