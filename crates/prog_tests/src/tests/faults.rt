use super::reading::read_under;
use prog_lang::AssertRule;
use std::test::Fail;
use trop_text::Fault;

// Programs, each with its first fault, or none where it is read.
const PROGRAMS: [(&str, Option<Fault>); 141] = [
    ("vars;", None),
    ("vars x;", None),
    ("vars x y_1 _z;\n# a comment\nskip;", None),
    ("vars\nx\n;\nx\n:=\n-\n5\n;", None),
    (
        "vars x; x := x + 0002147483648; x := x - 2147483648; x := -0;",
        None,
    ),
    (
        "vars x; havoc x; assume !(x <= 1 || ?) && !!? && x != x + 1;",
        None,
    ),
    (
        "vars x; assert max(x) = min(x, 1, x - 2); assert -1 <= x; assert x >= max(0);",
        None,
    ),
    (
        "vars x; if ? { } if x < 1 { skip; } else { } while ? { while x == 2 { x := 0; } }",
        None,
    ),
    ("vars x; if (((x > 1))) { if ? { } else { skip; } }", None),
    ("vars ends starts; ends := starts;", None),
    ("", Some(Fault::Syntax { line: 1, column: 1 })),
    ("# nothing\n", Some(Fault::Syntax { line: 2, column: 1 })),
    ("var x;", Some(Fault::Syntax { line: 1, column: 1 })),
    ("x := 1;", Some(Fault::Syntax { line: 1, column: 1 })),
    ("vars x", Some(Fault::Syntax { line: 2, column: 1 })),
    ("vars 1;", Some(Fault::Syntax { line: 1, column: 6 })),
    ("vars x, y;", Some(Fault::Syntax { line: 1, column: 7 })),
    ("vars x y x;", Some(Fault::DuplicateName { line: 1 })),
    ("vars x\nx1\nx1;", Some(Fault::DuplicateName { line: 3 })),
    ("vars x oo;", Some(Fault::Syntax { line: 1, column: 8 })),
    ("vars x max;", Some(Fault::Syntax { line: 1, column: 8 })),
    ("vars x min;", Some(Fault::Syntax { line: 1, column: 8 })),
    ("vars x or;", Some(Fault::Syntax { line: 1, column: 8 })),
    ("vars x true;", Some(Fault::Syntax { line: 1, column: 8 })),
    ("vars x false;", Some(Fault::Syntax { line: 1, column: 8 })),
    ("vars x vars;", Some(Fault::Syntax { line: 1, column: 8 })),
    ("vars x havoc;", Some(Fault::Syntax { line: 1, column: 8 })),
    ("vars x assume;", Some(Fault::Syntax { line: 1, column: 8 })),
    ("vars x assert;", Some(Fault::Syntax { line: 1, column: 8 })),
    ("vars x if;", Some(Fault::Syntax { line: 1, column: 8 })),
    ("vars x else;", Some(Fault::Syntax { line: 1, column: 8 })),
    ("vars x while;", Some(Fault::Syntax { line: 1, column: 8 })),
    ("vars x skip;", Some(Fault::Syntax { line: 1, column: 8 })),
    ("vars x point;", Some(Fault::Syntax { line: 1, column: 8 })),
    ("vars x ray;", Some(Fault::Syntax { line: 1, column: 8 })),
    ("vars x and;", Some(Fault::Syntax { line: 1, column: 8 })),
    ("vars x at;", Some(Fault::Syntax { line: 1, column: 8 })),
    ("vars x inv;", Some(Fault::Syntax { line: 1, column: 8 })),
    ("vars x end;", Some(Fault::Syntax { line: 1, column: 8 })),
    ("vars x start;", Some(Fault::Syntax { line: 1, column: 8 })),
    (
        "vars x choices;",
        Some(Fault::Syntax { line: 1, column: 8 }),
    ),
    (
        "vars a12345678901234567890123456789012;",
        Some(Fault::Syntax { line: 1, column: 6 }),
    ),
    ("vars a1234567890123456789012345678901;", None),
    ("vars x; $", Some(Fault::Syntax { line: 1, column: 9 })),
    ("vars x := 1;", Some(Fault::Syntax { line: 1, column: 8 })),
    ("vars; x := 1;", Some(Fault::UnknownName { line: 1 })),
    ("vars x; y := $;", Some(Fault::UnknownName { line: 1 })),
    (
        "vars x; x = 1;",
        Some(Fault::Syntax {
            line: 1,
            column: 11,
        }),
    ),
    (
        "vars x; x := ;",
        Some(Fault::Syntax {
            line: 1,
            column: 14,
        }),
    ),
    ("vars x; x := 1", Some(Fault::Syntax { line: 2, column: 1 })),
    (
        "vars x; x := x 1;",
        Some(Fault::Syntax {
            line: 1,
            column: 16,
        }),
    ),
    (
        "vars x; x := x + -3;",
        Some(Fault::Syntax {
            line: 1,
            column: 18,
        }),
    ),
    (
        "vars x; x := x + x;",
        Some(Fault::Syntax {
            line: 1,
            column: 18,
        }),
    ),
    (
        "vars x; x := 3 + x;",
        Some(Fault::Syntax {
            line: 1,
            column: 16,
        }),
    ),
    (
        "vars x; x := 2147483649;",
        Some(Fault::NumberRange { line: 1 }),
    ),
    (
        "vars x; x := -\n2147483649;",
        Some(Fault::NumberRange { line: 2 }),
    ),
    (
        "vars x; x := x - 99999999999999999999999;",
        Some(Fault::NumberRange { line: 1 }),
    ),
    ("vars x; x := y;", Some(Fault::UnknownName { line: 1 })),
    ("vars x; x := y + 1;", Some(Fault::UnknownName { line: 1 })),
    (
        "vars x; havoc 1;",
        Some(Fault::Syntax {
            line: 1,
            column: 15,
        }),
    ),
    ("vars x; havoc y;", Some(Fault::UnknownName { line: 1 })),
    ("vars; havoc x;", Some(Fault::UnknownName { line: 1 })),
    (
        "vars x; havoc x",
        Some(Fault::Syntax { line: 2, column: 1 }),
    ),
    (
        "vars x; havoc max;",
        Some(Fault::Syntax {
            line: 1,
            column: 15,
        }),
    ),
    (
        "vars x; skip skip;",
        Some(Fault::Syntax {
            line: 1,
            column: 14,
        }),
    ),
    ("vars x; ;", Some(Fault::Syntax { line: 1, column: 9 })),
    (
        "vars x; else { }",
        Some(Fault::Syntax { line: 1, column: 9 }),
    ),
    ("vars x; { }", Some(Fault::Syntax { line: 1, column: 9 })),
    ("vars x; }", Some(Fault::Syntax { line: 1, column: 9 })),
    (
        "vars x; ( x := 1;",
        Some(Fault::Syntax { line: 1, column: 9 }),
    ),
    (
        "vars x; 1 := x;",
        Some(Fault::Syntax { line: 1, column: 9 }),
    ),
    (
        "vars x; true := 1;",
        Some(Fault::Syntax { line: 1, column: 9 }),
    ),
    (
        "vars x; skip; end",
        Some(Fault::Syntax {
            line: 1,
            column: 15,
        }),
    ),
    (
        "vars x; start [] choices []",
        Some(Fault::Syntax { line: 1, column: 9 }),
    ),
    (
        "vars x; if ? { end",
        Some(Fault::Syntax {
            line: 1,
            column: 16,
        }),
    ),
    (
        "vars x; while ? { start",
        Some(Fault::Syntax {
            line: 1,
            column: 19,
        }),
    ),
    (
        "vars x; if ? { ",
        Some(Fault::Syntax { line: 2, column: 1 }),
    ),
    (
        "vars x; assume ;",
        Some(Fault::Syntax {
            line: 1,
            column: 16,
        }),
    ),
    (
        "vars x; assume x ;",
        Some(Fault::Syntax {
            line: 1,
            column: 18,
        }),
    ),
    (
        "vars x; assume x = 1;",
        Some(Fault::Syntax {
            line: 1,
            column: 18,
        }),
    ),
    (
        "vars x; assume x := 1;",
        Some(Fault::Syntax {
            line: 1,
            column: 18,
        }),
    ),
    (
        "vars x; assume x <= <= 1;",
        Some(Fault::Syntax {
            line: 1,
            column: 21,
        }),
    ),
    (
        "vars x; assume x < 1 < 2;",
        Some(Fault::Syntax {
            line: 1,
            column: 22,
        }),
    ),
    (
        "vars x; assume ? ?;",
        Some(Fault::Syntax {
            line: 1,
            column: 18,
        }),
    ),
    (
        "vars x; assume ? &&;",
        Some(Fault::Syntax {
            line: 1,
            column: 20,
        }),
    ),
    (
        "vars x; assume ? || && ?;",
        Some(Fault::Syntax {
            line: 1,
            column: 21,
        }),
    ),
    (
        "vars x; assume (x < 1;",
        Some(Fault::Syntax {
            line: 1,
            column: 22,
        }),
    ),
    (
        "vars x; assume x < 1);",
        Some(Fault::Syntax {
            line: 1,
            column: 21,
        }),
    ),
    (
        "vars x; assume max(x) < 1;",
        Some(Fault::Syntax {
            line: 1,
            column: 16,
        }),
    ),
    (
        "vars x; assume !;",
        Some(Fault::Syntax {
            line: 1,
            column: 17,
        }),
    ),
    (
        "vars x; assume y < 1;",
        Some(Fault::UnknownName { line: 1 }),
    ),
    (
        "vars x; assume x < y;",
        Some(Fault::UnknownName { line: 1 }),
    ),
    (
        "vars x; assume x < 2147483649;",
        Some(Fault::NumberRange { line: 1 }),
    ),
    (
        "vars x; assume 2147483649 < x;",
        Some(Fault::NumberRange { line: 1 }),
    ),
    (
        "vars x; assume true;",
        Some(Fault::Syntax {
            line: 1,
            column: 16,
        }),
    ),
    (
        "vars x; assume ?",
        Some(Fault::Syntax { line: 2, column: 1 }),
    ),
    (
        "vars x; assume (?)",
        Some(Fault::Syntax { line: 2, column: 1 }),
    ),
    (
        "vars x; if ? ;",
        Some(Fault::Syntax {
            line: 1,
            column: 14,
        }),
    ),
    (
        "vars x; if { }",
        Some(Fault::Syntax {
            line: 1,
            column: 12,
        }),
    ),
    (
        "vars x; if ? { } else if ? { }",
        Some(Fault::Syntax {
            line: 1,
            column: 23,
        }),
    ),
    (
        "vars x; while ? skip;",
        Some(Fault::Syntax {
            line: 1,
            column: 17,
        }),
    ),
    (
        "vars x; while ? { } else { }",
        Some(Fault::Syntax {
            line: 1,
            column: 21,
        }),
    ),
    (
        "vars x; if ? { } else { } else { }",
        Some(Fault::Syntax {
            line: 1,
            column: 27,
        }),
    ),
    (
        "vars x; if ? { skip; ",
        Some(Fault::Syntax { line: 2, column: 1 }),
    ),
    (
        "vars x; assert x < 1;",
        Some(Fault::Syntax {
            line: 1,
            column: 18,
        }),
    ),
    (
        "vars x; assert x == 1;",
        Some(Fault::Syntax {
            line: 1,
            column: 18,
        }),
    ),
    (
        "vars x; assert x = 1 = 1;",
        Some(Fault::Syntax {
            line: 1,
            column: 22,
        }),
    ),
    (
        "vars x; assert (x) = 1;",
        Some(Fault::Syntax {
            line: 1,
            column: 16,
        }),
    ),
    (
        "vars x; assert max x = 1;",
        Some(Fault::Syntax {
            line: 1,
            column: 20,
        }),
    ),
    (
        "vars x; assert max() = 1;",
        Some(Fault::Syntax {
            line: 1,
            column: 20,
        }),
    ),
    (
        "vars x; assert max(x;",
        Some(Fault::Syntax {
            line: 1,
            column: 21,
        }),
    ),
    (
        "vars x; assert max(x,) = 1;",
        Some(Fault::Syntax {
            line: 1,
            column: 22,
        }),
    ),
    (
        "vars x; assert max(x, y) = 1;",
        Some(Fault::UnknownName { line: 1 }),
    ),
    (
        "vars x; assert max(x, 1) = 2147483649;",
        Some(Fault::NumberRange { line: 1 }),
    ),
    (
        "vars x; assert or(x) = 1;",
        Some(Fault::Syntax {
            line: 1,
            column: 16,
        }),
    ),
    (
        "vars x; assert ? = 1;",
        Some(Fault::Syntax {
            line: 1,
            column: 16,
        }),
    ),
    (
        "vars x; assert x = max(max(x));",
        Some(Fault::Syntax {
            line: 1,
            column: 24,
        }),
    ),
    (
        "vars v1 v2 v3 v4 v5 v6 v7 v8 v9 v10 v11 v12 v13 v14 v15 v16 v17 v18 v19 v20 v21 v22 v23 v24 v25 v26 v27 v28 v29 v30 v31 v32 v33 v34 v35 v36 v37 v38 v39 v40 v41 v42 v43 v44 v45 v46 v47 v48 v49 v50 v51 v52 v53 v54 v55 v56 v57 v58 v59 v60 v61 v62 v63;",
        None,
    ),
    (
        "vars v1 v2 v3 v4 v5 v6 v7 v8 v9 v10 v11 v12 v13 v14 v15 v16 v17 v18 v19 v20 v21 v22 v23 v24 v25 v26 v27 v28 v29 v30 v31 v32 v33 v34 v35 v36 v37 v38 v39 v40 v41 v42 v43 v44 v45 v46 v47 v48 v49 v50 v51 v52 v53 v54 v55 v56 v57 v58 v59 v60 v61 v62\nv1;",
        Some(Fault::DuplicateName { line: 2 }),
    ),
    (
        "vars v1 v2 v3 v4 v5 v6 v7 v8 v9 v10 v11 v12 v13 v14 v15 v16 v17 v18 v19 v20 v21 v22 v23 v24 v25 v26 v27 v28 v29 v30 v31 v32 v33 v34 v35 v36 v37 v38 v39 v40 v41 v42 v43 v44 v45 v46 v47 v48 v49 v50 v51 v52 v53 v54 v55 v56 v57 v58 v59 v60 v61 v62 v63\nv64;",
        Some(Fault::TooManyVars { line: 2 }),
    ),
    (
        "vars v1 v2 v3 v4 v5 v6 v7 v8 v9 v10 v11 v12 v13 v14 v15 v16 v17 v18 v19 v20 v21 v22 v23 v24 v25 v26 v27 v28 v29 v30 v31 v32 v33 v34 v35 v36 v37 v38 v39 v40 v41 v42 v43 v44 v45 v46 v47 v48 v49 v50 v51 v52 v53 v54 v55 v56 v57 v58 v59 v60 v61 v62 v63\nv1;",
        Some(Fault::TooManyVars { line: 2 }),
    ),
    ("vars x\nx;", Some(Fault::DuplicateName { line: 2 })),
    ("vars;\nx := 1;", Some(Fault::UnknownName { line: 2 })),
    (
        "vars x; skip;\nassert 0 = max(x,\ny);",
        Some(Fault::UnknownName { line: 3 }),
    ),
    (
        "vars x; while ? { if ? { skip; } else {\nhavoc y; } }",
        Some(Fault::UnknownName { line: 2 }),
    ),
    ("vars x; if y == 1 {", Some(Fault::UnknownName { line: 1 })),
    (
        "vars x; x :=\n2147483649;",
        Some(Fault::NumberRange { line: 2 }),
    ),
    (
        "vars x; x := x +\n2147483649 $",
        Some(Fault::NumberRange { line: 2 }),
    ),
    (
        "vars x; assert x = max(0, x -\n2147483649);",
        Some(Fault::NumberRange { line: 2 }),
    ),
    (
        "vars x; x := 00000000000000002147483649;",
        Some(Fault::NumberRange { line: 1 }),
    ),
    (
        "vars x; x := -2147483648; assume x - 2147483648 <= x + 2147483648;",
        None,
    ),
    (
        "vars x; skip;\n}",
        Some(Fault::Syntax { line: 2, column: 1 }),
    ),
    (
        "vars x; skip; x",
        Some(Fault::Syntax { line: 2, column: 1 }),
    ),
    ("vars x end", Some(Fault::Syntax { line: 1, column: 8 })),
    (
        "vars x; x := end;",
        Some(Fault::Syntax {
            line: 1,
            column: 14,
        }),
    ),
    (
        "vars x; skip end;",
        Some(Fault::Syntax {
            line: 1,
            column: 14,
        }),
    ),
    (
        "vars x; if ? { skip; } else { start",
        Some(Fault::Syntax {
            line: 1,
            column: 31,
        }),
    ),
    (
        "vars x; if end { }",
        Some(Fault::Syntax {
            line: 1,
            column: 12,
        }),
    ),
    (
        "vars x; while ? end",
        Some(Fault::Syntax {
            line: 1,
            column: 17,
        }),
    ),
    (
        "vars x; assert start = 1;",
        Some(Fault::Syntax {
            line: 1,
            column: 16,
        }),
    ),
    (
        "vars x; if ? { } end",
        Some(Fault::Syntax {
            line: 1,
            column: 18,
        }),
    ),
];

#[test]
fn programs_and_their_first_faults(rt: HostRuntime) -> Result<(), Fail> {
    let mut failed = false;
    for (text, wanted) in &PROGRAMS {
        let got = read_under(rt.alloc(), text.as_bytes(), AssertRule::Any)?;
        if got != *wanted {
            println!(rt; "{text}: wanted {wanted:?}, got {got:?}")?;
            failed = true;
        }
    }
    assert!(rt; !failed);
    Ok(())
}
