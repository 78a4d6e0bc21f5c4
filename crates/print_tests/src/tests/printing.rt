use prog_lang::{AssertRule, read_program};
use prog_print::print_program;
use std::alloc::Global;
use std::str;
use std::test::Fail;

// The program of a text as it is printed, and nothing where it is not read.
pub(super) fn printed(alloc: Global, text: &[u8]) -> Result<Vec<u8>, Fail> {
    if text.len() > 100_000 {
        return Ok(Vec::new(alloc));
    }
    match read_program(alloc, text, AssertRule::Any) {
        Ok(program) => {
            let bytes = print_program(alloc, &program)?;
            Ok(bytes)
        }
        Err(_) => Ok(Vec::new(alloc)),
    }
}

pub(super) fn shown(bytes: &[u8]) -> &str {
    match str::from_utf8(bytes) {
        Ok(text) => text,
        Err(_) => "bytes that are no text",
    }
}

// Programs, and each as it is printed.
const PRINTED: [(&str, &str); 14] = [
    ("vars;", "vars;\n"),
    ("vars x;", "vars x;\n"),
    (
        "vars x y_1 _z;\n# a comment\nskip;",
        "vars x y_1 _z;\nskip;\n",
    ),
    ("vars\nx\n;\nx\n:=\n-\n5\n;", "vars x;\nx := -5;\n"),
    (
        "vars x; x := x + 0002147483648; x := x - 2147483648; x := -0; x := x + 0; x := x - 0;",
        "vars x;\nx := x + 2147483648;\nx := x - 2147483648;\nx := 0;\nx := x;\nx := x;\n",
    ),
    (
        "vars x; x := 2147483648; x := -2147483648;",
        "vars x;\nx := 2147483648;\nx := -2147483648;\n",
    ),
    (
        "vars x y;havoc y;skip;x:=y+1;",
        "vars x y;\nhavoc y;\nskip;\nx := y + 1;\n",
    ),
    (
        "vars x y;assert max(x,y+1,-3)>=min(y-1);assert x=0;assert max(x)<=x;",
        "vars x y;\nassert max(x, y + 1, -3) >= min(y - 1);\nassert x = 0;\nassert max(x) <= x;\n",
    ),
    (
        "vars x; if ? { } if x < 1 { skip; } else { } if ? { } else { x := 1; }",
        "vars x;\nif ? {\n}\nif x < 1 {\n  skip;\n}\nif ? {\n} else {\n  x := 1;\n}\n",
    ),
    (
        "vars x; while ? { while x == 2 { x := 0; } if ? { skip; } else { havoc x; } } skip;",
        "vars x;\nwhile ? {\n  while x == 2 {\n    x := 0;\n  }\n  if ? {\n    skip;\n  } else {\n    havoc x;\n  }\n}\nskip;\n",
    ),
    (
        "vars x; while (x<1) { } assume ((?));",
        "vars x;\nwhile x < 1 {\n}\nassume ?;\n",
    ),
    (
        "vars ends starts; ends := starts;",
        "vars ends starts;\nends := starts;\n",
    ),
    (
        "vars ls n ld;\nassume ls >= 0;\nld := 0;\nwhile ld < n && ld < ls {\n  ld := ld + 1;\n}\nif ld >= n {\n  havoc ld;\n  assume ld >= n;\n}\nassert min(ls, n) = min(ld, n);\n",
        "vars ls n ld;\nassume ls >= 0;\nld := 0;\nwhile ld < n && ld < ls {\n  ld := ld + 1;\n}\nif ld >= n {\n  havoc ld;\n  assume ld >= n;\n}\nassert min(ls, n) = min(ld, n);\n",
    ),
    ("vars x; x := y;", ""),
];

// What is printed is what is wanted, and is read back to a program that is printed so again.
#[test]
fn programs_as_they_are_printed(rt: HostRuntime) -> Result<(), Fail> {
    let mut failed = false;
    for (text, wanted) in &PRINTED {
        let got = printed(rt.alloc(), text.as_bytes())?;
        if got.as_slice() != wanted.as_bytes() {
            println!(rt; "{text}: wanted {wanted}, got {}", shown(&got))?;
            failed = true;
        }
        let again = printed(rt.alloc(), &got)?;
        if again.as_slice() != got.as_slice() {
            println!(rt; "{text}: {} is read back as {}", shown(&got), shown(&again))?;
            failed = true;
        }
    }
    assert!(rt; !failed);
    Ok(())
}
