use super::reading::read_under;
use prog_lang::AssertRule;
use std::test::Fail;
use trop_text::Fault;

// Programs under a rule for the words of their asserts.
const MODES: [(&str, AssertRule, Option<Fault>); 11] = [
    ("vars x; assert max(x) = 1;", AssertRule::MaxOnly, None),
    ("vars x; assert min(x) = 1;", AssertRule::MinOnly, None),
    ("vars x;\nassert x = 1;", AssertRule::MinOnly, None),
    (
        "vars x;\nassert min $",
        AssertRule::MaxOnly,
        Some(Fault::AssertMode { line: 2 }),
    ),
    (
        "vars x;\nassert max $",
        AssertRule::MinOnly,
        Some(Fault::AssertMode { line: 2 }),
    ),
    (
        "vars x;\nassert max(x) =\nmin(x);",
        AssertRule::MaxOnly,
        Some(Fault::AssertMode { line: 3 }),
    ),
    ("vars x;\nassert max(x) = min(x);", AssertRule::Any, None),
    (
        "vars;\nassert min",
        AssertRule::MaxOnly,
        Some(Fault::AssertMode { line: 2 }),
    ),
    (
        "vars x; if ? { } else { while ? {\nassert x = x;\nassert max(x) <=\nmin(1); } }",
        AssertRule::MaxOnly,
        Some(Fault::AssertMode { line: 4 }),
    ),
    (
        "vars x; assert x >= min(x, 1);\nassert y = 2147483649;\n",
        AssertRule::MinOnly,
        Some(Fault::UnknownName { line: 2 }),
    ),
    (
        "vars x; assert x >= min(x, 1);\nassert 1 <= max(x);",
        AssertRule::MinOnly,
        Some(Fault::AssertMode { line: 2 }),
    ),
];

#[test]
fn words_of_asserts(rt: HostRuntime) -> Result<(), Fail> {
    let mut failed = false;
    for (text, rule, wanted) in &MODES {
        let got = read_under(rt.alloc(), text.as_bytes(), *rule)?;
        if got != *wanted {
            println!(rt; "{text}: wanted {wanted:?}, got {got:?}")?;
            failed = true;
        }
    }
    assert!(rt; !failed);
    Ok(())
}
