use super::reading::read_under;
use prog_lang::AssertRule;
use std::alloc::Global;
use std::test::Fail;
use trop_text::Fault;

// A text of a head, the same part so many times, what stands last, for each part what closes it, and an end.
struct Case {
    head: &'static str,
    part: &'static str,
    count: u32,
    last: &'static str,
    close: &'static str,
    end: &'static str,
    wanted: Option<Fault>,
}

fn text_of(alloc: Global, case: &Case) -> Result<Vec<u8>, Fail> {
    let mut text = Vec::from_slice(alloc, case.head.as_bytes())?;
    for _ in 0..case.count {
        text.extend_from_slice(case.part.as_bytes())?;
    }
    text.extend_from_slice(case.last.as_bytes())?;
    for _ in 0..case.count {
        text.extend_from_slice(case.close.as_bytes())?;
    }
    text.extend_from_slice(case.end.as_bytes())?;
    Ok(text)
}

// The limits of statements, atoms and nesting, and what is one past them.
const COUNTS: [Case; 38] = [
    Case {
        head: "vars x;\n",
        part: "skip;",
        count: 400,
        last: "\n",
        close: "",
        end: "",
        wanted: None,
    },
    Case {
        head: "vars x;\n",
        part: "skip;",
        count: 400,
        last: "\nskip;",
        close: "",
        end: "",
        wanted: Some(Fault::TooManyStatements { line: 3 }),
    },
    Case {
        head: "vars x;\n",
        part: "x := 1;",
        count: 400,
        last: "\ny := 1;",
        close: "",
        end: "",
        wanted: Some(Fault::TooManyStatements { line: 3 }),
    },
    Case {
        head: "vars x;\n",
        part: "x := 1;",
        count: 400,
        last: "\n;",
        close: "",
        end: "",
        wanted: Some(Fault::Syntax { line: 3, column: 1 }),
    },
    Case {
        head: "vars x;\n",
        part: "if ? { skip; }",
        count: 200,
        last: "\n",
        close: "",
        end: "",
        wanted: None,
    },
    Case {
        head: "vars x;\n",
        part: "if ? { skip; }",
        count: 200,
        last: "\nhavoc x;",
        close: "",
        end: "",
        wanted: Some(Fault::TooManyStatements { line: 3 }),
    },
    Case {
        head: "vars x;\nassume ",
        part: "? && ",
        count: 1199,
        last: "x < 1;",
        close: "",
        end: "",
        wanted: None,
    },
    Case {
        head: "vars x;\nassume ",
        part: "? && ",
        count: 1199,
        last: "x < 1\n&& y < 1;",
        close: "",
        end: "",
        wanted: Some(Fault::TooManyAtoms { line: 3 }),
    },
    Case {
        head: "vars x;\nassume ",
        part: "? || ",
        count: 1200,
        last: "\n3000000000 < x;",
        close: "",
        end: "",
        wanted: Some(Fault::TooManyAtoms { line: 3 }),
    },
    Case {
        head: "vars x;\nassume ",
        part: "? || ",
        count: 1200,
        last: "\ntrue;",
        close: "",
        end: "",
        wanted: Some(Fault::Syntax { line: 3, column: 1 }),
    },
    Case {
        head: "vars x;\nassume ",
        part: "! ",
        count: 64,
        last: "?;",
        close: "",
        end: "",
        wanted: None,
    },
    Case {
        head: "vars x;\nassume ",
        part: "! ",
        count: 64,
        last: "\n!?;",
        close: "",
        end: "",
        wanted: Some(Fault::TooDeep { line: 3 }),
    },
    Case {
        head: "vars x;\nassume ",
        part: "(",
        count: 64,
        last: "?",
        close: ")",
        end: ";",
        wanted: None,
    },
    Case {
        head: "vars x;\nassume ",
        part: "(",
        count: 64,
        last: "\n(?",
        close: ")",
        end: "",
        wanted: Some(Fault::TooDeep { line: 3 }),
    },
    Case {
        head: "vars x;\n",
        part: "if ? { ",
        count: 64,
        last: "skip;",
        close: "}",
        end: "",
        wanted: None,
    },
    Case {
        head: "vars x;\n",
        part: "if ? { ",
        count: 64,
        last: "if ?\n{ }",
        close: "}",
        end: "",
        wanted: Some(Fault::TooDeep { line: 3 }),
    },
    Case {
        head: "vars x;\n",
        part: "while ? { ",
        count: 63,
        last: "assume !?;",
        close: "}",
        end: "",
        wanted: None,
    },
    Case {
        head: "vars x;\n",
        part: "while ? { ",
        count: 63,
        last: "assume !\n(?);",
        close: "}",
        end: "",
        wanted: Some(Fault::TooDeep { line: 3 }),
    },
    Case {
        head: "vars x;\n",
        part: "while ? { ",
        count: 63,
        last: "while !? { }",
        close: "}",
        end: "",
        wanted: None,
    },
    Case {
        head: "vars x;\n",
        part: "skip;",
        count: 399,
        last: "if ? { }\n",
        close: "",
        end: "",
        wanted: None,
    },
    Case {
        head: "vars x;\n",
        part: "skip;",
        count: 399,
        last: "if ? {\nskip; }",
        close: "",
        end: "",
        wanted: Some(Fault::TooManyStatements { line: 3 }),
    },
    Case {
        head: "vars x;\n",
        part: "skip;",
        count: 398,
        last: "if ? { } else { skip; }\n",
        close: "",
        end: "",
        wanted: None,
    },
    Case {
        head: "vars x;\n",
        part: "skip;",
        count: 398,
        last: "if ? { skip; } else {\nskip; }",
        close: "",
        end: "",
        wanted: Some(Fault::TooManyStatements { line: 3 }),
    },
    Case {
        head: "vars x;\n",
        part: "skip;",
        count: 399,
        last: "while ? {\nx := 2147483649; }",
        close: "",
        end: "",
        wanted: Some(Fault::TooManyStatements { line: 3 }),
    },
    Case {
        head: "vars x;\n",
        part: "assume ? && ? && ?;",
        count: 400,
        last: "\n",
        close: "",
        end: "",
        wanted: None,
    },
    Case {
        head: "vars x;\n",
        part: "assume ? && ? && ?;",
        count: 399,
        last: "assume ? && ? && ? &&\n?;",
        close: "",
        end: "",
        wanted: Some(Fault::TooManyAtoms { line: 3 }),
    },
    Case {
        head: "vars x;\n",
        part: "assume ? && ? && ?;",
        count: 399,
        last: "while ? && ? && x < 1 ||\nx == 2 { }",
        close: "",
        end: "",
        wanted: Some(Fault::TooManyAtoms { line: 3 }),
    },
    Case {
        head: "vars x;\n",
        part: "assume ? && ? && ?;",
        count: 399,
        last: "if ? && !? && (x < 1) { }\n",
        close: "",
        end: "",
        wanted: None,
    },
    Case {
        head: "vars x;\nassume ",
        part: "? || ",
        count: 1199,
        last: "?; assert max(x, 1) = x;\n",
        close: "",
        end: "",
        wanted: None,
    },
    Case {
        head: "vars x;\nassume ",
        part: "!(",
        count: 32,
        last: "?",
        close: ")",
        end: ";",
        wanted: None,
    },
    Case {
        head: "vars x;\nassume ",
        part: "!(",
        count: 32,
        last: "\n!?",
        close: ")",
        end: ";",
        wanted: Some(Fault::TooDeep { line: 3 }),
    },
    Case {
        head: "vars x;\nassume ",
        part: "(!",
        count: 32,
        last: "\n(?)",
        close: ")",
        end: ";",
        wanted: Some(Fault::TooDeep { line: 3 }),
    },
    Case {
        head: "vars x;\nif ? { while ? { assume ",
        part: "(",
        count: 62,
        last: "?",
        close: ")",
        end: "; } }",
        wanted: None,
    },
    Case {
        head: "vars x;\nif ? { while ? { assume ",
        part: "(",
        count: 62,
        last: "\n!?",
        close: ")",
        end: "; } }",
        wanted: Some(Fault::TooDeep { line: 3 }),
    },
    Case {
        head: "vars x;\n",
        part: "if ? { } else { ",
        count: 64,
        last: "skip;",
        close: "}",
        end: "",
        wanted: None,
    },
    Case {
        head: "vars x;\n",
        part: "if ? { } else { ",
        count: 64,
        last: "while ?\n{ }",
        close: "}",
        end: "",
        wanted: Some(Fault::TooDeep { line: 3 }),
    },
    Case {
        head: "vars x;\n",
        part: "while ? { ",
        count: 64,
        last: "assert max(x) = min(1);",
        close: "}",
        end: "",
        wanted: None,
    },
    Case {
        head: "vars x;\n",
        part: "if ? { ",
        count: 63,
        last: "if (?) { }",
        close: "}",
        end: "",
        wanted: None,
    },
];

#[test]
fn limits_of_programs(rt: HostRuntime) -> Result<(), Fail> {
    let mut failed = false;
    for case in &COUNTS {
        let text = text_of(rt.alloc(), case)?;
        let got = read_under(rt.alloc(), &text, AssertRule::Any)?;
        if got != case.wanted {
            let (head, part, last) = (case.head, case.part, case.last);
            println!(rt;
                "{head}{part}..{last}: wanted {:?}, got {got:?}",
                case.wanted
            )?;
            failed = true;
        }
    }
    assert!(rt; !failed);
    Ok(())
}
