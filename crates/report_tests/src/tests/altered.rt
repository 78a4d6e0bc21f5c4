use super::reading::read;
use super::sample::SAMPLE;
use std::alloc::Global;
use std::test::Fail;
use trop_text::Fault;

// The line of the sample in whose place the text stands.
struct Altered {
    line: u32,
    text: &'static str,
    wanted: Option<Fault>,
}

// The sample with the text in the place of the line, and one line without tokens at its end.
fn text_of(alloc: Global, altered: &Altered) -> Result<Vec<u8>, Fail> {
    let mut text = Vec::new(alloc);
    let mut number = 0;
    for line in SAMPLE.split('\n') {
        if number < 1000 {
            number += 1;
        }
        if number == altered.line {
            text.extend_from_slice(altered.text.as_bytes())?;
        } else {
            text.extend_from_slice(line.as_bytes())?;
        }
        text.extend_from_slice(b"\n")?;
    }
    Ok(text)
}

const ALTERED: [Altered; 124] = [
    // The first line.
    Altered {
        line: 1,
        text: "report 02",
        wanted: None,
    },
    Altered {
        line: 1,
        text: "report 1",
        wanted: Some(Fault::Syntax { line: 4, column: 1 }),
    },
    Altered {
        line: 1,
        text: "report 0",
        wanted: Some(Fault::ReportFault { line: 1 }),
    },
    Altered {
        line: 1,
        text: "report 3",
        wanted: Some(Fault::ReportFault { line: 1 }),
    },
    Altered {
        line: 1,
        text: "report 18446744073709551618",
        wanted: Some(Fault::ReportFault { line: 1 }),
    },
    Altered {
        line: 1,
        text: "report 3 x",
        wanted: Some(Fault::Syntax {
            line: 1,
            column: 10,
        }),
    },
    Altered {
        line: 1,
        text: "report -2",
        wanted: Some(Fault::Syntax { line: 1, column: 8 }),
    },
    Altered {
        line: 1,
        text: "report two",
        wanted: Some(Fault::Syntax { line: 1, column: 8 }),
    },
    Altered {
        line: 1,
        text: "reports 2",
        wanted: Some(Fault::Syntax { line: 1, column: 1 }),
    },
    Altered {
        line: 1,
        text: "report",
        wanted: Some(Fault::Syntax { line: 1, column: 7 }),
    },
    Altered {
        line: 1,
        text: "report 2 # of today",
        wanted: None,
    },
    // The other lines of the head.
    Altered {
        line: 2,
        text: "mode bool",
        wanted: Some(Fault::Syntax { line: 2, column: 6 }),
    },
    Altered {
        line: 2,
        text: "mode max",
        wanted: Some(Fault::AssertMode { line: 17 }),
    },
    Altered {
        line: 2,
        text: "mode min min",
        wanted: Some(Fault::Syntax {
            line: 2,
            column: 10,
        }),
    },
    Altered {
        line: 3,
        text: "delay 1000",
        wanted: None,
    },
    Altered {
        line: 3,
        text: "delay 1001",
        wanted: Some(Fault::NumberRange { line: 3 }),
    },
    Altered {
        line: 3,
        text: "delay 1001 x",
        wanted: Some(Fault::NumberRange { line: 3 }),
    },
    Altered {
        line: 3,
        text: "delay -1",
        wanted: Some(Fault::Syntax { line: 3, column: 7 }),
    },
    Altered {
        line: 3,
        text: "",
        wanted: Some(Fault::Syntax { line: 4, column: 1 }),
    },
    Altered {
        line: 4,
        text: "narrow 100",
        wanted: None,
    },
    Altered {
        line: 4,
        text: "narrow 101",
        wanted: Some(Fault::NumberRange { line: 4 }),
    },
    Altered {
        line: 4,
        text: "",
        wanted: Some(Fault::Syntax { line: 5, column: 1 }),
    },
    Altered {
        line: 4,
        text: "narrow",
        wanted: Some(Fault::Syntax { line: 4, column: 7 }),
    },
    Altered {
        line: 5,
        text: "passes 0",
        wanted: None,
    },
    Altered {
        line: 5,
        text: "passes 2039201",
        wanted: None,
    },
    Altered {
        line: 5,
        text: "passes 2039202",
        wanted: Some(Fault::NumberRange { line: 5 }),
    },
    Altered {
        line: 5,
        text: "passes 4\npasses 4",
        wanted: Some(Fault::Syntax { line: 6, column: 1 }),
    },
    Altered {
        line: 6,
        text: "program x",
        wanted: Some(Fault::Syntax { line: 6, column: 9 }),
    },
    Altered {
        line: 6,
        text: "",
        wanted: Some(Fault::Syntax { line: 7, column: 1 }),
    },
    // The program.
    Altered {
        line: 7,
        text: "vars ls n ls;",
        wanted: Some(Fault::DuplicateName { line: 7 }),
    },
    Altered {
        line: 11,
        text: "  ld := q;",
        wanted: Some(Fault::UnknownName { line: 11 }),
    },
    Altered {
        line: 11,
        text: "  ld := ld + 2147483649;",
        wanted: Some(Fault::NumberRange { line: 11 }),
    },
    Altered {
        line: 17,
        text: "assert max(ls, n) = min(ld, n);",
        wanted: Some(Fault::AssertMode { line: 17 }),
    },
    Altered {
        line: 18,
        text: "end at",
        wanted: Some(Fault::Syntax {
            line: 18,
            column: 5,
        }),
    },
    Altered {
        line: 18,
        text: "start",
        wanted: Some(Fault::Syntax {
            line: 18,
            column: 1,
        }),
    },
    Altered {
        line: 18,
        text: "",
        wanted: Some(Fault::Syntax {
            line: 19,
            column: 1,
        }),
    },
    Altered {
        line: 17,
        text: "assert min(ls, n) = min(ld, n); end",
        wanted: Some(Fault::ReportFault { line: 18 }),
    },
    // Labels.
    Altered {
        line: 19,
        text: "at 00 statement 00",
        wanted: None,
    },
    Altered {
        line: 19,
        text: "at 1 statement 0",
        wanted: Some(Fault::ReportFault { line: 19 }),
    },
    Altered {
        line: 19,
        text: "at 0 statement 1",
        wanted: Some(Fault::ReportFault { line: 19 }),
    },
    Altered {
        line: 19,
        text: "at 0 inner",
        wanted: Some(Fault::ReportFault { line: 19 }),
    },
    Altered {
        line: 19,
        text: "at 0 exit",
        wanted: Some(Fault::ReportFault { line: 19 }),
    },
    Altered {
        line: 19,
        text: "at 0 inner 0",
        wanted: Some(Fault::Syntax {
            line: 19,
            column: 12,
        }),
    },
    Altered {
        line: 19,
        text: "at 1 inner 0",
        wanted: Some(Fault::Syntax {
            line: 19,
            column: 12,
        }),
    },
    Altered {
        line: 19,
        text: "at 0 statement",
        wanted: Some(Fault::Syntax {
            line: 19,
            column: 15,
        }),
    },
    Altered {
        line: 19,
        text: "at 0 statement -0",
        wanted: Some(Fault::Syntax {
            line: 19,
            column: 16,
        }),
    },
    Altered {
        line: 19,
        text: "at -0 statement 0",
        wanted: Some(Fault::Syntax {
            line: 19,
            column: 4,
        }),
    },
    Altered {
        line: 19,
        text: "at 18446744073709551616 statement 0",
        wanted: Some(Fault::ReportFault { line: 19 }),
    },
    Altered {
        line: 19,
        text: "at 0 statement 18446744073709551616",
        wanted: Some(Fault::ReportFault { line: 19 }),
    },
    Altered {
        line: 19,
        text: "at 0 label",
        wanted: Some(Fault::Syntax {
            line: 19,
            column: 6,
        }),
    },
    Altered {
        line: 38,
        text: "at 3 statement 3",
        wanted: Some(Fault::ReportFault { line: 38 }),
    },
    Altered {
        line: 38,
        text: "at 2 statement 2",
        wanted: Some(Fault::ReportFault { line: 38 }),
    },
    Altered {
        line: 48,
        text: "at 4 inner",
        wanted: Some(Fault::ReportFault { line: 48 }),
    },
    Altered {
        line: 19,
        text: "ray [oo, oo, 0]",
        wanted: Some(Fault::Syntax {
            line: 19,
            column: 1,
        }),
    },
    Altered {
        line: 19,
        text: "unreachable",
        wanted: Some(Fault::Syntax {
            line: 19,
            column: 1,
        }),
    },
    Altered {
        line: 19,
        text: "inv ls >= 0",
        wanted: Some(Fault::Syntax {
            line: 19,
            column: 1,
        }),
    },
    Altered {
        line: 19,
        text: "assert 7 proved",
        wanted: Some(Fault::ReportFault { line: 19 }),
    },
    Altered {
        line: 19,
        text: "end",
        wanted: Some(Fault::ReportFault { line: 19 }),
    },
    Altered {
        line: 20,
        text: "at 1 statement 1",
        wanted: Some(Fault::ReportFault { line: 20 }),
    },
    Altered {
        line: 20,
        text: "at 0 statement 0",
        wanted: Some(Fault::ReportFault { line: 20 }),
    },
    // Rows.
    Altered {
        line: 20,
        text: "ray [oo, oo, oo]",
        wanted: Some(Fault::ReportFault { line: 20 }),
    },
    Altered {
        line: 20,
        text: "ray [oo, oo, oo] x",
        wanted: Some(Fault::Syntax {
            line: 20,
            column: 18,
        }),
    },
    Altered {
        line: 20,
        text: "ray [oo, oo]",
        wanted: Some(Fault::Syntax {
            line: 20,
            column: 12,
        }),
    },
    Altered {
        line: 20,
        text: "ray [oo, oo, 0, 0]",
        wanted: Some(Fault::Syntax {
            line: 20,
            column: 15,
        }),
    },
    Altered {
        line: 20,
        text: "ray [oo, oo, -oo]",
        wanted: Some(Fault::Syntax {
            line: 20,
            column: 15,
        }),
    },
    Altered {
        line: 20,
        text: "ray [oo, oo, 1099511627776]",
        wanted: None,
    },
    Altered {
        line: 20,
        text: "ray [oo, oo, 1099511627777]",
        wanted: Some(Fault::NumberRange { line: 20 }),
    },
    Altered {
        line: 20,
        text: "ray [oo, oo, -1099511627776]",
        wanted: None,
    },
    Altered {
        line: 20,
        text: "ray [oo, oo, -1099511627777]",
        wanted: Some(Fault::NumberRange { line: 20 }),
    },
    Altered {
        line: 20,
        text: "ray [oo, 1099511627777, oo] x",
        wanted: Some(Fault::NumberRange { line: 20 }),
    },
    Altered {
        line: 20,
        text: "point [oo, oo, oo]",
        wanted: None,
    },
    Altered {
        line: 20,
        text: "ray [oo, 7, 12]",
        wanted: None,
    },
    Altered {
        line: 23,
        text: "point [oo, oo, oo]\npoint [oo, oo, oo]",
        wanted: None,
    },
    Altered {
        line: 20,
        text: "row [oo, oo, 0]",
        wanted: Some(Fault::Syntax {
            line: 20,
            column: 1,
        }),
    },
    Altered {
        line: 20,
        text: "ray oo, oo, 0]",
        wanted: Some(Fault::Syntax {
            line: 20,
            column: 5,
        }),
    },
    Altered {
        line: 24,
        text: "unreachable",
        wanted: Some(Fault::ReportFault { line: 24 }),
    },
    Altered {
        line: 24,
        text: "unreachable x",
        wanted: Some(Fault::Syntax {
            line: 24,
            column: 13,
        }),
    },
    Altered {
        line: 28,
        text: "unreachable",
        wanted: Some(Fault::ReportFault { line: 28 }),
    },
    Altered {
        line: 20,
        text: "assert 7 proved",
        wanted: Some(Fault::ReportFault { line: 20 }),
    },
    Altered {
        line: 20,
        text: "end",
        wanted: Some(Fault::ReportFault { line: 20 }),
    },
    Altered {
        line: 20,
        text: "unreachable",
        wanted: Some(Fault::ReportFault { line: 21 }),
    },
    Altered {
        line: 20,
        text: "unreachable\nray [oo, oo]",
        wanted: Some(Fault::Syntax {
            line: 21,
            column: 12,
        }),
    },
    Altered {
        line: 20,
        text: "unreachable\ninv ls >= 0",
        wanted: Some(Fault::ReportFault { line: 21 }),
    },
    Altered {
        line: 20,
        text: "unreachable\nunreachable",
        wanted: Some(Fault::ReportFault { line: 21 }),
    },
    // Inequalities.
    Altered {
        line: 29,
        text: "inv ls >= 281474976710656",
        wanted: None,
    },
    Altered {
        line: 29,
        text: "inv ls >= 281474976710657",
        wanted: Some(Fault::NumberRange { line: 29 }),
    },
    Altered {
        line: 29,
        text: "inv ls >= -281474976710656",
        wanted: None,
    },
    Altered {
        line: 29,
        text: "inv ls >= -281474976710657",
        wanted: Some(Fault::NumberRange { line: 29 }),
    },
    Altered {
        line: 29,
        text: "inv 0 <= ls",
        wanted: None,
    },
    Altered {
        line: 29,
        text: "inv ls = 0",
        wanted: Some(Fault::Syntax {
            line: 29,
            column: 8,
        }),
    },
    Altered {
        line: 29,
        text: "inv ls >= 0 0",
        wanted: Some(Fault::Syntax {
            line: 29,
            column: 13,
        }),
    },
    Altered {
        line: 29,
        text: "inv",
        wanted: Some(Fault::Syntax {
            line: 29,
            column: 4,
        }),
    },
    Altered {
        line: 29,
        text: "inv zz >= 0",
        wanted: Some(Fault::UnknownName { line: 29 }),
    },
    Altered {
        line: 29,
        text: "inv max(ls, n) >= 0",
        wanted: Some(Fault::Syntax {
            line: 29,
            column: 5,
        }),
    },
    Altered {
        line: 29,
        text: "inv ls >= 0\nray [oo, 0, oo]",
        wanted: Some(Fault::Syntax {
            line: 30,
            column: 1,
        }),
    },
    Altered {
        line: 29,
        text: "inv ls >= 0\nunreachable",
        wanted: Some(Fault::ReportFault { line: 30 }),
    },
    Altered {
        line: 20,
        text: "inv ls >= 0",
        wanted: Some(Fault::ReportFault { line: 20 }),
    },
    Altered {
        line: 20,
        text: "inv zz >= 0",
        wanted: Some(Fault::UnknownName { line: 20 }),
    },
    Altered {
        line: 20,
        text: "inv ls >= 281474976710657",
        wanted: Some(Fault::NumberRange { line: 20 }),
    },
    Altered {
        line: 20,
        text: "inv ls >= 0 x",
        wanted: Some(Fault::Syntax {
            line: 20,
            column: 13,
        }),
    },
    // Verdicts and the last line.
    Altered {
        line: 104,
        text: "assert 007 unknown",
        wanted: None,
    },
    Altered {
        line: 104,
        text: "assert 6 proved",
        wanted: Some(Fault::ReportFault { line: 104 }),
    },
    Altered {
        line: 104,
        text: "assert 8 unknown",
        wanted: Some(Fault::ReportFault { line: 104 }),
    },
    Altered {
        line: 104,
        text: "assert 18446744073709551623 proved",
        wanted: Some(Fault::ReportFault { line: 104 }),
    },
    Altered {
        line: 104,
        text: "assert 7 maybe",
        wanted: Some(Fault::Syntax {
            line: 104,
            column: 10,
        }),
    },
    Altered {
        line: 104,
        text: "assert 6 maybe",
        wanted: Some(Fault::Syntax {
            line: 104,
            column: 10,
        }),
    },
    Altered {
        line: 104,
        text: "assert 7",
        wanted: Some(Fault::Syntax {
            line: 104,
            column: 9,
        }),
    },
    Altered {
        line: 104,
        text: "assert 7 proved x",
        wanted: Some(Fault::Syntax {
            line: 104,
            column: 17,
        }),
    },
    Altered {
        line: 104,
        text: "assert -7 proved",
        wanted: Some(Fault::Syntax {
            line: 104,
            column: 8,
        }),
    },
    Altered {
        line: 104,
        text: "assert 7 proved\nassert 7 proved",
        wanted: Some(Fault::ReportFault { line: 105 }),
    },
    Altered {
        line: 104,
        text: "",
        wanted: Some(Fault::ReportFault { line: 105 }),
    },
    Altered {
        line: 104,
        text: "end",
        wanted: Some(Fault::ReportFault { line: 104 }),
    },
    Altered {
        line: 104,
        text: "at 9 exit",
        wanted: Some(Fault::ReportFault { line: 104 }),
    },
    Altered {
        line: 104,
        text: "at 10 exit",
        wanted: Some(Fault::ReportFault { line: 104 }),
    },
    Altered {
        line: 104,
        text: "assert 7 proved\nat 9 exit",
        wanted: Some(Fault::ReportFault { line: 105 }),
    },
    Altered {
        line: 104,
        text: "assert 7 proved\nray [0, oo, oo]",
        wanted: Some(Fault::Syntax {
            line: 105,
            column: 1,
        }),
    },
    Altered {
        line: 104,
        text: "assert 7 proved\ninv ls >= 0",
        wanted: Some(Fault::Syntax {
            line: 105,
            column: 1,
        }),
    },
    Altered {
        line: 104,
        text: "assert 7 proved\nunreachable",
        wanted: Some(Fault::Syntax {
            line: 105,
            column: 1,
        }),
    },
    Altered {
        line: 94,
        text: "assert 7 proved",
        wanted: Some(Fault::ReportFault { line: 94 }),
    },
    Altered {
        line: 94,
        text: "end",
        wanted: Some(Fault::ReportFault { line: 94 }),
    },
    Altered {
        line: 105,
        text: "end x",
        wanted: Some(Fault::Syntax {
            line: 105,
            column: 5,
        }),
    },
    Altered {
        line: 105,
        text: "end\nend",
        wanted: Some(Fault::Syntax {
            line: 106,
            column: 1,
        }),
    },
    Altered {
        line: 105,
        text: "end\n# of today",
        wanted: None,
    },
    Altered {
        line: 105,
        text: "",
        wanted: Some(Fault::Syntax {
            line: 107,
            column: 1,
        }),
    },
];

#[test]
fn altered_reports(rt: HostRuntime) -> Result<(), Fail> {
    let mut failed = false;
    for altered in &ALTERED {
        let text = text_of(rt.alloc(), altered)?;
        let got = read(rt.alloc(), &text)?;
        if got != altered.wanted {
            let (line, text) = (altered.line, altered.text);
            println!(rt;
                "line {line} {text}: wanted {:?}, got {got:?}",
                altered.wanted
            )?;
            failed = true;
        }
    }
    assert!(rt; !failed);
    Ok(())
}
