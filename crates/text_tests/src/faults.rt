//! The texts of faults, and where they stand.
use row_examples::same_text;
use std::alloc::{AllocError, Global};
use std::test::Fail;
use trop_text::{Fault, FaultKind, Lexer, Pieces, TextErr, fault_before};

// Each kind of fault and its text.
const FAULTS: [(Fault, &str); 12] = [
    (
        Fault::Syntax { line: 4, column: 5 },
        "line 4, column 5: syntax",
    ),
    (
        Fault::NumberRange { line: 7 },
        "line 7: number out of range",
    ),
    (Fault::UnknownName { line: 1 }, "line 1: unknown name"),
    (Fault::DuplicateName { line: 3 }, "line 3: duplicate name"),
    (Fault::TooManyVars { line: 3 }, "line 3: too many variables"),
    (
        Fault::TooManyLines { line: 1028 },
        "line 1028: too many lines",
    ),
    (Fault::WrongKind { line: 1 }, "line 1: wrong kind"),
    (
        Fault::TooManyStatements { line: 9 },
        "line 9: too many statements",
    ),
    (Fault::TooManyAtoms { line: 9 }, "line 9: too many atoms"),
    (Fault::TooDeep { line: 9 }, "line 9: nested too deep"),
    (
        Fault::AssertMode { line: 9 },
        "line 9: assert not in this mode",
    ),
    (Fault::ReportFault { line: 9 }, "line 9: report fault"),
];

// That this is the text of the fault, also as that of a refusal.
fn is_printed(alloc: Global, fault: Fault, wanted: &str) -> Result<(), Fail> {
    let text = format!(in alloc; "{fault}")?;
    same_text(alloc, "a fault", wanted, text.as_str())?;
    let error = TextErr::from(fault);
    let text = format!(in alloc; "{error}")?;
    same_text(alloc, "its refusal", wanted, text.as_str())
}

#[test]
fn faults_print_their_place(rt: HostRuntime) -> Result<(), Fail> {
    for (fault, wanted) in &FAULTS {
        is_printed(rt.alloc(), *fault, wanted)?;
    }
    Ok(())
}

#[test]
fn want_of_memory_is_a_refusal(rt: HostRuntime) -> Result<(), Fail> {
    let memory = TextErr::from(AllocError);
    let text = format!(in rt.alloc(); "{memory}")?;
    same_text(rt.alloc(), "no memory", "out of memory", text.as_str())
}

#[test]
fn lines_have_their_ends(rt: HostRuntime) {
    let lexer = Lexer::new(b"# c\n[ 1 # d\r\n\n  ]");
    assert_eq!(rt; lexer.lines(), 4);
    assert_eq!(rt;
        (lexer.line_end(1), lexer.line_end(2), lexer.line_end(3)),
        (4, 9, 1)
    );
}

#[test]
fn faults_stand_at_pieces(rt: HostRuntime) -> Result<(), Fail> {
    let lexer = Lexer::new(b"# c\n[ 1 # d\r\n\n  ]");
    let pieces = Pieces::new(lexer, 0);
    let (_, pieces) = pieces.next().ok_or("[")?;
    let (_, pieces) = pieces.next().ok_or("1")?;
    assert_eq!(rt;
        fault_before(&lexer, FaultKind::Syntax, pieces),
        Fault::Syntax { line: 2, column: 9 }
    );
    let (_, pieces) = pieces.next().ok_or("end of line 2")?;
    assert_eq!(rt;
        fault_before(&lexer, FaultKind::TooManyLines, pieces),
        Fault::TooManyLines { line: 4 }
    );
    let (_, pieces) = pieces.next().ok_or("]")?;
    let (_, pieces) = pieces.next().ok_or("end of line 4")?;
    assert_eq!(rt;
        fault_before(&lexer, FaultKind::Syntax, pieces),
        Fault::Syntax { line: 5, column: 1 }
    );
    let (_, pieces) = pieces.next().ok_or("end of the input")?;
    assert!(rt; pieces.next().is_none());
    Ok(())
}
