//! Programs as a part of a text, and where the lexer then stands.
use prog_lang::{AssertRule, read_program_part};
use std::alloc::Global;
use std::test::Fail;
use trop_text::{Fault, Lexer, TextErr};

// Texts that begin with a program, its first fault or none where it is read, and the column of the next token that is
// left, 0 for none.
const PARTS: [(&str, Option<Fault>, u32); 5] = [
    ("vars x; x := 1; end report", None, 17),
    ("vars; start []", None, 7),
    ("vars x; skip;", None, 0),
    (
        "vars x; x := y; end",
        Some(Fault::UnknownName { line: 1 }),
        1,
    ),
    (
        "vars x; if ? { end",
        Some(Fault::Syntax {
            line: 1,
            column: 16,
        }),
        1,
    ),
];

fn read_part(alloc: Global, text: &[u8]) -> (Option<Fault>, u32) {
    if text.len() > 100_000 {
        return (Some(Fault::TooManyLines { line: 0 }), 0);
    }
    let mut lexer = Lexer::new(text);
    let fault = match read_program_part(alloc, &mut lexer, AssertRule::Any) {
        Ok(_) => None,
        Err(TextErr::Fault(fault)) => Some(fault),
        Err(TextErr::NoMemory) => Some(Fault::TooManyLines { line: 1 }),
    };
    let column = match lexer.next() {
        Some(token) => token.column,
        None => 0,
    };
    (fault, column)
}

#[test]
fn parts_of_texts(rt: HostRuntime) -> Result<(), Fail> {
    let mut failed = false;
    for (text, fault, column) in &PARTS {
        let got = read_part(rt.alloc(), text.as_bytes());
        if got.0 != *fault || got.1 != *column {
            println!(rt; "{text}: wanted {fault:?} and column {column}, got {got:?}")?;
            failed = true;
        }
    }
    assert!(rt; !failed);
    Ok(())
}
