use super::reading::read_under;
use prog_lang::AssertRule;
use std::alloc::Global;
use std::test::Fail;
use trop_text::Fault;

// The words that no variable has as its name.
const RESERVED: [&str; 22] = [
    "oo", "max", "min", "or", "true", "false", "vars", "havoc", "assume", "assert", "if", "else",
    "while", "skip", "point", "ray", "and", "at", "inv", "end", "start", "choices",
];

// What stands before a name and behind it, and the column of the name.
const PLACES: [(&str, &str, u32); 5] = [
    ("x := ", ";", 6),
    ("x := x + ", ";", 10),
    ("havoc ", ";", 7),
    ("assume x < ", ";", 12),
    ("assert max(x, ", ") = 1;", 15),
];

fn text_of(alloc: Global, front: &str, word: &str, back: &str) -> Result<Vec<u8>, Fail> {
    let mut text = Vec::from_slice(alloc, b"vars x;\n")?;
    text.extend_from_slice(front.as_bytes())?;
    text.extend_from_slice(word.as_bytes())?;
    text.extend_from_slice(back.as_bytes())?;
    Ok(text)
}

// Each word in the place of each name.
#[test]
fn words_in_the_place_of_names(rt: HostRuntime) -> Result<(), Fail> {
    let mut failed = false;
    for word in &RESERVED {
        for (front, back, column) in &PLACES {
            let text = text_of(rt.alloc(), front, word, back)?;
            let got = read_under(rt.alloc(), &text, AssertRule::Any)?;
            let wanted = Some(Fault::Syntax {
                line: 2,
                column: *column,
            });
            if got != wanted {
                println!(rt; "{front}{word}{back}: wanted {wanted:?}, got {got:?}")?;
                failed = true;
            }
        }
    }
    assert!(rt; !failed);
    Ok(())
}
