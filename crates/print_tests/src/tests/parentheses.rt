use super::printing::{printed, shown};
use std::alloc::Global;
use std::test::Fail;

// Conditions, and each as it is printed.
const CONDITIONS: [(&str, &str); 33] = [
    ("?", "?"),
    ("(?)", "?"),
    ("x<1", "x < 1"),
    ("((x < 1))", "x < 1"),
    ("!?", "!?"),
    ("!(?)", "!?"),
    ("!!?", "!!?"),
    ("!(!?)", "!!?"),
    ("!x<1", "!x < 1"),
    ("!(x < 1)", "!x < 1"),
    ("!-1<x", "!-1 < x"),
    ("!(? && ?)", "!(? && ?)"),
    ("!(? || ?)", "!(? || ?)"),
    ("(!?) && ?", "!? && ?"),
    ("? && ? && ?", "? && ? && ?"),
    ("(? && ?) && ?", "? && ? && ?"),
    ("? && (? && ?)", "? && (? && ?)"),
    ("? || ? || ?", "? || ? || ?"),
    ("(? || ?) || ?", "? || ? || ?"),
    ("? || (? || ?)", "? || (? || ?)"),
    ("(? || ?) && ?", "(? || ?) && ?"),
    ("? && (? || ?)", "? && (? || ?)"),
    ("(? && ?) || ?", "? && ? || ?"),
    ("? || (? && ?)", "? || ? && ?"),
    ("(? || ?) && (? || ?)", "(? || ?) && (? || ?)"),
    ("(? && ?) || (? && ?)", "? && ? || ? && ?"),
    ("(? && ?) && (? && ?)", "? && ? && (? && ?)"),
    ("(? || ?) || (? || ?)", "? || ? || (? || ?)"),
    ("((? || ?) && ?) || ?", "(? || ?) && ? || ?"),
    ("!(!(? || ?) && ?)", "!(!(? || ?) && ?)"),
    ("? && (? && (? && ?))", "? && (? && (? && ?))"),
    (
        "x <= 1 && x < 2 || x >= 3 && x > 4 || x == 5 && x != 6",
        "x <= 1 && x < 2 || x >= 3 && x > 4 || x == 5 && x != 6",
    ),
    ("- 1<=x&&x+2>-3", "-1 <= x && x + 2 > -3"),
];

fn text_of(alloc: Global, condition: &str) -> Result<Vec<u8>, Fail> {
    let mut text = Vec::from_slice(alloc, b"vars x;\nassume ")?;
    text.extend_from_slice(condition.as_bytes())?;
    text.extend_from_slice(b";\n")?;
    Ok(text)
}

// Parentheses are printed where they are needed and nowhere else, and what is printed is read back.
#[test]
fn parentheses_of_conditions(rt: HostRuntime) -> Result<(), Fail> {
    let mut failed = false;
    for (condition, wanted) in &CONDITIONS {
        let text = text_of(rt.alloc(), condition)?;
        let got = printed(rt.alloc(), &text)?;
        let text = text_of(rt.alloc(), wanted)?;
        if got.as_slice() != text.as_slice() {
            println!(rt; "{condition}: wanted {wanted}, got {}", shown(&got))?;
            failed = true;
        }
        let again = printed(rt.alloc(), &got)?;
        if again.as_slice() != got.as_slice() {
            println!(rt;
                "{condition}: {} is read back as {}",
                shown(&got),
                shown(&again)
            )?;
            failed = true;
        }
    }
    assert!(rt; !failed);
    Ok(())
}

// A condition of 100 atoms with `&&` between them is printed with no parenthesis, as it was read.
#[test]
fn hundred_atoms(rt: HostRuntime) -> Result<(), Fail> {
    let alloc = rt.alloc();
    let mut text = Vec::from_slice(alloc, b"vars x;\nassume x <= 1")?;
    for _ in 0..99 {
        text.extend_from_slice(b" && x <= 1")?;
    }
    text.extend_from_slice(b";\n")?;
    let got = printed(alloc, &text)?;
    assert!(rt; got.as_slice() == text.as_slice());
    Ok(())
}
