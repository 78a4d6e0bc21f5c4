use super::reading::read_under;
use prog_lang::AssertRule;
use std::test::Fail;
use trop_text::Fault;

// A program of 40 tokens, with a blank between them. It is whole behind these numbers of tokens.
const PROGRAM: &str =
    "vars x y ; x := y + 1 ; while x < 3 && ! ! ( ? || y >= 2 ) { if ? { skip ; } else { havoc y ; } } skip ;";

const WHOLE: [u32; 4] = [4, 10, 38, 40];

// An end behind each of its tokens.
#[test]
fn early_ends(rt: HostRuntime) -> Result<(), Fail> {
    let alloc = rt.alloc();
    let mut text = Vec::new(alloc);
    let mut tokens = 0;
    let mut failed = false;
    for token in PROGRAM.split(' ') {
        text.extend_from_slice(token.as_bytes())?;
        text.extend_from_slice(b" ")?;
        if tokens < 1000 {
            tokens += 1;
        }
        let got = read_under(alloc, &text, AssertRule::Any)?;
        let wanted = if WHOLE.contains(&tokens) {
            None
        } else {
            Some(Fault::Syntax { line: 2, column: 1 })
        };
        if got != wanted {
            println!(rt; "behind {tokens} tokens: wanted {wanted:?}, got {got:?}")?;
            failed = true;
        }
    }
    assert!(rt; !failed);
    assert!(rt; tokens == 40);
    Ok(())
}
