use super::reading::read;
use super::sample::SAMPLE;
use std::test::Fail;
use trop_text::Fault;

// Behind each of its lines but the last, one more is wanted.
#[test]
fn fronts_of_lines(rt: HostRuntime) -> Result<(), Fail> {
    let alloc = rt.alloc();
    let mut text = Vec::new(alloc);
    let mut number = 0;
    let mut failed = false;
    for line in SAMPLE.split('\n') {
        if number < 1000 {
            number += 1;
        }
        let got = read(alloc, &text)?;
        let wanted = if number == 106 {
            None
        } else {
            Some(Fault::Syntax {
                line: number,
                column: 1,
            })
        };
        if got != wanted {
            println!(rt; "before line {number}: wanted {wanted:?}, got {got:?}")?;
            failed = true;
        }
        text.extend_from_slice(line.as_bytes())?;
        text.extend_from_slice(b"\n")?;
    }
    assert!(rt; !failed);
    assert!(rt; number == 106);
    Ok(())
}

// No front is read but the one that lacks the end of the last line alone.
#[test]
fn fronts_of_bytes(rt: HostRuntime) -> Result<(), Fail> {
    let alloc = rt.alloc();
    let mut text = Vec::new(alloc);
    let mut whole = 0;
    for byte in SAMPLE.as_bytes() {
        if read(alloc, &text)?.is_none() {
            whole = text.len();
        }
        text.push(*byte)?;
    }
    assert!(rt; whole < text.len());
    assert!(rt; text.len() - whole == 1);
    Ok(())
}
