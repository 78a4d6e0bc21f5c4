use super::reading::read;
use super::sample::SAMPLE;
use std::alloc::Global;
use std::test::Fail;
use trop_text::Fault;

// The line of the sample in whose place the part stands so many times, and then the last text.
struct Repeated {
    line: u32,
    part: &'static str,
    count: u32,
    last: &'static str,
    wanted: Option<Fault>,
}

fn text_of(alloc: Global, case: &Repeated) -> Result<Vec<u8>, Fail> {
    let mut text = Vec::new(alloc);
    let mut number = 0;
    for line in SAMPLE.split('\n') {
        if number < 1000 {
            number += 1;
        }
        if number == case.line {
            for _ in 0..case.count {
                text.extend_from_slice(case.part.as_bytes())?;
            }
            text.extend_from_slice(case.last.as_bytes())?;
        } else {
            text.extend_from_slice(line.as_bytes())?;
        }
        text.extend_from_slice(b"\n")?;
    }
    Ok(text)
}

// Block 0 has four rows, and block 1 one inequality.
const REPEATED: [Repeated; 6] = [
    Repeated {
        line: 20,
        part: "ray [oo, oo, 0]\n",
        count: 4093,
        last: "# no more",
        wanted: None,
    },
    Repeated {
        line: 20,
        part: "ray [oo, oo, 0]\n",
        count: 4093,
        last: "ray [oo, oo, 0]",
        wanted: Some(Fault::TooManyLines { line: 4116 }),
    },
    Repeated {
        line: 20,
        part: "ray [oo, oo, 0]\n",
        count: 4096,
        last: "ray [oo, oo, oo] x",
        wanted: Some(Fault::TooManyLines { line: 4116 }),
    },
    Repeated {
        line: 29,
        part: "inv ls >= 0\n",
        count: 4096,
        last: "# no more",
        wanted: None,
    },
    Repeated {
        line: 29,
        part: "inv ls >= 0\n",
        count: 4096,
        last: "inv zz >= 0 x",
        wanted: Some(Fault::TooManyLines { line: 4125 }),
    },
    Repeated {
        line: 29,
        part: "inv ls >= 0\n",
        count: 4096,
        last: "ray [oo, oo, oo]",
        wanted: Some(Fault::Syntax {
            line: 4125,
            column: 1,
        }),
    },
];

#[test]
fn limits_of_blocks(rt: HostRuntime) -> Result<(), Fail> {
    let mut failed = false;
    for case in &REPEATED {
        let text = text_of(rt.alloc(), case)?;
        let got = read(rt.alloc(), &text)?;
        if got != case.wanted {
            let (part, last) = (case.part, case.last);
            println!(rt; "{part}..{last}: wanted {:?}, got {got:?}", case.wanted)?;
            failed = true;
        }
    }
    assert!(rt; !failed);
    Ok(())
}
