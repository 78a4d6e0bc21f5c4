//! Valid files of each kind with changes that are drawn: a byte taken out, put in or exchanged, or two lines exchanged.
//! Each run ends with an answer or with a cause that its command names, and the place of a fault lies in the file or one
//! past its end.
use row_examples::Draws;
use run_examples::{shown, split};
use std::alloc::Global;
use std::test::Fail;
use tplib_cmd::{Status, run};
use trop_io::{SureSink, SureSource};
use trop_text::Fault;

/// A valid file, and the words of a command that reads its kind.
struct Valid {
    words: &'static str,
    text: &'static str,
}

const FILES: [Valid; 14] = [
    Valid {
        words: "reduce",
        text: "kind gens\nsemiring max\nvars x y\n# two points and a ray\npoint [0, -oo]\npoint [3, 1]\nray [0, -7]\n",
    },
    Valid {
        words: "reduce",
        text: "kind gens\r\nsemiring bool\r\nvars a b c\r\nray [true, false, true]\r\npoint [false, true, false]\r\n",
    },
    Valid {
        words: "int",
        text: "kind gens\nsemiring min\nvars x y\npoint [oo, 2]\nray [1, 4]\n\npoint [5, -6]",
    },
    Valid {
        words: "op forget var=y",
        text: "kind gens\nsemiring max\nvars x y z\npoint [1, 2, 3]\nray [0, -oo, 1099511627776]\n",
    },
    Valid {
        words: "ext",
        text: "kind ineqs\nsemiring max\nvars x y z\nmax(x, y + 3) <= max(z - 1, 5)\n0 <= x\ny >= -oo\n",
    },
    Valid {
        words: "ext",
        text: "kind ineqs\nsemiring min\nvars ls ld n\nmin(ls, n) <= min(ld, n)\nls >= ld + 1\n",
    },
    Valid {
        words: "tangent",
        text: "kind at\nsemiring max\nvars x y\nx <= y\ny <= x\nat [-oo, 0, 0]\n",
    },
    Valid {
        words: "op equal",
        text: "kind pair\nsemiring max\nvars x y\npoint [0, 0]\npoint [2, 2]\nand\npoint [1, 1]\nray [0, 1]\n",
    },
    Valid {
        words: "op join",
        text: "kind pair\nsemiring bool\nvars x\npoint [true]\nand\nray [true]\npoint [false]\n",
    },
    Valid {
        words: "op meet",
        text: "kind pair\nsemiring min\nvars x y\npoint [0, 0]\nray [2, oo]\nand\npoint [1, -1]\n",
    },
    Valid {
        words: "trace turns=50",
        text: "vars i n;\nassume n >= 0 && i <= n;\nwhile i < n { i := i + 1; havoc n; }\nif ? { skip; } else { assert max(i, 3) <= n; }\nstart [0, 2]\nchoices [1, 5]\n",
    },
    Valid {
        words: "trace turns=9",
        text: "vars x; x := 3; while x > 0 || ? { x := x - 1; } assert x = 0; start [-7] choices []",
    },
    Valid {
        words: "analyze mode=min narrow=1",
        text: "vars i n;\ni := 0;\nwhile i < n || ? {\n  i := i + 1;\n}\nif n >= 3 { havoc i; } else { assume i <= n; }\nassert min(i, n) <= n;\n",
    },
    Valid {
        words: "check",
        text: "report 2\nmode max\ndelay 2\nnarrow 0\npasses 1\nprogram\nvars x;\nassume x <= 3;\nassert x <= 4;\nend\nat 0 statement 0\nray [0]\npoint [-oo]\nat 1 statement 1\npoint [-oo]\npoint [3]\ninv x <= 3\nat 2 exit\npoint [-oo]\npoint [3]\ninv x <= 3\nassert 1 proved\nend\n",
    },
];

/// How often each file is altered, by one to four changes.
const TIMES: u32 = 1_000;

// The text with a byte taken out, put in or exchanged.
fn with_other_byte(alloc: Global, draws: &mut Draws, text: &[u8]) -> Result<Vec<u8>, Fail> {
    let place = draws.next() as usize % text.len().max(1);
    let how = draws.next() % 3;
    let byte = likely_byte(draws);
    let mut altered = Vec::new(alloc);
    for (at, old) in text.iter().enumerate() {
        if at != place || how == 0 {
            altered.push(*old)?;
        }
        if at == place && how != 1 {
            altered.push(byte)?;
        }
    }
    Ok(altered)
}

// Half of the bytes that are drawn are those of the formats.
fn likely_byte(draws: &mut Draws) -> u8 {
    let draw = draws.next() as usize;
    let bytes: &[u8] = b"\n\r\t #[](),+-<>=0179ax_o\"";
    match bytes.get(draw / 2 % bytes.len().max(1)) {
        Some(byte) if draw % 2 == 0 => *byte,
        _ => (draw / 2 % 256) as u8,
    }
}

// The text with two of its lines exchanged.
fn with_lines_exchanged(alloc: Global, draws: &mut Draws, text: &[u8]) -> Result<Vec<u8>, Fail> {
    let lines = lines_of(alloc, text)?;
    let count = lines.len().max(1);
    let one = draws.next() as usize % count;
    let other = draws.next() as usize % count;
    let mut altered = Vec::new(alloc);
    for at in 0..lines.len() {
        let from = match at {
            _ if at == one => other,
            _ if at == other => one,
            _ => at,
        };
        if let Some(line) = lines.get(from) {
            altered.extend_from_slice(line)?;
        }
    }
    Ok(altered)
}

// The lines of the text with their ends, and what stands behind the last end.
fn lines_of(alloc: Global, text: &[u8]) -> Result<Vec<Vec<u8>>, Fail> {
    let mut lines = Vec::new(alloc);
    let mut line = Vec::new(alloc);
    for byte in text {
        line.push(*byte)?;
        if *byte == b'\n' {
            lines.push(line)?;
            line = Vec::new(alloc);
        }
    }
    lines.push(line)?;
    Ok(lines)
}

fn altered(alloc: Global, draws: &mut Draws, text: &[u8]) -> Result<Vec<u8>, Fail> {
    let mut altered = Vec::from_slice(alloc, text)?;
    for _ in 0..draws.next() % 4 + 1 {
        altered = if draws.next() % 4 == 0 {
            with_lines_exchanged(alloc, draws, &altered)?
        } else {
            with_other_byte(alloc, draws, &altered)?
        };
    }
    Ok(altered)
}

fn line_of(fault: Fault) -> u32 {
    match fault {
        Fault::Syntax { line, .. }
        | Fault::NumberRange { line }
        | Fault::UnknownName { line }
        | Fault::DuplicateName { line }
        | Fault::TooManyVars { line }
        | Fault::TooManyLines { line }
        | Fault::WrongKind { line }
        | Fault::TooManyStatements { line }
        | Fault::TooManyAtoms { line }
        | Fault::TooDeep { line }
        | Fault::AssertMode { line }
        | Fault::ReportFault { line } => line,
    }
}

fn column_of(fault: Fault) -> u32 {
    match fault {
        Fault::Syntax { column, .. } => column,
        _ => 1,
    }
}

// Whether the fault stands at a byte of the text, or one past a line's last byte, or in the first place of the line behind
// the last.
fn is_inside(alloc: Global, fault: Fault, text: &[u8]) -> Result<bool, Fail> {
    let lines = lines_of(alloc, text)?;
    let (line, column) = (line_of(fault) as usize, column_of(fault) as usize);
    if line == 0 || column == 0 {
        return Ok(false);
    }
    match lines.get(line.wrapping_sub(1)) {
        Some(bytes) => Ok(column.wrapping_sub(1) <= bytes.len()),
        None => Ok(line.wrapping_sub(1) == lines.len() && column == 1),
    }
}

// What is wrong with such an end over streams that do not fail, with words that are right and memory at hand: that no
// command names it, or that the fault stands nowhere in the text.
fn objection(alloc: Global, status: Status, text: &[u8]) -> Result<Option<String>, Fail> {
    match status {
        Status::Done | Status::No | Status::Limit(_) | Status::Range(_) => Ok(None),
        Status::Text(fault) => {
            if is_inside(alloc, fault, text)? {
                return Ok(None);
            }
            Ok(Some(format!(in alloc; "{fault}, which is no place of the text")?))
        }
        _ => Ok(Some(format!(in alloc; "{status:?}")?)),
    }
}

fn status_of(alloc: Global, words: &[String], text: &[u8]) -> Result<Status, Fail> {
    let mut input = SureSource::new(Vec::from_slice(alloc, text)?, 4096);
    Ok(run(
        alloc,
        words,
        &mut input,
        &mut SureSink::new(),
        &mut SureSink::new(),
    ))
}

// How many of the altered files are refused, if each run ends as it may.
fn refused(alloc: Global, draws: &mut Draws, valid: &Valid) -> Result<u32, Fail> {
    let words = split(alloc, valid.words)?;
    let mut count = 0u32;
    for _ in 0..TIMES {
        let text = altered(alloc, draws, valid.text.as_bytes())?;
        let status = status_of(alloc, &words, &text)?;
        if let Some(wrong) = objection(alloc, status, &text)? {
            return Err(Fail::new(format!(in alloc;
                "tplib {} ended with {wrong} on {}",
                valid.words,
                shown(&text)
            )?));
        }
        if matches!(status, Status::Text(_)) {
            count = count.wrapping_add(1);
        }
    }
    Ok(count)
}

#[test]
fn altered_files(rt: HostRuntime) -> Result<(), Fail> {
    let alloc = rt.alloc();
    let mut draws = Draws::from_seed(1);
    for valid in &FILES {
        let status = status_of(alloc, &split(alloc, valid.words)?, valid.text.as_bytes())?;
        assert!(rt;
            matches!(status, Status::Done | Status::No),
            "{} ended with {status:?}",
            valid.words
        );
        let refused = refused(alloc, &mut draws, valid)?;
        assert!(rt;
            0 < refused && refused < TIMES,
            "{}: {refused} of {TIMES} are refused",
            valid.words
        );
    }
    Ok(())
}
