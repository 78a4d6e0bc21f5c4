//! Rows and inequalities of single lines, and where the lexer then stands.
ghost use Rattle.std.specs.Prelude.{◌≤◌, length};

use row_examples::same_text;
use std::alloc::Global;
use std::test::Fail;
use trop_scalar::{Flag, MaxInt, MinInt};
use trop_spelling::{Spelling, read_ineq, read_row};
use trop_text::{Lexer, Names, TextErr};

// How many elements came or the fault, and the line and the column of the next token.
fn told(alloc: Global, outcome: Result<u32, TextErr>, lexer: &Lexer<'_>) -> Result<String, Fail> {
    let text = match outcome {
        Ok(count) => format!(in alloc; "{count}")?,
        Err(err) => format!(in alloc; "{err}")?,
    };
    Ok(match lexer.copy().next() {
        Some(token) => format!(in alloc; "{text}; then {} {}", token.line, token.column)?,
        None => format!(in alloc; "{text}; then the end")?,
    })
}

// That this is told of a row of so many elements in a lexer's line.
fn reads_row<S: Spelling>(
    alloc: Global,
    lexer: &mut Lexer<'_>,
    line: u32,
    len: u32,
    wanted: &str,
) -> Result<(), Fail>
    requires { len ≤ 64 }
{
    let outcome = match read_row::<S>(alloc, lexer, line, len, 9) {
        Ok(row) => Ok(row.len()),
        Err(err) => Err(err),
    };
    let got = told(alloc, outcome, lexer)?;
    same_text(alloc, "a row", wanted, got.as_str())
}

#[test]
fn rows_of_a_line_and_where_the_lexer_stands(rt: HostRuntime) -> Result<(), Fail> {
    let alloc = rt.alloc();
    let text = b"row [1, - oo] # end\n\n[oo, -9]\n[true] false\n";
    let mut lexer = Lexer::new(text.as_slice());
    let _ = lexer.next();
    reads_row::<MaxInt>(
        alloc,
        &mut lexer,
        1,
        1,
        "line 1, column 7: syntax; then 1 5",
    )?;
    reads_row::<MaxInt>(alloc, &mut lexer, 1, 2, "2; then 3 1")?;
    reads_row::<MinInt>(
        alloc,
        &mut lexer,
        3,
        3,
        "line 3, column 8: syntax; then 3 1",
    )?;
    reads_row::<MinInt>(alloc, &mut lexer, 3, 2, "2; then 4 1")?;
    reads_row::<Flag>(
        alloc,
        &mut lexer,
        4,
        1,
        "line 4, column 8: syntax; then 4 1",
    )
}

// That this is told of the left side of an inequality in a lexer's line.
fn reads_inequality(
    alloc: Global,
    lexer: &mut Lexer<'_>,
    line: u32,
    names: &Names,
    wanted: &str,
) -> Result<(), Fail>
    requires { length names.now ≤ 63 }
{
    let outcome = match read_ineq::<MaxInt>(alloc, lexer, line, names, 9) {
        Ok(ineq) => Ok(ineq.left().len()),
        Err(err) => Err(err),
    };
    let got = told(alloc, outcome, lexer)?;
    same_text(alloc, "an inequality", wanted, got.as_str())
}

#[test]
fn inequalities_of_a_line(rt: HostRuntime) -> Result<(), Fail> {
    let alloc = rt.alloc();
    let mut names = Names::new(alloc);
    names.push(alloc, "x")?;
    let mut lexer = Lexer::new(b"x + 1 <= 9 \n max(x, 0) <= 10\n".as_slice());
    reads_inequality(alloc, &mut lexer, 1, &names, "2; then 2 2")?;
    let range = "line 2: number out of range; then 2 2";
    reads_inequality(alloc, &mut lexer, 2, &names, range)?;
    let mut lexer = Lexer::new(b"x <= x x".as_slice());
    reads_inequality(
        alloc,
        &mut lexer,
        1,
        &names,
        "line 1, column 8: syntax; then 1 1",
    )
}
