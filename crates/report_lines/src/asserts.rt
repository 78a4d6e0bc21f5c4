//! The verdicts on asserts, by the numbers of their statements.
ghost use Rattle.std.specs.Prelude.{◌≡◌, ◌+◌, ◌<◌, ◌^◌, ◌++◌, OnOk, IfOk, length};
ghost use Rattle.prog_theory.specs.Numbering.{count, counts};
ghost use Rattle.prog_tree.specs.Stmts.{stmt_of};
ghost use Rattle.report_texts.specs.Printed.{verdict_text};
ghost use Rattle.report_texts.specs.Reports.{assert_numbers};
ghost use Rattle.report_lines.specs.AssertNumbers.{numbers_st, numbers_bl};
ghost use Rattle.report_lines.specs.Texts.{verdict_line, verdicts_text};

use crate::NoMemory;
use itoa::Buffer;
use prog_tree::{Block, Program, Stmt};
use std::alloc::Global;

// The numbers of the asserts in a statement that has this number.
#[cycle(numbers)]
fn stmt_numbers(out: &mut Vec<u32>, stmt: &Stmt, number: u32) -> Result<(), NoMemory>
    requires { number + count (stmt_of stmt.now) < 2 ^ 32 }
    ensures { OnOk result (out.new.items ≡ out.old.items ++ numbers_st number (stmt_of stmt.now)) }
{
    match stmt {
        Stmt::Assert(_) => {
            out.push(number)?;
            Ok(())
        }
        Stmt::If(_, a, b) => {
            block_numbers(out, a, number + 1)?;
            block_numbers(out, b, number + 1 + a.count())
        }
        Stmt::While(_, a) => block_numbers(out, a, number + 1),
        _ => Ok(()),
    }
}

// The numbers of the asserts in a block whose first statement has this number.
#[cycle(numbers)]
fn block_numbers(out: &mut Vec<u32>, block: &Block, number: u32) -> Result<(), NoMemory>
    requires { number + counts block.now < 2 ^ 32 }
    ensures { OnOk result (out.new.items ≡ out.old.items ++ numbers_bl number block.now) }
{
    let mut next = number;
    for stmt in &block.stmts {
        stmt_numbers(out, stmt, next)?;
        next += stmt.count();
    }
    Ok(())
}

// The numbers of the asserts of the program, in order.
fn numbers(alloc: Global, program: &Program) -> Result<Vec<u32>, NoMemory>
    ensures { IfOk result (λ v. v.items ≡ assert_numbers program.now) }
{
    let mut out = Vec::new(alloc);
    block_numbers(&mut out, program.body(), 0)?;
    Ok(out)
}

// The word of a verdict.
fn verdict_word(proved: bool) -> &'static [u8]
    ensures { result.now ≡ verdict_text proved }
{
    if proved { b"proved" } else { b"unknown" }
}

// The line of a verdict on the assert of this number.
fn push_verdict(text: &mut Vec<u8>, number: u32, proved: bool) -> Result<(), NoMemory>
    ensures { OnOk result (text.new.items ≡ text.old.items ++ verdict_line number proved) }
{
    text.extend_from_slice(b"assert ")?;
    let mut buffer = Buffer::new();
    text.extend_from_slice(buffer.format(number).as_bytes())?;
    text.push(b' ')?;
    text.extend_from_slice(verdict_word(proved))?;
    text.push(b'\n')?;
    Ok(())
}

// The lines of verdicts on the asserts of these numbers.
fn push_lines(text: &mut Vec<u8>, numbers: &[u32], verdicts: &[bool]) -> Result<(), NoMemory>
    requires { length verdicts.now ≡ length numbers.now }
    ensures { OnOk result (text.new.items ≡ text.old.items ++ verdicts_text numbers.now verdicts.now) }
{
    for k in 0..numbers.len() {
        push_verdict(text, numbers[k], verdicts[k])?;
    }
    Ok(())
}

/// Appends the line of each verdict, which are on the asserts of the program in order.
pub fn push_verdicts(
    text: &mut Vec<u8>,
    alloc: Global,
    program: &Program,
    verdicts: &[bool],
) -> Result<(), NoMemory>
    requires { length verdicts.now ≡ length (assert_numbers program.now) }
    ensures { OnOk result (text.new.items ≡ text.old.items
        ++ verdicts_text (assert_numbers program.now) verdicts.now) }
{
    let numbers = numbers(alloc, program)?;
    push_lines(text, &numbers, verdicts)
}
