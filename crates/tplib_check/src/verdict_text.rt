//! The line of a verdict.
ghost use Rattle.std.specs.Prelude.{◌≡◌, ◌++◌, decimal, OnOk, IfOk};
ghost use Rattle.prog_check.specs.Views.{verdict_of};
ghost use Rattle.tplib_check.specs.Lines.{escape_line, failure_line, wrong_line, verdict_line};

use itoa::Buffer;
use prog_check::Verdict;
use std::alloc::{AllocError, Global};
use trop_row::Row;
use trop_spelling::{Spelling, push_row};

// The number in decimal.
fn push_number(text: &mut Vec<u8>, n: u32) -> Result<(), AllocError>
    ensures { OnOk result (text.new.items ≡ text.old.items ++ decimal n) }
{
    let mut buffer = Buffer::new();
    text.extend_from_slice(buffer.format(n).as_bytes())
}

// The line of an edge with the row that is outside.
fn escape_text<S: Spelling>(alloc: Global, edge: u32, row: &Row<S>) -> Result<Vec<u8>, AllocError>
    ensures { IfOk result (λ text. text.items ≡ escape_line S.KIND S.numbering edge row.now) }
{
    let mut text = Vec::from_slice(alloc, b"escapes edge ")?;
    push_number(&mut text, edge)?;
    text.extend_from_slice(b" row ")?;
    push_row(&mut text, row.as_slice())?;
    text.push(b'\n')?;
    Ok(text)
}

// The line of an inequality that fails.
fn failure_text(alloc: Global, point: u32, index: u32) -> Result<Vec<u8>, AllocError>
    ensures { IfOk result (λ text. text.items ≡ failure_line point index) }
{
    let mut text = Vec::from_slice(alloc, b"invariant fails point ")?;
    push_number(&mut text, point)?;
    text.extend_from_slice(b" number ")?;
    push_number(&mut text, index)?;
    text.push(b'\n')?;
    Ok(text)
}

// The line of an assert whose verdict is wrong.
fn wrong_text(alloc: Global, statement: u32) -> Result<Vec<u8>, AllocError>
    ensures { IfOk result (λ text. text.items ≡ wrong_line statement) }
{
    let mut text = Vec::from_slice(alloc, b"assert wrong statement ")?;
    push_number(&mut text, statement)?;
    text.push(b'\n')?;
    Ok(text)
}

/// The line of the verdict.
pub(crate) fn verdict_text<S: Spelling>(
    alloc: Global,
    verdict: &Verdict<S>,
) -> Result<Vec<u8>, AllocError>
    ensures { IfOk result (λ text. text.items ≡ verdict_line S.KIND S.numbering (verdict_of verdict.now)) }
{
    match verdict {
        Verdict::Inductive => Vec::from_slice(alloc, b"inductive\n"),
        Verdict::NotWhole => Vec::from_slice(alloc, b"not whole\n"),
        Verdict::Escapes { edge, row } => escape_text(alloc, *edge, row),
        Verdict::InvFails { point, index } => failure_text(alloc, *point, *index),
        Verdict::AssertWrong { statement } => wrong_text(alloc, *statement),
    }
}
