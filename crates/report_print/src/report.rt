//! Reports.
ghost use Rattle.std.specs.Prelude.{◌≡◌, ◌++◌, IfOk};
ghost use Rattle.trop_text.specs.Pieces.{pieces_of};
ghost use Rattle.prog_texts.specs.Suits.{SuitsBlock};
ghost use Rattle.report_texts.specs.Limits.{greatest_entry};
ghost use Rattle.report_texts.specs.Modes.{rule_of};
ghost use Rattle.report_texts.specs.Reports.{IsReportWithin};
ghost use Rattle.report_texts.specs.Texts.{SpellsReport};
ghost use Rattle.report_texts.specs.Printed.{printed_report};
ghost use Rattle.report_value.specs.Kept.{IsKept};
ghost use Rattle.report_value.specs.Texts.{text_of};
ghost use Rattle.report_print.specs.Texts.{report_text};

use crate::NoMemory;
use crate::blocks::push_blocks;
use crate::head::push_head;
use prog_print::push_program;
use report_lines::push_verdicts;
use report_value::{AnyReport, Report};
use std::alloc::Global;
use trop_spelling::Spelling;

// The report over one semiring as it is printed.
fn print_over<S: Spelling>(alloc: Global, report: &Report<S>) -> Result<Vec<u8>, NoMemory>
    ensures text { IfOk result (λ text. text.items ≡ report_text S.KIND S.numbering report.now) }
    ensures keeps { IsKept S.ring S.numbering report.now }
{
    let mut text = Vec::new(alloc);
    push_head::<S>(&mut text, report.delay(), report.narrow(), report.passes())?;
    push_program(&mut text, report.program())?;
    text.extend_from_slice(b"end\n")?;
    push_blocks(&mut text, report)?;
    push_verdicts(&mut text, alloc, report.program(), report.verdicts())?;
    text.extend_from_slice(b"end\n")?;
    Ok(text)
}

/// The report as it is printed, in version 2. Where its rows may stand in a text, and the words of its asserts in its
/// mode, it is read back to the same report.
///
/// Errors: want of memory.
pub fn print_report(alloc: Global, report: &AnyReport) -> Result<Vec<u8>, NoMemory>
    ensures text { IfOk result (λ text. text.items ≡ printed_report (text_of report.now)) }
    ensures read_back { IsReportWithin greatest_entry (text_of report.now) →
        SuitsBlock (rule_of (text_of report.now).mode) (text_of report.now).program.body →
        IfOk result (λ text. SpellsReport (pieces_of text.items) (text_of report.now)) }
{
    match report {
        AnyReport::Max(report) => print_over(alloc, report),
        AnyReport::Min(report) => print_over(alloc, report),
    }
}
