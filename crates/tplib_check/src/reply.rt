//! What is answered on a report.
ghost use Rattle.std.specs.Prelude.{◌≡◌, IfOk};
ghost use Rattle.report_texts.specs.Modes.{is_reversed};
ghost use Rattle.report_texts.specs.Reports.{said_by};
ghost use Rattle.report_value.specs.Texts.{text_of};
ghost use Rattle.report_value.specs.Views.{said};
ghost use Rattle.prog_check.specs.Views.{verdict_of};
ghost use Rattle.tplib_check.specs.Lines.{says_inductive};
ghost use Rattle.tplib_check.specs.Words.{HasSuitableWords};
ghost use Rattle.tplib_check.specs.Answers.{IsVerdictReply, IsCheckAnswer};

use crate::verdict_text::verdict_text;
use prog_check::{Verdict, check};
use report_value::{AnyReport, Report};
use std::alloc::{AllocError, Global};
use tplib_reply::Reply;
use trop_scalar::Numeric;
use trop_spelling::Spelling;

/// Whether the report is inductive, and the line of the verdict on it. The words of its asserts are those of its mode.
pub(crate) fn report_reply(alloc: Global, report: &AnyReport) -> Result<Reply, AllocError>
    requires words { HasSuitableWords (is_reversed (text_of report.now).mode) (said_by (text_of report.now)).program }
    ensures { IfOk result (λ reply. IsCheckAnswer (text_of report.now) reply.yes reply.text.items) }
{
    match report {
        AnyReport::Max(report) => verdict_reply(alloc, report),
        AnyReport::Min(report) => verdict_reply(alloc, report),
    }
}

// Whether the verdict on the report is that it is inductive, and the line of the verdict.
fn verdict_reply<S: Numeric + Spelling>(
    alloc: Global,
    report: &Report<S>,
) -> Result<Reply, AllocError>
    requires words { HasSuitableWords S.REVERSED (said report.now).program }
    ensures { IfOk result (λ reply. IsVerdictReply S.KIND S.ring S.numbering S.REVERSED (said report.now)
        reply.yes reply.text.items) }
{
    let verdict = check(alloc, report)?;
    let text = verdict_text(alloc, &verdict)?;
    Ok(Reply {
        yes: is_inductive(&verdict),
        text,
    })
}

// Whether it is the verdict that the report is inductive.
fn is_inductive<S: Numeric>(verdict: &Verdict<S>) -> bool
    ensures { result ≡ says_inductive (verdict_of verdict.now) }
{
    match verdict {
        Verdict::Inductive => true,
        Verdict::NotWhole => false,
        Verdict::Escapes { .. } => false,
        Verdict::InvFails { .. } => false,
        Verdict::AssertWrong { .. } => false,
    }
}
