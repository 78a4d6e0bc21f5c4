//! The check of a report.
ghost use Rattle.std.specs.Prelude.{◌≡◌, ◌↔◌, ℕ, IsTrue, IfOk};
ghost use Rattle.cone_reports.specs.Inductive.{IsWhole, Stays, IsValidAt};
ghost use Rattle.cone_reports.specs.Verdicts as theory;
ghost use Rattle.cone_reports.specs.Verdicts.{IsVerdict};
ghost use Rattle.report_value.specs.Views.{said};
ghost use Rattle.prog_check.specs.Views.{verdict_of};
ghost use Rattle.prog_check.specs.Truths.{IsTrueAtVisits};

use crate::edges::first_escape;
use crate::points::first_failure;
use crate::verdict::Verdict;
use crate::verdicts::first_wrong;
use crate::whole::is_whole;
use prog_asserts::asserts;
use report_value::Report;
use std::alloc::{AllocError, Global};
use trop_scalar::Numeric;

type NoMemory = AllocError;

// Whether the cone at point 0 is everything.
fn is_whole_report<S: Numeric>(alloc: Global, report: &Report<S>) -> Result<bool, NoMemory>
    ensures { IfOk result (λ whole. IsTrue whole ↔ IsWhole S.ring (said report.now)) }
{
    let _keeps = report.passes();
    is_whole(alloc, &report.part(0).rows)
}

// The verdict where the first three conditions hold.
fn verdict_on_asserts<S: Numeric>(alloc: Global, report: &Report<S>) -> Result<Verdict<S>, NoMemory>
    requires whole { IsWhole S.ring (said report.now) }
    requires stays { Stays S.ring S.numbering S.REVERSED (said report.now) }
    requires valid { (p : ℕ) → IsValidAt S.ring (said report.now) p }
    ensures { IfOk result (λ v. IsVerdict S.ring S.numbering S.REVERSED (said report.now) (verdict_of v)) }
{
    let list = asserts(alloc, report.program(), report.graph())?;
    match first_wrong(report, list.as_slice()) {
        Some(statement) => Ok(Verdict::AssertWrong { statement }),
        None => Ok(Verdict::Inductive),
    }
}

// The verdict where the first two hold.
fn verdict_on_points<S: Numeric>(alloc: Global, report: &Report<S>) -> Result<Verdict<S>, NoMemory>
    requires whole { IsWhole S.ring (said report.now) }
    requires stays { Stays S.ring S.numbering S.REVERSED (said report.now) }
    ensures { IfOk result (λ v. IsVerdict S.ring S.numbering S.REVERSED (said report.now) (verdict_of v)) }
{
    match first_failure(report) {
        Some(failure) => Ok(Verdict::InvFails {
            point: failure.0,
            index: failure.1,
        }),
        None => verdict_on_asserts(alloc, report),
    }
}

// The verdict where the first holds.
fn verdict_on_edges<S: Numeric>(alloc: Global, report: &Report<S>) -> Result<Verdict<S>, NoMemory>
    requires whole { IsWhole S.ring (said report.now) }
    ensures { IfOk result (λ v. IsVerdict S.ring S.numbering S.REVERSED (said report.now) (verdict_of v)) }
{
    let found = first_escape(alloc, report)?;
    match found {
        Some(escape) => Ok(Verdict::Escapes {
            edge: escape.0,
            row: escape.1,
        }),
        None => verdict_on_points(alloc, report),
    }
}

// The verdict on the report.
fn verdict_on<S: Numeric>(alloc: Global, report: &Report<S>) -> Result<Verdict<S>, NoMemory>
    ensures { IfOk result (λ v. IsVerdict S.ring S.numbering S.REVERSED (said report.now) (verdict_of v)) }
{
    let whole = is_whole_report(alloc, report)?;
    if whole {
        verdict_on_edges(alloc, report)
    } else {
        Ok(Verdict::NotWhole)
    }
}

/// Checks the report by its rows alone, with no analysis: that it is inductive, or the first condition that fails. A
/// report has one verdict, and what an inductive report says is true at every visit of every run of its program,
/// whoever wrote it; of a claim, where its words suit the semiring.
pub fn check<S: Numeric>(alloc: Global, report: &Report<S>) -> Result<Verdict<S>, NoMemory>
    ensures verdict { IfOk result (λ v. IsVerdict S.ring S.numbering S.REVERSED (said report.now) (verdict_of v)) }
    ensures unique { IfOk result (λ v. (other : theory.Verdict S) → IsVerdict S.ring S.numbering S.REVERSED
        (said report.now) other → other ≡ verdict_of v) }
    ensures true_at_visits { IfOk result (λ v. verdict_of v ≡ theory.Inductive
        → IsTrueAtVisits S.ring S.numbering S.REVERSED (said report.now)) }
{
    let _keeps = report.passes();
    verdict_on(alloc, report)
}
