//! The first point of a report's program with a printed inequality that isn't valid on its cone.
ghost use Rattle.std.specs.Prelude.{◌≡◌, ◌<◌, ℕ, MatchOption, length};
ghost use Rattle.cone_reports.specs.Inductive.{IsValidAt};
ghost use Rattle.report_value.specs.Views.{said};
ghost use Rattle.prog_check.specs.Found.{IsFailureAt, FailsAt};

use crate::validity::first_invalid;
use report_value::Report;
use trop_scalar::Numeric;

// How many points there are.
fn point_count<S: Numeric>(report: &Report<S>) -> u32
    ensures { result ≡ length report.now.parts }
{
    report.parts().len() as u32
}

// The number, from 1, of the first inequality of the point that isn't valid on its cone.
fn failure_at<S: Numeric>(report: &Report<S>, point: u32) -> Option<u32>
    requires { point < length report.now.parts }
    ensures { MatchOption result (IsValidAt S.ring (said report.now) point)
        (IsFailureAt S.ring (said report.now) point) }
{
    let part = report.part(point);
    match first_invalid(&part.invs, &part.rows) {
        Some(k) => Some(k + 1),
        None => None,
    }
}

/// The first point with an inequality that isn't valid on its cone, and the number, from 1, of the first such one.
pub(crate) fn first_failure<S: Numeric>(report: &Report<S>) -> Option<(u32, u32)>
    ensures { MatchOption result ((p : ℕ) → IsValidAt S.ring (said report.now) p)
        (λ f. FailsAt S.ring (said report.now) f.0 f.1) }
{
    for point in 0..point_count(report) {
        if let Some(index) = failure_at(report, point) {
            return Some((point, index));
        }
    }
    None
}
