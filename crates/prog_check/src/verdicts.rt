//! Whether the verdicts on the asserts of a report's program are right.
ghost use Rattle.std.specs.Prelude.{◌≡◌, ◌≤◌, ◌↔◌, true, IsTrue, MatchOption, Contains};
ghost use Rattle.std.specs.List.{AllZip};
ghost use Rattle.trop_theory.specs.Vectors.{rows_size};
ghost use Rattle.trop_theory.specs.Combinations.{IsCombination};
ghost use Rattle.prog_theory.specs.Named.{nameless};
ghost use Rattle.prog_tree.specs.Claims.{claim_of};
ghost use Rattle.cone_reports.specs.Asserts as theory;
ghost use Rattle.cone_reports.specs.Inductive.{IsRight};
ghost use Rattle.prog_asserts.specs.Views.{assertion_of, assertions};
ghost use Rattle.report_value.specs.Views.{said};
ghost use Rattle.prog_check.specs.Found.{WrongAt};
ghost use Rattle.cone_reports.specs.Readings.{IsProvenOn};
ghost use Rattle.cone_claims.specs.Terms.{IsClaimOn};
ghost use Rattle.prog_check.specs.Limits.{most_row};

use cone_claims::proven_by;
use prog_asserts::Assertion;
use prog_tree::Claim;
use report_value::Report;
use trop_row::Gens;
use trop_scalar::Numeric;

// Whether the verdict, true for proved, says whether the claim is proven on the cone of the rows.
fn is_right<S: Numeric>(rows: &Gens<S>, claim: &Claim, proved: bool) -> bool
    requires fits { IsClaimOn rows.now.n (claim_of claim.now) }
    requires size { rows_size S.ring rows.now.rows ≤ most_row }
    ensures { IsTrue result ↔ ((proved ≡ true) ↔ IsProvenOn S.ring S.numbering S.REVERSED rows.now.n
        (IsCombination S.ring rows.now.n rows.now.rows) (claim_of claim.now)) }
{
    proven_by(rows, claim) == proved
}

// Whether the verdict on the assert is right.
fn is_right_at<S: Numeric>(report: &Report<S>, assertion: Assertion, proved: bool) -> bool
    requires { Contains (theory.asserts (nameless report.now.program)) (assertion_of assertion) }
    ensures { IsTrue result ↔ IsRight S.ring S.numbering S.REVERSED (said report.now)
        (assertion_of assertion.entry) proved }
{
    let _keeps = report.passes();
    is_right(&report.part(assertion.point).rows, assertion.claim, proved)
}

/// The number of the first assert whose verdict is wrong.
pub(crate) fn first_wrong<S: Numeric>(report: &Report<S>, asserts: &[Assertion]) -> Option<u32>
    requires { assertions asserts.now ≡ theory.asserts (nameless report.now.program) }
    ensures { MatchOption result
        (AllZip (IsRight S.ring S.numbering S.REVERSED (said report.now)) (theory.asserts (nameless report.now.program))
        report.now.verdicts)
        (WrongAt S.ring S.numbering S.REVERSED (said report.now)) }
{
    let verdicts = report.verdicts();
    for (k, assertion) in asserts.iter().enumerate() {
        if !is_right_at(report, *assertion, verdicts[k]) {
            return Some(assertion.number);
        }
    }
    None
}
