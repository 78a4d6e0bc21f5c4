//! All lines behind the program.
ghost use Rattle.std.specs.Prelude.{◌≡◌, ◌≤◌, ◌<◌, IfOk, length};
ghost use Rattle.trop_text.specs.Pieces.{pieces_left};
ghost use Rattle.trop_reading.specs.Gives.{Gives};
ghost use Rattle.report_texts.specs.Bodies.{body_at};
ghost use Rattle.report_reading.specs.Progress.{progress_of, body_of, outcome_of};
ghost use Rattle.report_reading.specs.Bodies.{step_at};

use crate::lines::read_line;
use crate::progress::{Body, Outcome, Progress};
use crate::steps::line_last;
use prog_graph::Points;
use std::alloc::Global;
use trop_reading::ReadErr;
use trop_spelling::Spelling;
use trop_text::{FaultKind, Names, Pieces};

// A line more. One with which no report has these lines is refused at its end.
#[tactic(auto, using(crate::proofs::Bodies::step_taken, crate::proofs::Bodies::step_against, crate::proofs::Bodies::step_failed, crate::proofs::Bodies::line_shorter))]
fn step<'a, S: Spelling>(
    alloc: Global,
    names: &Names,
    points: &Points,
    numbers: &[u32],
    progress: Progress<S>,
    at: Pieces<'a>,
) -> Result<(Outcome<S>, Pieces<'a>), ReadErr<'a>>
    requires { length names.now ≤ 63 }
    ensures gives { Gives (λ x. (outcome_of x.0, pieces_left x.1)) result
        (step_at S.KIND S.ring S.numbering names.now points.now numbers.now (progress_of progress)
        (pieces_left at.entry)) }
    ensures shorter { IfOk result (λ x. length (pieces_left x.1) < length (pieces_left at.entry)) }
{
    let (line, rest) = read_line(alloc, names, &progress.place, at)?;
    match progress.after(alloc, points, numbers, line)? {
        Some(outcome) => Ok((outcome, rest)),
        None => Err(ReadErr::Wrong(FaultKind::ReportFault, line_last(at, rest))),
    }
}

/// The lines, up to the last `end` with the end of its line.
pub(crate) fn body<'a, S: Spelling>(
    alloc: Global,
    names: &Names,
    points: &Points,
    numbers: &[u32],
    at: Pieces<'a>,
) -> Result<(Body<S>, Pieces<'a>), ReadErr<'a>>
    requires { length names.now ≤ 63 }
    ensures { Gives (λ x. (body_of x.0, pieces_left x.1)) result
        (body_at S.KIND S.ring S.numbering names.now points.now numbers.now (pieces_left at.entry)) }
{
    let mut progress = Progress::start(alloc);
    let mut rest = at;
    'lines: loop {
        let (outcome, after) = step(alloc, names, points, numbers, progress, rest)?;
        rest = after;
        match outcome {
            Outcome::Further(next) => {
                progress = next;
            }
            Outcome::Whole(body) => return Ok((body, rest)),
        }
    }
}
