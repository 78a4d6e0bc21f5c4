//! The lines so far, and which line may stand behind them.
ghost use Rattle.std.specs.Prelude.{◌≡◌};
ghost use Rattle.trop_reading.specs.Gives.{Passed};
ghost use Rattle.prog_graph.specs.Views.{point_of};
ghost use Rattle.report_texts.specs.Progress as spec;
ghost use Rattle.report_reading.specs.Places.{place_of, open_place, judges};

use prog_graph::Point;
use trop_row::{Ineq, Row};
use trop_scalar::Scalar;
use trop_text::FaultKind;

// The most rows, and the most inequalities, of one block.
pub(crate) const MOST_LINES: usize = 4096;

// What is said of one point.
#[derive(Drop)]
pub(crate) struct Block<S: Scalar> {
    pub(crate) point: Point,
    pub(crate) rows: Vec<Row<S>>,
    pub(crate) invs: Vec<Ineq<S>>,
}

// The verdict on one assert, with the number of its statement.
#[derive(Clone, Copy)]
pub(crate) struct Judged {
    pub(crate) number: u32,
    pub(crate) proved: bool,
}

// Where the lines so far end.
#[derive(Drop)]
pub(crate) enum Place<S: Scalar> {
    // Before the first block.
    Outside,
    // In a block, which has no inequality before its first row.
    Open(Block<S>),
    // Behind `unreachable`.
    Shut(Point),
    // Behind verdicts, of which this is the first.
    Judging(Judged, Vec<Judged>),
}

impl<S: Scalar> Place<S> {
    // Whether it is behind a verdict.
    pub(crate) fn is_judging(&self) -> bool
        ensures { result ≡ judges (place_of self.now) }
    {
        match self {
            Place::Judging(_, _) => true,
            Place::Outside => false,
            Place::Open(_) => false,
            Place::Shut(_) => false,
        }
    }

    // Whether `unreachable` may begin the next line.
    pub(crate) fn may_shut(&self) -> Result<(), FaultKind>
        ensures { Passed (λ u. tt) result (spec.may_shut (place_of self.now)) }
    {
        match self {
            Place::Outside => Err(FaultKind::Syntax),
            Place::Judging(_, _) => Err(FaultKind::Syntax),
            Place::Open(_) => Ok(()),
            Place::Shut(_) => Ok(()),
        }
    }

    // Whether a row may begin the next line.
    pub(crate) fn may_row(&self) -> Result<(), FaultKind>
        ensures { Passed (λ u. tt) result (spec.may_row (place_of self.now)) }
    {
        match self {
            Place::Outside => Err(FaultKind::Syntax),
            Place::Judging(_, _) => Err(FaultKind::Syntax),
            Place::Shut(_) => Ok(()),
            Place::Open(block) => block.may_row(),
        }
    }

    // Whether an inequality may begin the next line.
    pub(crate) fn may_inv(&self) -> Result<(), FaultKind>
        ensures { Passed (λ u. tt) result (spec.may_inv (place_of self.now)) }
    {
        match self {
            Place::Outside => Err(FaultKind::Syntax),
            Place::Judging(_, _) => Err(FaultKind::Syntax),
            Place::Shut(_) => Ok(()),
            Place::Open(block) => block.may_inv(),
        }
    }
}

impl<S: Scalar> Block<S> {
    // Whether a row may begin the next line.
    #[tactic(auto, using(crate::proofs::Transitions::may_row_first, crate::proofs::Transitions::may_row_late, crate::proofs::Transitions::may_row_more, crate::proofs::Transitions::may_row_full))]
    fn may_row(&self) -> Result<(), FaultKind>
        ensures { Passed (λ u. tt) result
            (spec.may_row (open_place (point_of self.now.point) self.now.rows.items self.now.invs.items)) }
    {
        if self.rows.len() == 0 {
            Ok(())
        } else if self.invs.len() != 0 {
            Err(FaultKind::Syntax)
        } else if self.rows.len() < MOST_LINES {
            Ok(())
        } else {
            Err(FaultKind::TooManyLines)
        }
    }

    // Whether an inequality may begin the next line.
    #[tactic(auto, using(crate::proofs::Transitions::may_inv_first, crate::proofs::Transitions::may_inv_more, crate::proofs::Transitions::may_inv_full))]
    fn may_inv(&self) -> Result<(), FaultKind>
        ensures { Passed (λ u. tt) result
            (spec.may_inv (open_place (point_of self.now.point) self.now.rows.items self.now.invs.items)) }
    {
        if self.rows.len() == 0 || self.invs.len() < MOST_LINES {
            Ok(())
        } else {
            Err(FaultKind::TooManyLines)
        }
    }
}
