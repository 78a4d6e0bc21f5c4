//! What the lines read so far come to.
ghost use Rattle.std.specs.Prelude.{◌≡◌, ◌∷◌, ◌++◌, [], map, IfOk};
ghost use Rattle.prog_graph.specs.Views.{point_of};
ghost use Rattle.report_texts.specs.Progress as spec;
ghost use Rattle.report_texts.specs.Bodies as bodies;
ghost use Rattle.report_texts.specs.Lines.{has_finite};
ghost use Rattle.report_reading.specs.Words.{number_in, label_of};
ghost use Rattle.report_reading.specs.Places.{block_of, judged_of, open_place, place_of};
ghost use Rattle.report_reading.specs.Lines.{line_of};
ghost use Rattle.report_reading.specs.Progress.{over, blocks_of, progress_of, body_of, outcome_of, ended_in, more_judged as judged_further, after_verdict, IsPointAt, IsNumberAt};

use crate::lines::Line;
use crate::place::{Block, Judged, MOST_LINES, Place};
use crate::words::{Label, Number};
use prog_graph::{Point, Points};
use std::alloc::{AllocError, Global};
use trop_row::{Ineq, Row};
use trop_scalar::Scalar;

type NoMemory = AllocError;

// The blocks that are ended, and the place.
#[derive(Drop)]
pub(crate) struct Progress<S: Scalar> {
    pub(crate) blocks: Vec<Block<S>>,
    pub(crate) place: Place<S>,
}

// What stands behind the program.
#[derive(Drop)]
pub(crate) struct Body<S: Scalar> {
    pub(crate) blocks: Vec<Block<S>>,
    pub(crate) judged: Vec<Judged>,
}

// What a line comes to.
#[derive(Drop)]
pub(crate) enum Outcome<S: Scalar> {
    // More lines follow.
    Further(Progress<S>),
    // It is the last.
    Whole(Body<S>),
}

// The point at a place of the list, where the label is its own.
fn point_at(points: &Points, k: usize, label: Label<'_>) -> Option<Point>
    ensures { IsPointAt points.now k (label_of label.entry) result }
{
    if k < points.len() {
        let point = points.get(k);
        if label.is(point) { Some(*point) } else { None }
    } else {
        None
    }
}

// The number at a place of the list, where it is this one.
fn number_at(numbers: &[u32], k: usize, number: Number<'_>) -> Option<u32>
    ensures { IsNumberAt numbers.now k (number_in number.entry) result }
{
    if k < numbers.len() {
        if number.is(numbers[k] as u64) {
            Some(numbers[k])
        } else {
            None
        }
    } else {
        None
    }
}

// A block without lines.
fn begun<S: Scalar>(alloc: Global, point: Point) -> Block<S>
    ensures point { result.point ≡ point }
    ensures rows { result.rows.items ≡ [] }
    ensures invs { result.invs.items ≡ [] }
{
    Block {
        point,
        rows: Vec::new(alloc),
        invs: Vec::new(alloc),
    }
}

// The block of the next point, behind these blocks.
#[tactic(auto, using(crate::proofs::Transitions::opened_other, crate::proofs::Transitions::opened_none, crate::proofs::Transitions::opened_next))]
fn opened<S: Scalar>(
    alloc: Global,
    points: &Points,
    blocks: Vec<Block<S>>,
    number: Number<'_>,
    label: Label<'_>,
) -> Option<Progress<S>>
    ensures { over progress_of result ≡
        spec.opened points.now (blocks_of blocks.items) (number_in number.entry) (label_of label.entry) }
{
    let k = blocks.len();
    if !number.is(k as u64) {
        return None;
    }
    match point_at(points, k, label) {
        Some(point) => Some(Progress {
            blocks,
            place: Place::Open(begun(alloc, point)),
        }),
        None => None,
    }
}

// The first verdict, behind these blocks.
#[tactic(auto, using(crate::proofs::Transitions::first_early, crate::proofs::Transitions::first_none, crate::proofs::Transitions::first_next))]
fn first_judged<S: Scalar>(
    alloc: Global,
    points: &Points,
    numbers: &[u32],
    blocks: Vec<Block<S>>,
    number: Number<'_>,
    proved: bool,
) -> Option<Progress<S>>
    ensures { over progress_of result ≡
        spec.first_judged points.now numbers.now (blocks_of blocks.items) (number_in number.entry) proved }
{
    if blocks.len() != points.len() {
        return None;
    }
    match number_at(numbers, 0, number) {
        Some(number) => Some(Progress {
            blocks,
            place: Place::Judging(Judged { number, proved }, Vec::new(alloc)),
        }),
        None => None,
    }
}

// A verdict behind others.
#[tactic(auto, using(crate::proofs::Transitions::more_none, crate::proofs::Transitions::more_next))]
fn more_judged<S: Scalar>(
    numbers: &[u32],
    blocks: Vec<Block<S>>,
    first: Judged,
    more: Vec<Judged>,
    number: Number<'_>,
    proved: bool,
) -> Result<Option<Progress<S>>, NoMemory>
    ensures { IfOk result (λ o. over progress_of o ≡ judged_further numbers.now (blocks_of blocks.items)
        (judged_of first) (map judged_of more.items) (number_in number.entry) proved) }
{
    match number_at(numbers, more.len() + 1, number) {
        Some(number) => {
            let mut more = more;
            more.push(Judged { number, proved })?;
            let place = Place::Judging(first, more);
            Ok(Some(Progress { blocks, place }))
        }
        None => Ok(None),
    }
}

// A row more in the block.
#[tactic(auto, using(crate::proofs::Transitions::row_first, crate::proofs::Transitions::row_more, crate::proofs::Transitions::row_late, crate::proofs::Transitions::row_full))]
fn with_row<S: Scalar>(
    alloc: Global,
    block: Block<S>,
    row: Row<S>,
) -> Result<Option<Place<S>>, NoMemory>
    ensures { IfOk result (λ o. over place_of o ≡ spec.with_row row
        (open_place (point_of block.point) block.rows.items block.invs.items)) }
{
    let Block { point, rows, invs } = block;
    if rows.len() == 0 {
        let mut block = begun(alloc, point);
        block.rows.push(row)?;
        return Ok(Some(Place::Open(block)));
    }
    if invs.len() != 0 || MOST_LINES <= rows.len() {
        return Ok(None);
    }
    let mut rows = rows;
    rows.push(row)?;
    Ok(Some(Place::Open(Block { point, rows, invs })))
}

// An inequality more in the block.
#[tactic(auto, using(crate::proofs::Transitions::inv_early, crate::proofs::Transitions::inv_more, crate::proofs::Transitions::inv_full))]
fn with_inv<S: Scalar>(block: Block<S>, inv: Ineq<S>) -> Result<Option<Place<S>>, NoMemory>
    ensures { IfOk result (λ o. over place_of o ≡ spec.with_inv inv
        (open_place (point_of block.point) block.rows.items block.invs.items)) }
{
    let Block { point, rows, invs } = block;
    if rows.len() == 0 || MOST_LINES <= invs.len() {
        return Ok(None);
    }
    let mut invs = invs;
    invs.push(inv)?;
    Ok(Some(Place::Open(Block { point, rows, invs })))
}

// Whether a vector has a finite element.
fn is_finite<S: Scalar>(row: &Row<S>) -> bool
    ensures { result ≡ has_finite S.numbering row.now }
{
    row.as_slice().iter().any(|x| x.number().is_some())
}

// The verdicts in order.
fn all_judged(first: Judged, more: Vec<Judged>) -> Result<Vec<Judged>, NoMemory>
    ensures { IfOk result (λ all. map judged_of all.items ≡ judged_of first ∷ map judged_of more.items) }
{
    let mut all = more;
    all.insert(0, first)?;
    Ok(all)
}

// The blocks with one more, and no verdict.
fn with_block<S: Scalar>(
    alloc: Global,
    blocks: Vec<Block<S>>,
    block: Block<S>,
) -> Result<Body<S>, NoMemory>
    ensures blocks { IfOk result (λ body. blocks_of body.blocks.items ≡ blocks_of blocks.items ++ block_of block ∷ []) }
    ensures judged { IfOk result (λ body. body.judged.items ≡ []) }
{
    let mut blocks = blocks;
    blocks.push(block)?;
    Ok(Body {
        blocks,
        judged: Vec::new(alloc),
    })
}

// The whole, where it has all blocks and all verdicts.
#[tactic(auto, using(crate::proofs::Transitions::complete_all, crate::proofs::Transitions::complete_early, crate::proofs::Transitions::complete_short))]
fn completed<S: Scalar>(points: &Points, numbers: &[u32], body: Body<S>) -> Option<Body<S>>
    ensures { over body_of result ≡ spec.complete points.now numbers.now (map judged_of body.judged.items)
        (blocks_of body.blocks.items) }
{
    if body.blocks.len() != points.len() {
        return None;
    }
    if body.judged.len() != numbers.len() {
        return None;
    }
    Some(body)
}

// That more lines follow.
fn further<S: Scalar>(progress: Option<Progress<S>>) -> Option<Outcome<S>>
    ensures { over outcome_of result ≡ bodies.further (over progress_of progress) }
{
    match progress {
        Some(progress) => Some(Outcome::Further(progress)),
        None => None,
    }
}

// That the line is the last.
fn whole<S: Scalar>(body: Option<Body<S>>) -> Option<Outcome<S>>
    ensures { over outcome_of result ≡ bodies.whole (over body_of body) }
{
    match body {
        Some(body) => Some(Outcome::Whole(body)),
        None => None,
    }
}

impl<S: Scalar> Progress<S> {
    // Before the first line.
    pub(crate) fn start(alloc: Global) -> Progress<S>
        ensures { progress_of result ≡ spec.start }
    {
        Progress {
            blocks: Vec::new(alloc),
            place: Place::Outside,
        }
    }

    // The blocks with that which the place ends, and the verdicts; none where a block has no line yet.
    #[tactic(auto, using(crate::proofs::Transitions::ended_outside, crate::proofs::Transitions::ended_judging, crate::proofs::Transitions::ended_open, crate::proofs::Transitions::ended_opened))]
    fn ended(self, alloc: Global) -> Result<Option<Body<S>>, NoMemory>
        ensures { IfOk result (λ o. over body_of o ≡ ended_in (blocks_of self.blocks.items) (place_of self.place)) }
    {
        let Progress { blocks, place } = self;
        match place {
            Place::Outside => Ok(Some(Body {
                blocks,
                judged: Vec::new(alloc),
            })),
            Place::Judging(first, more) => Ok(Some(Body {
                blocks,
                judged: all_judged(first, more)?,
            })),
            Place::Shut(point) => {
                let block = begun(alloc, point);
                Ok(Some(with_block(alloc, blocks, block)?))
            }
            Place::Open(block) => {
                if block.rows.len() == 0 {
                    Ok(None)
                } else {
                    Ok(Some(with_block(alloc, blocks, block)?))
                }
            }
        }
    }

    // An `at` line more.
    #[tactic(auto, using(crate::proofs::Transitions::at_judging, crate::proofs::Transitions::at_some, crate::proofs::Transitions::at_none))]
    fn with_at(
        self,
        alloc: Global,
        points: &Points,
        number: Number<'_>,
        label: Label<'_>,
    ) -> Result<Option<Progress<S>>, NoMemory>
        ensures { IfOk result (λ o. over progress_of o ≡ spec.after_at points.now (blocks_of self.blocks.items)
            (place_of self.place) (number_in number.entry) (label_of label.entry)) }
    {
        if self.place.is_judging() {
            return Ok(None);
        }
        match self.ended(alloc)? {
            Some(Body { blocks, judged: _ }) => Ok(opened(alloc, points, blocks, number, label)),
            None => Ok(None),
        }
    }

    // A verdict more.
    #[tactic(auto, using(crate::proofs::Transitions::assert_judging, crate::proofs::Transitions::assert_some, crate::proofs::Transitions::assert_none))]
    fn with_verdict(
        self,
        alloc: Global,
        points: &Points,
        numbers: &[u32],
        number: Number<'_>,
        proved: bool,
    ) -> Result<Option<Progress<S>>, NoMemory>
        ensures { IfOk result (λ o. over progress_of o ≡ spec.after_assert points.now numbers.now
            (blocks_of self.blocks.items) (place_of self.place) (number_in number.entry) proved) }
    {
        if self.place.is_judging() {
            return self.with_further_verdict(numbers, number, proved);
        }
        match self.ended(alloc)? {
            Some(Body { blocks, judged: _ }) => Ok(first_judged(
                alloc, points, numbers, blocks, number, proved,
            )),
            None => Ok(None),
        }
    }

    // A verdict behind others.
    #[tactic(auto, using(crate::proofs::Transitions::verdict_open))]
    fn with_further_verdict(
        self,
        numbers: &[u32],
        number: Number<'_>,
        proved: bool,
    ) -> Result<Option<Progress<S>>, NoMemory>
        ensures { IfOk result (λ o. over progress_of o ≡ after_verdict numbers.now (blocks_of self.blocks.items)
            (place_of self.place) (number_in number.entry) proved) }
    {
        let Progress { blocks, place } = self;
        match place {
            Place::Judging(first, more) => {
                more_judged(numbers, blocks, first, more, number, proved)
            }
            _ => Ok(None),
        }
    }

    // The line `unreachable` more.
    #[tactic(auto, using(crate::proofs::Transitions::shut_first, crate::proofs::Transitions::shut_late))]
    fn with_shut(self) -> Option<Progress<S>>
        ensures { over progress_of result ≡ spec.moved (blocks_of self.blocks.items) (spec.shut (place_of self.place)) }
    {
        let Progress { blocks, place } = self;
        match place {
            Place::Open(block) => {
                if block.rows.len() == 0 {
                    let place = Place::Shut(block.point);
                    Some(Progress { blocks, place })
                } else {
                    None
                }
            }
            _ => None,
        }
    }

    // A row more.
    fn with_row(self, alloc: Global, row: Row<S>) -> Result<Option<Progress<S>>, NoMemory>
        ensures { IfOk result (λ o. over progress_of o ≡
            spec.moved (blocks_of self.blocks.items) (spec.with_row row (place_of self.place))) }
    {
        let Progress { blocks, place } = self;
        match place {
            Place::Open(block) => match with_row(alloc, block, row)? {
                Some(place) => Ok(Some(Progress { blocks, place })),
                None => Ok(None),
            },
            _ => Ok(None),
        }
    }

    // An inequality more.
    fn with_inv(self, inv: Ineq<S>) -> Result<Option<Progress<S>>, NoMemory>
        ensures { IfOk result (λ o. over progress_of o ≡
            spec.moved (blocks_of self.blocks.items) (spec.with_inv inv (place_of self.place))) }
    {
        let Progress { blocks, place } = self;
        match place {
            Place::Open(block) => match with_inv(block, inv)? {
                Some(place) => Ok(Some(Progress { blocks, place })),
                None => Ok(None),
            },
            _ => Ok(None),
        }
    }

    // The whole, where the last `end` may follow.
    #[tactic(auto, using(crate::proofs::Transitions::last_some, crate::proofs::Transitions::last_none))]
    fn last(
        self,
        alloc: Global,
        points: &Points,
        numbers: &[u32],
    ) -> Result<Option<Body<S>>, NoMemory>
        ensures { IfOk result (λ o. over body_of o ≡ spec.final points.now numbers.now (progress_of self)) }
    {
        match self.ended(alloc)? {
            Some(body) => Ok(completed(points, numbers, body)),
            None => Ok(None),
        }
    }

    /// What one line more comes to; none where no report has these lines.
    pub(crate) fn after(
        self,
        alloc: Global,
        points: &Points,
        numbers: &[u32],
        line: Line<'_, S>,
    ) -> Result<Option<Outcome<S>>, NoMemory>
        ensures { IfOk result (λ o. over outcome_of o ≡
            bodies.outcome S.numbering points.now numbers.now (progress_of self) (line_of line.entry)) }
    {
        match line {
            Line::At(number, label) => Ok(further(self.with_at(alloc, points, number, label)?)),
            Line::Unreachable => Ok(further(self.with_shut())),
            Line::Row(row) => {
                if is_finite(&row) {
                    Ok(further(self.with_row(alloc, row)?))
                } else {
                    Ok(None)
                }
            }
            Line::Inv(inv) => Ok(further(self.with_inv(inv)?)),
            Line::Assert(number, proved) => {
                let next = self.with_verdict(alloc, points, numbers, number, proved)?;
                Ok(further(next))
            }
            Line::Last => Ok(whole(self.last(alloc, points, numbers)?)),
        }
    }
}
