//! What is said of each point, and the verdicts, from the lines.
ghost use Rattle.std.specs.Prelude.{◌≡◌, ◌≤◌, ◌^◌, All, IfOk, length, map};
ghost use Rattle.trop_theory.specs.Inequalities.{IsIn};
ghost use Rattle.report_texts.specs.Lines as lines;
ghost use Rattle.report_value.specs.Views.{part_of, parts_of};
ghost use Rattle.report_value.specs.Kept.{IsPartKept, IsPointKept};
ghost use Rattle.report_reading.specs.Places.{block_of, judged_of};
ghost use Rattle.report_reading.specs.Progress.{blocks_of};

use crate::place::{Block, Judged};
use report_value::PointPart;
use std::alloc::{AllocError, Global};
use trop_row::{Gens, Ineq, System};
use trop_scalar::Scalar;

type NoMemory = AllocError;

// The inequalities as a list in n coordinates.
fn system<S: Scalar>(alloc: Global, n: u32, invs: Vec<Ineq<S>>) -> Result<System<S>, NoMemory>
    requires at_least { 1 ≤ n }
    requires at_most { n ≤ 64 }
    requires few { length invs.items ≤ 2 ^ 31 }
    requires wide { All (IsIn n) invs.items }
    ensures width { IfOk result (λ list. list.n ≡ n) }
    ensures same { IfOk result (λ list. list.inequalities ≡ invs.items) }
{
    let mut list = System::new(alloc, n);
    for inv in invs {
        list.push(inv)?;
    }
    Ok(list)
}

// What is said of the point of a block.
fn part<S: Scalar>(alloc: Global, n: u32, block: Block<S>) -> Result<PointPart<S>, NoMemory>
    requires at_least { 1 ≤ n }
    requires at_most { n ≤ 64 }
    requires kept { IsPartKept S.ring S.numbering n (lines.Block.part (block_of block)) }
    ensures kept { IfOk result (IsPointKept S.ring S.numbering n) }
    ensures value { IfOk result (λ p. part_of p ≡ lines.Block.part (block_of block)) }
{
    let Block {
        point: _,
        rows,
        invs,
    } = block;
    let rows = Gens::from_rows(n, rows);
    let invs = system(alloc, n, invs)?;
    Ok(PointPart { rows, invs })
}

/// What is said of each point.
pub(crate) fn parts<S: Scalar>(
    alloc: Global,
    n: u32,
    blocks: Vec<Block<S>>,
) -> Result<Vec<PointPart<S>>, NoMemory>
    requires at_least { 1 ≤ n }
    requires at_most { n ≤ 64 }
    requires kept { All (λ b. IsPartKept S.ring S.numbering n (lines.Block.part (block_of b))) blocks.items }
    ensures kept { IfOk result (λ ps. All (IsPointKept S.ring S.numbering n) ps.items) }
    ensures value { IfOk result (λ ps. parts_of ps.items ≡ map lines.Block.part (blocks_of blocks.items)) }
{
    let mut out = Vec::new(alloc);
    for block in blocks {
        out.push(part(alloc, n, block)?)?;
    }
    Ok(out)
}

/// The verdicts.
pub(crate) fn verdicts(alloc: Global, judged: &[Judged]) -> Result<Vec<bool>, NoMemory>
    ensures { IfOk result (λ bs. bs.items ≡ map lines.Judged.proved (map judged_of judged.now)) }
{
    let mut out = Vec::new(alloc);
    for verdict in judged {
        out.push(verdict.proved)?;
    }
    Ok(out)
}
