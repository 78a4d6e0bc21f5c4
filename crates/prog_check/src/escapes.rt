//! Whether an edge leads out of the cone at its last point.
ghost use Rattle.std.specs.Prelude.{◌≡◌, ◌≤◌, ℕ, List, All, IfOk, MatchOption};
ghost use Rattle.trop_theory.specs.Vectors.{rows_size, AreWide};
ghost use Rattle.trop_theory.specs.Combinations.{IsCombination};
ghost use Rattle.trop_theory.specs.Sizes.{most_entry};
ghost use Rattle.prog_graph.specs.Views.{op_of};
ghost use Rattle.cone_reports.specs.EdgeLists.{IsEdgeList};
ghost use Rattle.cone_reports.specs.Images.{InImage};
ghost use Rattle.cone_reports.specs.Verdicts.{IsFirstWithout};
ghost use Rattle.prog_check.specs.Limits.{most_row};
ghost use Rattle.prog_check.specs.Firsts.{HasFirst, IsOutside};
ghost use Rattle.prog_check.specs.Movable.{IsMovable};

use crate::edge_list::edge_list;
use prog_graph::Op;
use std::alloc::{AllocError, Global};
use trop_row::{Gens, Row, member};
use trop_scalar::{Numeric, Scalar};

type NoMemory = AllocError;

// The first of the rows that is no combination of those of the target.
fn first_outside<S: Scalar>(
    alloc: Global,
    rows: &[Row<S>],
    target: &Gens<S>,
) -> Result<Option<Row<S>>, NoMemory>
    requires wide { AreWide target.now.n rows.now }
    requires size { rows_size S.ring rows.now ≤ most_entry }
    requires target_size { rows_size S.ring target.now.rows ≤ most_row }
    ensures { IfOk result (λ found. MatchOption found
        (All (IsCombination S.ring target.now.n target.now.rows) rows.now)
        (HasFirst (IsCombination S.ring target.now.n target.now.rows) rows.now)) }
{
    for row in rows {
        if !member(target, row) {
            return Ok(Some(row.copy(alloc)?));
        }
    }
    Ok(None)
}

/// The first row of the edge's list that is outside the cone of the target; none where the image of the cone of the
/// source lies in it.
pub(crate) fn escape<S: Numeric>(
    alloc: Global,
    source: &Gens<S>,
    op: &Op,
    target: &Gens<S>,
) -> Result<Option<Row<S>>, NoMemory>
    requires width { target.now.n ≡ source.now.n }
    requires movable { IsMovable S.ring source.now.n (op_of op.now) source.now.rows }
    requires target_size { rows_size S.ring target.now.rows ≤ most_row }
    ensures { IfOk result (λ found. MatchOption found
        ((x : List S) → InImage S.ring S.numbering S.REVERSED source.now.n (op_of op.now)
        (IsCombination S.ring source.now.n source.now.rows) x
        → IsCombination S.ring source.now.n target.now.rows x)
        (IsOutside S.ring S.numbering S.REVERSED source.now.n (op_of op.now) source.now.rows target.now.rows)) }
{
    let _source = source.as_slice();
    let _target = target.as_slice();
    let list = edge_list(alloc, source, op)?;
    first_outside(alloc, list.as_slice(), target)
}
