//! The list of an edge.
ghost use Rattle.std.specs.Prelude.{◌≡◌, ◌≤◌, IfOk};
ghost use Rattle.trop_theory.specs.Vectors.{rows_size};
ghost use Rattle.trop_theory.specs.Sizes.{most_entry};
ghost use Rattle.prog_graph.specs.Views.{op_of};
ghost use Rattle.cone_reports.specs.EdgeLists.{IsEdgeList};
ghost use Rattle.prog_check.specs.Movable.{IsMovable};

use crate::moved::moved_list;
use cone_claims::has_point;
use prog_graph::Op;
use std::alloc::{AllocError, Global};
use trop_row::Gens;
use trop_scalar::Numeric;

type NoMemory = AllocError;

/// The list of an edge: what its operation makes of the rows, and no row where none of these has a finite coordinate 0.
pub(crate) fn edge_list<S: Numeric>(
    alloc: Global,
    gens: &Gens<S>,
    op: &Op,
) -> Result<Gens<S>, NoMemory>
    requires movable { IsMovable S.ring gens.now.n (op_of op.now) gens.now.rows }
    ensures width { IfOk result (λ out. out.n ≡ gens.now.n) }
    ensures list { IfOk result (λ out. IsEdgeList S.ring S.numbering S.REVERSED gens.now.n (op_of op.now)
        gens.now.rows out.rows) }
    ensures size { IfOk result (λ out. rows_size S.ring out.rows ≤ most_entry) }
{
    let _rows = gens.as_slice();
    let moved = moved_list(alloc, gens, op)?;
    if has_point(&moved) {
        Ok(moved)
    } else {
        Ok(Gens::new(alloc, moved.n()))
    }
}
