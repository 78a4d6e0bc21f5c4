//! The edges into each point.

ghost use Rattle.std.specs.Prelude.{◌≡◌, ◌<◌, ◌≤◌, ◌^◌, [], All, length, IfOk};
ghost use Rattle.prog_graph.specs.Into.{AreInto, targets, numbers_of};

use crate::NoMemory;
use crate::parts::Edge;
use std::alloc::Global;

/// So many empty lists.
fn empty_lists(alloc: Global, count: usize) -> Result<Vec<Vec<u32>>, NoMemory>
    ensures { IfOk result (λ v. AreInto (numbers_of v.items) count (targets [])) }
{
    let mut lists = Vec::new(alloc);
    for _ in 0..count {
        lists.push(Vec::new(alloc))?;
    }
    Ok(lists)
}

/// For each of so many points the numbers of the edges to it, ascending.
pub(crate) fn edges_into(
    alloc: Global,
    count: usize,
    edges: &[Edge],
) -> Result<Vec<Vec<u32>>, NoMemory>
    requires few { length edges.now ≤ 65536 }
    requires inside { All (λ e. e.to < count) edges.now }
    ensures { IfOk result (λ v. AreInto (numbers_of v.items) count (targets edges.now)) }
{
    let mut lists = empty_lists(alloc, count)?;
    for (k, edge) in edges.iter().enumerate() {
        lists[edge.to as usize].push(k as u32)?;
    }
    Ok(lists)
}
