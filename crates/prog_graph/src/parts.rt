//! The parts of a control graph.

ghost use Rattle.std.specs.Prelude.{◌≡◌, ◌++◌, map, OnOk};
ghost use Rattle.prog_theory.specs.Edges.{edge_to};
ghost use Rattle.prog_graph.specs.Views.{op_of, edge_of};

use crate::NoMemory;
use prog_tree::Term;

/// What happens to a state along an edge.
#[derive(Clone, Copy, Debug, PartialEq, Eq)]
pub enum Op {
    /// Nothing.
    Skip,
    /// The variable, a coordinate from 1, takes the value of the term.
    Set { var: u32, value: Term },
    /// The variable takes any whole number.
    Havoc { var: u32 },
    /// Nothing, and only where the left term is at most the right one.
    Guard { left: Term, right: Term },
}

/// Where a run can be.
#[derive(Clone, Copy, Debug, PartialEq, Eq)]
pub enum Point {
    /// Before the statement of this number.
    Statement(u32),
    /// Inside a condition.
    Inner,
    /// At the end of the program.
    Exit,
}

/// An edge from a point to a point, both by their numbers.
#[derive(Clone, Copy, Debug, PartialEq, Eq)]
pub struct Edge {
    /// The number of the point where it begins.
    pub from: u32,
    /// The number of the point where it ends.
    pub to: u32,
    /// What happens to a state along it.
    pub op: Op,
}

/// Appends the edge to a target, and none where there is no target.
pub(crate) fn push_edge(
    out: &mut Vec<Edge>,
    from: u32,
    to: Option<u32>,
    op: Op,
) -> Result<(), NoMemory>
    ensures { OnOk result (map edge_of out.new.items ≡ map edge_of out.old.items ++ edge_to from (op_of op) to) }
{
    if let Some(to) = to {
        out.push(Edge { from, to, op })?;
    }
    Ok(())
}
