//! The first edge of a report's program that leads out of the cone at its last point.
ghost use Rattle.std.specs.Prelude.{◌≡◌, IfOk, MatchOption, Contains};
ghost use Rattle.prog_theory.specs.Named.{nameless};
ghost use Rattle.prog_theory.specs.Graph as graph;
ghost use Rattle.prog_graph.specs.Views.{edge_of};
ghost use Rattle.cone_reports.specs.Inductive.{StaysAlong, Stays};
ghost use Rattle.cone_reports.specs.Verdicts.{Leaves};
ghost use Rattle.report_value.specs.Views.{said};
ghost use Rattle.prog_check.specs.Found.{EscapesAt};

use crate::escapes::escape;
use prog_graph::Edge;
use report_value::Report;
use std::alloc::{AllocError, Global};
use trop_row::Row;
use trop_scalar::Numeric;

type NoMemory = AllocError;

// The first row of the edge's list that is outside of the cone at its last point.
fn escape_along<S: Numeric>(
    alloc: Global,
    report: &Report<S>,
    edge: &Edge,
) -> Result<Option<Row<S>>, NoMemory>
    requires { Contains (graph.edges (nameless report.now.program)) (edge_of edge.now) }
    ensures { IfOk result (λ found. MatchOption found
        (StaysAlong S.ring S.numbering S.REVERSED (said report.now) (edge_of edge.now))
        (Leaves S.ring S.numbering S.REVERSED (said report.now) (edge_of edge.now))) }
{
    let _keeps = report.passes();
    let source = report.part(edge.from);
    let target = report.part(edge.to);
    escape(alloc, &source.rows, &edge.op, &target.rows)
}

/// The number of the first edge that leads out of the cone at its last point, and the first row of its list outside.
pub(crate) fn first_escape<S: Numeric>(
    alloc: Global,
    report: &Report<S>,
) -> Result<Option<(u32, Row<S>)>, NoMemory>
    ensures { IfOk result (λ found. MatchOption found (Stays S.ring S.numbering S.REVERSED (said report.now))
        (λ e. EscapesAt S.ring S.numbering S.REVERSED (said report.now) e.0 e.1)) }
{
    let edges = report.graph().edges().as_slice();
    let _keeps = report.passes();
    for (k, edge) in edges.iter().enumerate() {
        let found = escape_along(alloc, report, edge)?;
        if let Some(row) = found {
            return Ok(Some((k as u32, row)));
        }
    }
    Ok(None)
}
