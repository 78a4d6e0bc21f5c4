//! The asserts of a program, from its statements and the points of its graph.

ghost use Rattle.std.specs.Prelude.{◌≡◌, ◌++◌, ◌≤◌, [], map, length, OnOk, IfOk};
ghost use Rattle.prog_theory.specs.Named.{nameless};
ghost use Rattle.prog_theory.specs.ControlGraphs.{graph_of};
ghost use Rattle.prog_tree.specs.Stmts.{stmt_of};
ghost use Rattle.prog_graph.specs.Views.{point_of};
ghost use Rattle.cone_reports.specs.Asserts as theory;
ghost use Rattle.cone_reports.specs.Asserts.{own_asserts};
ghost use Rattle.prog_asserts.specs.Listed.{shown, asserts_here, asserts_along};
ghost use Rattle.prog_asserts.specs.Views.{assertions};

use crate::NoMemory;
use crate::statements::statements;
use prog_graph::{Graph, Point};
use prog_tree::{Claim, Program, Stmt};
use std::alloc::Global;

/// An assert of a program.
#[derive(Clone, Copy, Drop)]
pub struct Assertion<'a> {
    /// The number of its point in the control graph.
    pub point: u32,
    /// The number of its statement.
    pub number: u32,
    /// What it claims.
    pub claim: &'a Claim,
}

/// Appends the statement where it is an assert.
fn push_own<'a>(
    out: &mut Vec<Assertion<'a>>,
    st: &'a Stmt,
    point: u32,
    number: u32,
) -> Result<(), NoMemory>
    ensures { OnOk result (assertions out.new.items
        ≡ assertions out.old.items ++ own_asserts point number (stmt_of st.now)) }
{
    if let Stmt::Assert(claim) = st {
        out.push(Assertion {
            point,
            number,
            claim,
        })?;
    }
    Ok(())
}

/// Appends the assert at the point, where there is one.
fn push_at<'a>(
    out: &mut Vec<Assertion<'a>>,
    stmts: &[&'a Stmt],
    point: &Point,
    p: u32,
) -> Result<(), NoMemory>
    ensures { OnOk result (assertions out.new.items
        ≡ assertions out.old.items ++ asserts_here p (point_of point.now) (shown stmts.now)) }
{
    match point {
        Point::Statement(k) => match stmts.get(*k as usize) {
            Some(st) => push_own(out, *st, p, *k),
            None => Ok(()),
        },
        Point::Inner => Ok(()),
        Point::Exit => Ok(()),
    }
}

/// The asserts among these statements, the points taken in order.
fn along<'a>(
    alloc: Global,
    points: &[Point],
    stmts: &[&'a Stmt],
) -> Result<Vec<Assertion<'a>>, NoMemory>
    requires { length points.now ≤ 65536 }
    ensures { IfOk result (λ v. assertions v.items
        ≡ asserts_along 0 (map point_of points.now) (shown stmts.now)) }
{
    let mut out = Vec::new(alloc);
    for (p, point) in points.iter().enumerate() {
        push_at(&mut out, stmts, point, p as u32)?;
    }
    Ok(out)
}

/// The asserts of the program, in the order of their numbers. The graph is the program's.
pub fn asserts<'a>(
    alloc: Global,
    program: &'a Program,
    graph: &Graph,
) -> Result<Vec<Assertion<'a>>, NoMemory>
    requires graph { graph.now ≡ graph_of (nameless program.now) }
    ensures all { IfOk result (λ v. assertions v.items ≡ theory.asserts (nameless program.now)) }
{
    let stmts = statements(alloc, program.body())?;
    along(alloc, graph.points().as_slice(), stmts.as_slice())
}
