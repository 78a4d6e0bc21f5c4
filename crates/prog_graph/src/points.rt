//! The points of statements and blocks.

ghost use Rattle.std.specs.Prelude.{◌≡◌, ◌∷◌, ◌++◌, ◌+◌, ◌<◌, ◌^◌, [], map, replicate, OnOk, IfOk};
ghost use Rattle.prog_theory.specs.Numbering.{count, counts};
ghost use Rattle.prog_theory.specs.Places.{width, widths};
ghost use Rattle.prog_theory.specs.Graph as graph;
ghost use Rattle.prog_tree.specs.Stmts.{stmt_of};
ghost use Rattle.prog_graph.specs.Views.{point_of};
ghost use Rattle.prog_graph.specs.TreeParts.{points_st, points_bl};

use crate::NoMemory;
use crate::parts::Point;
use crate::width::inner_points;
use prog_tree::{Block, Stmt};
use std::alloc::Global;

/// Appends so many inner points.
fn push_inner(out: &mut Vec<Point>, count: u32) -> Result<(), NoMemory>
    ensures { OnOk result (map point_of out.new.items ≡ map point_of out.old.items ++ replicate count graph.Inner) }
{
    for _ in 0..count {
        out.push(Point::Inner)?;
    }
    Ok(())
}

/// The points of a statement with this number.
#[cycle(points)]
fn stmt_points(out: &mut Vec<Point>, st: &Stmt, number: u32) -> Result<(), NoMemory>
    requires numbers { number + count (stmt_of st.now) < 2 ^ 32 }
    requires fits { width (stmt_of st.now) < 2 ^ 32 }
    ensures { OnOk result (map point_of out.new.items ≡ map point_of out.old.items ++ points_st number
        (stmt_of st.now)) }
{
    out.push(Point::Statement(number))?;
    match st {
        Stmt::Assume(c) => push_inner(out, inner_points(c)),
        Stmt::If(c, a, b) => {
            push_inner(out, inner_points(c))?;
            block_points(out, a, number + 1)?;
            block_points(out, b, number + 1 + a.count())
        }
        Stmt::While(c, a) => {
            push_inner(out, inner_points(c))?;
            block_points(out, a, number + 1)
        }
        _ => Ok(()),
    }
}

/// The points of a block whose first statement has this number.
#[cycle(points)]
fn block_points(out: &mut Vec<Point>, block: &Block, number: u32) -> Result<(), NoMemory>
    requires numbers { number + counts block.now < 2 ^ 32 }
    requires fits { widths block.now < 2 ^ 32 }
    ensures { OnOk result (map point_of out.new.items ≡ map point_of out.old.items ++ points_bl number block.now) }
{
    let mut next = number;
    for st in &block.stmts {
        stmt_points(out, st, next)?;
        next += st.count();
    }
    Ok(())
}

/// The points of the control graph of a program with these statements.
pub(crate) fn program_points(alloc: Global, body: &Block) -> Result<Vec<Point>, NoMemory>
    requires numbers { counts body.now < 2 ^ 32 }
    requires fits { widths body.now < 2 ^ 32 }
    ensures { IfOk result (λ v. map point_of v.items ≡ points_bl 0 body.now ++ graph.Exit ∷ []) }
{
    let mut out = Vec::new(alloc);
    block_points(&mut out, body, 0)?;
    out.push(Point::Exit)?;
    Ok(out)
}
