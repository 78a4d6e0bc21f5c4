//! The edges of statements and blocks.

ghost use Rattle.std.specs.Prelude.{◌≡◌, ◌++◌, ◌+◌, ◌<◌, ◌^◌, map, OnOk, IfOk};
ghost use Rattle.prog_theory.specs.Graph.{edges};
ghost use Rattle.prog_theory.specs.Each.{EachStmt, EachBlock};
ghost use Rattle.prog_theory.specs.Places as places;
ghost use Rattle.prog_theory.specs.Places.{width, widths};
ghost use Rattle.prog_tree.specs.Stmts.{stmt_of};
ghost use Rattle.prog_graph.specs.Views.{edge_of};
ghost use Rattle.prog_graph.specs.Modest.{IsModest, IsAnything};
ghost use Rattle.prog_graph.specs.TreeParts.{edges_st, edges_bl};

use crate::NoMemory;
use crate::parts::{Edge, Op, push_edge};
use crate::tests::cond_edges;
use crate::width::{block_width, inner_points, stmt_width};
use prog_tree::{Block, Stmt};
use std::alloc::Global;

/// Where a block begins that stands at a point: there, or at what follows it where it is empty.
fn entry(block: &Block, at: u32, next: u32) -> u32
    ensures { result ≡ places.entry at block.now next }
{
    match block.stmts.first() {
        None => next,
        Some(_) => at,
    }
}

/// The edges of a statement at a point, which is followed by `next`.
#[cycle(edges)]
fn stmt_edges(out: &mut Vec<Edge>, st: &Stmt, point: u32, next: u32) -> Result<(), NoMemory>
    requires modest { EachStmt IsAnything IsModest (stmt_of st.now) }
    requires fits { point + width (stmt_of st.now) < 2 ^ 32 }
    ensures { OnOk result (map edge_of out.new.items ≡ map edge_of out.old.items ++ edges_st point (stmt_of st.now)
        next) }
{
    match st {
        Stmt::Set { var, value } => push_edge(
            out,
            point,
            Some(next),
            Op::Set {
                var: *var,
                value: *value,
            },
        ),
        Stmt::Havoc { var } => push_edge(out, point, Some(next), Op::Havoc { var: *var }),
        Stmt::Assert(_) | Stmt::Skip => push_edge(out, point, Some(next), Op::Skip),
        Stmt::Assume(c) => {
            cond_edges(out, c, point, point + 1, Some(next), None)?;
            Ok(())
        }
        Stmt::If(c, a, b) => {
            let first = point + 1 + inner_points(c);
            let second = first + block_width(a);
            let hit = entry(a, first, next);
            let miss = entry(b, second, next);
            cond_edges(out, c, point, point + 1, Some(hit), Some(miss))?;
            block_edges(out, a, first, next)?;
            block_edges(out, b, second, next)
        }
        Stmt::While(c, a) => {
            let first = point + 1 + inner_points(c);
            let hit = entry(a, first, point);
            cond_edges(out, c, point, point + 1, Some(hit), Some(next))?;
            block_edges(out, a, first, point)
        }
    }
}

/// The edges of a block that begins at a point and is followed by `next`.
#[cycle(edges)]
fn block_edges(out: &mut Vec<Edge>, block: &Block, point: u32, next: u32) -> Result<(), NoMemory>
    requires modest { EachBlock IsAnything IsModest block.now }
    requires fits { point + widths block.now < 2 ^ 32 }
    ensures { OnOk result (map edge_of out.new.items ≡ map edge_of out.old.items ++ edges_bl point block.now next) }
{
    let count = block.stmts.len();
    let mut at = point;
    for (i, st) in block.stmts.iter().enumerate() {
        let after = at + stmt_width(st);
        let follow = if i + 1 == count { next } else { after };
        stmt_edges(out, st, at, follow)?;
        at = after;
    }
    Ok(())
}

/// The edges of the control graph of a program with these statements.
pub(crate) fn program_edges(alloc: Global, body: &Block) -> Result<Vec<Edge>, NoMemory>
    requires modest { EachBlock IsAnything IsModest body.now }
    requires fits { widths body.now < 2 ^ 32 }
    ensures { IfOk result (λ v. map edge_of v.items ≡ edges_bl 0 body.now (widths body.now)) }
{
    let mut out = Vec::new(alloc);
    let end = block_width(body);
    block_edges(&mut out, body, 0, end)?;
    Ok(out)
}
