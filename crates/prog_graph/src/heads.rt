//! The heads of the loops of statements and blocks.

ghost use Rattle.std.specs.Prelude.{◌≡◌, ◌++◌, ◌+◌, ◌<◌, ◌^◌, OnOk, IfOk};
ghost use Rattle.prog_theory.specs.Places.{width, widths};
ghost use Rattle.prog_tree.specs.Stmts.{stmt_of};
ghost use Rattle.prog_graph.specs.TreeParts.{heads_st, heads_bl};

use crate::NoMemory;
use crate::width::{block_width, inner_points, stmt_width};
use prog_tree::{Block, Stmt};
use std::alloc::Global;

/// The heads of a statement at a point.
#[cycle(heads)]
fn stmt_heads(out: &mut Vec<u32>, st: &Stmt, point: u32) -> Result<(), NoMemory>
    requires { point + width (stmt_of st.now) < 2 ^ 32 }
    ensures { OnOk result (out.new.items ≡ out.old.items ++ heads_st point (stmt_of st.now)) }
{
    match st {
        Stmt::If(c, a, b) => {
            let first = point + 1 + inner_points(c);
            block_heads(out, a, first)?;
            block_heads(out, b, first + block_width(a))
        }
        Stmt::While(c, a) => {
            out.push(point)?;
            block_heads(out, a, point + 1 + inner_points(c))
        }
        _ => Ok(()),
    }
}

/// The heads of a block that begins at a point.
#[cycle(heads)]
fn block_heads(out: &mut Vec<u32>, block: &Block, point: u32) -> Result<(), NoMemory>
    requires { point + widths block.now < 2 ^ 32 }
    ensures { OnOk result (out.new.items ≡ out.old.items ++ heads_bl point block.now) }
{
    let mut at = point;
    for st in &block.stmts {
        stmt_heads(out, st, at)?;
        at += stmt_width(st);
    }
    Ok(())
}

/// The heads of the control graph of a program with these statements, ascending.
pub(crate) fn program_heads(alloc: Global, body: &Block) -> Result<Vec<u32>, NoMemory>
    requires { widths body.now < 2 ^ 32 }
    ensures { IfOk result (λ v. v.items ≡ heads_bl 0 body.now) }
{
    let mut out = Vec::new(alloc);
    block_heads(&mut out, body, 0)?;
    Ok(out)
}
