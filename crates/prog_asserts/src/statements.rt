//! The statements of a program at all depths, in the order of their numbers.

ghost use Rattle.std.specs.Prelude.{◌≡◌, ◌++◌, [], map, OnOk, IfOk};
ghost use Rattle.prog_tree.specs.Stmts.{stmt_of};
ghost use Rattle.prog_asserts.specs.Listed.{shown, listed_st, listed_bl};

use crate::NoMemory;
use prog_tree::{Block, Stmt};
use std::alloc::Global;

/// Appends the statement and those within it.
#[cycle(listed)]
fn push_stmt<'a>(out: &mut Vec<&'a Stmt>, st: &'a Stmt) -> Result<(), NoMemory>
    ensures { OnOk result (shown out.new.items ≡ shown out.old.items ++ listed_st (stmt_of st.now)) }
{
    out.push(st)?;
    match st {
        Stmt::If(_, a, b) => {
            push_block(out, a)?;
            push_block(out, b)
        }
        Stmt::While(_, a) => push_block(out, a),
        _ => Ok(()),
    }
}

/// Appends those of the block.
#[cycle(listed)]
fn push_block<'a>(out: &mut Vec<&'a Stmt>, block: &'a Block) -> Result<(), NoMemory>
    ensures { OnOk result (shown out.new.items ≡ shown out.old.items ++ listed_bl block.now) }
{
    for st in &block.stmts {
        push_stmt(out, st)?;
    }
    Ok(())
}

/// The statements of a program with this body; each stands at the place of its number.
pub(crate) fn statements<'a>(alloc: Global, body: &'a Block) -> Result<Vec<&'a Stmt>, NoMemory>
    ensures { IfOk result (λ v. shown v.items ≡ listed_bl body.now) }
{
    let mut out = Vec::new(alloc);
    push_block(&mut out, body)?;
    Ok(out)
}
