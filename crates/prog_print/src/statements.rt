//! Statements and blocks, a statement a line, two blanks further in for each block around.
ghost use Rattle.std.specs.Prelude.{◌≡◌, ◌+◌, ◌<◌, ◌^◌, ◌++◌, All, length, codes, OnOk};
ghost use Rattle.prog_theory.specs.Fits.{IsVariable, FitsTerm, FitsCond, FitsStmt, FitsBlock};
ghost use Rattle.prog_theory.specs.Nesting as nesting;
ghost use Rattle.prog_theory.specs.Nesting.{stmt_nesting, block_nesting};
ghost use Rattle.prog_tree.specs.Terms.{term_of};
ghost use Rattle.prog_tree.specs.Claims.{claim_of};
ghost use Rattle.prog_tree.specs.Stmts.{stmt_of};
ghost use Rattle.prog_texts.specs.Inks.{name_text};
ghost use Rattle.prog_print.specs.Texts.{term_text, cond_text, claim_text, indent_text, else_text, end_text, stmt_text, block_text};

use crate::NoMemory;
use crate::claims::push_claim;
use crate::conditions::{Level, push_cond};
use crate::terms::{push_name, push_term};
use prog_tree::{Block, Claim, Cond, Stmt, Term};
use trop_text::Names;

fn push_indent(text: &mut Vec<u8>, depth: u32) -> Result<(), NoMemory>
    ensures { OnOk result (text.new.items ≡ text.old.items ++ indent_text depth) }
{
    for _ in 0..depth {
        text.extend_from_slice(b"  ")?;
    }
    Ok(())
}

fn push_set(text: &mut Vec<u8>, names: &Names, var: u32, value: Term) -> Result<(), NoMemory>
    requires var { IsVariable (length names.now) var }
    requires value { FitsTerm (length names.now) (term_of value) }
    ensures { OnOk result (text.new.items ≡ text.old.items
        ++ (name_text names.now var ++ (codes " := " ++ (term_text names.now (term_of value) ++ codes ";\n")))) }
{
    push_name(text, names, var)?;
    text.extend_from_slice(b" := ")?;
    push_term(text, names, value)?;
    text.extend_from_slice(b";\n")
}

fn push_havoc(text: &mut Vec<u8>, names: &Names, var: u32) -> Result<(), NoMemory>
    requires { IsVariable (length names.now) var }
    ensures { OnOk result (text.new.items ≡ text.old.items
        ++ (codes "havoc " ++ (name_text names.now var ++ codes ";\n"))) }
{
    text.extend_from_slice(b"havoc ")?;
    push_name(text, names, var)?;
    text.extend_from_slice(b";\n")
}

fn push_assert(text: &mut Vec<u8>, names: &Names, claim: &Claim) -> Result<(), NoMemory>
    requires left { All (FitsTerm (length names.now)) claim.now.left.terms }
    requires right { All (FitsTerm (length names.now)) claim.now.right.terms }
    ensures { OnOk result (text.new.items ≡ text.old.items
        ++ (codes "assert " ++ (claim_text names.now (claim_of claim.now) ++ codes ";\n"))) }
{
    text.extend_from_slice(b"assert ")?;
    push_claim(text, names, claim)?;
    text.extend_from_slice(b";\n")
}

// A condition behind a word and before a sign, both with their blanks.
fn push_asking(
    text: &mut Vec<u8>,
    names: &Names,
    word: &[u8],
    cond: &Cond,
    sign: &[u8],
) -> Result<(), NoMemory>
    requires { FitsCond (length names.now) cond.now }
    ensures { OnOk result (text.new.items ≡ text.old.items
        ++ (word.now ++ (cond_text names.now nesting.Loose cond.now ++ sign.now))) }
{
    text.extend_from_slice(word)?;
    push_cond(text, names, Level::Loose, cond)?;
    text.extend_from_slice(sign)
}

// The line before a second block that is not empty.
fn push_else(text: &mut Vec<u8>, block: &Block, depth: u32) -> Result<(), NoMemory>
    ensures { OnOk result (text.new.items ≡ text.old.items ++ else_text depth block.now) }
{
    match block.stmts.first() {
        None => Ok(()),
        Some(_) => {
            push_indent(text, depth)?;
            text.extend_from_slice(b"} else {\n")
        }
    }
}

// The line behind a block.
fn push_end(text: &mut Vec<u8>, depth: u32) -> Result<(), NoMemory>
    ensures { OnOk result (text.new.items ≡ text.old.items ++ end_text depth) }
{
    push_indent(text, depth)?;
    text.extend_from_slice(b"}\n")
}

#[cycle(blocks)]
fn push_stmt(text: &mut Vec<u8>, names: &Names, stmt: &Stmt, depth: u32) -> Result<(), NoMemory>
    requires fits { FitsStmt (length names.now) (stmt_of stmt.now) }
    requires deep { depth + stmt_nesting (stmt_of stmt.now) < 2 ^ 32 }
    ensures { OnOk result (text.new.items ≡ text.old.items ++ stmt_text names.now depth (stmt_of stmt.now)) }
{
    match stmt {
        Stmt::Set { var, value } => push_set(text, names, *var, *value),
        Stmt::Havoc { var } => push_havoc(text, names, *var),
        Stmt::Assume(c) => push_asking(text, names, b"assume ", c, b";\n"),
        Stmt::Assert(c) => push_assert(text, names, c),
        Stmt::If(c, a, b) => {
            push_asking(text, names, b"if ", c, b" {\n")?;
            push_block(text, names, a, depth + 1)?;
            push_else(text, b, depth)?;
            push_block(text, names, b, depth + 1)?;
            push_end(text, depth)
        }
        Stmt::While(c, a) => {
            push_asking(text, names, b"while ", c, b" {\n")?;
            push_block(text, names, a, depth + 1)?;
            push_end(text, depth)
        }
        Stmt::Skip => text.extend_from_slice(b"skip;\n"),
    }
}

/// Appends the statements of a block that stands inside so many blocks.
#[cycle(blocks)]
pub(crate) fn push_block(
    text: &mut Vec<u8>,
    names: &Names,
    block: &Block,
    depth: u32,
) -> Result<(), NoMemory>
    requires fits { FitsBlock (length names.now) block.now }
    requires deep { depth + block_nesting block.now < 2 ^ 32 }
    ensures { OnOk result (text.new.items ≡ text.old.items ++ block_text names.now depth block.now) }
{
    for stmt in &block.stmts {
        push_indent(text, depth)?;
        push_stmt(text, names, stmt, depth)?;
    }
    Ok(())
}
