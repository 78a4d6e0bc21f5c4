//! Statements and blocks.
ghost use Rattle.std.specs.Prelude.{◌≡◌, ◌≤◌, ◌<◌, length, codes, nat_lt, IsTrue, IfOk};
ghost use Rattle.trop_text.specs.declared.fault.FaultKind.TheVariants.{Syntax};
ghost use Rattle.shape_grammar.specs.Steps.{token_past};
ghost use Rattle.prog_theory.specs.Limits.{program_limits};
ghost use Rattle.prog_tree.specs.Stmts.{stmt_of};
ghost use Rattle.prog_texts.specs.Words.{skipped};
ghost use Rattle.prog_texts.specs.Judges as judges;
ghost use Rattle.prog_texts.specs.Statements as spec;
ghost use Rattle.prog_reading.specs.Left.{left, source_of, entry_of};
ghost use Rattle.prog_reading.specs.Gives.{Gives, Passed};
ghost use Rattle.prog_reading.specs.Rules.{rule_of};
ghost use Rattle.prog_lang.specs.Verbs.{verb_of};
ghost use Rattle.prog_lang.specs.ReadParts as parts;

use crate::verbs::{Verb, next_verb};
use prog_reading::{
    AssertRule, At, Entry, ReadErr, claim, condition, follows, operand, said, settle, variable,
};
use prog_tree::{Block, Stmt};
use std::alloc::Global;
use trop_text::{FaultKind, Names};

// A variable, by its coordinate, with what is behind it.
#[tactic(auto, unfolding(trop_grammar::specs::Reading::token_at, shape_grammar::specs::Steps::token_past))]
fn next_variable<'a>(names: &Names, at: At<'a>) -> Result<(u32, At<'a>), ReadErr<'a>>
    requires { length names.now ≤ 63 }
    ensures gives { Gives (λ x. (x.0, left x.1)) result (token_past skipped Syntax (judges.variable names.now) (left at.entry)) }
    ensures source { IfOk result (λ x. source_of x.1 ≡ source_of at.entry) }
    ensures shorter { IfOk result (λ x. length (left x.1) ≤ length (left at.entry)) }
{
    let here = at.past();
    let Some((entry, rest)) = here.next() else {
        return Err(ReadErr::Wrong(FaultKind::Syntax, here));
    };
    settle(variable(names, entry), here, rest)
}

// The rest of a set, behind its variable.
#[tactic(auto, unfolding(trop_grammar::specs::Reading::read_then, trop_grammar::specs::Reading::gives))]
fn set<'a>(names: &Names, var: u32, at: At<'a>) -> Result<(Stmt, At<'a>), ReadErr<'a>>
    requires { length names.now ≤ 63 }
    ensures gives { Gives (λ x. (stmt_of x.0, left x.1)) result (parts.set_at names.now var (left at.entry)) }
    ensures source { IfOk result (λ x. source_of x.1 ≡ source_of at.entry) }
    ensures shorter { IfOk result (λ x. length (left x.1) ≤ length (left at.entry)) }
{
    let rest = said(at, b":=")?;
    let (value, rest) = operand(names, rest)?;
    let rest = said(rest, b";")?;
    Ok((Stmt::Set { var, value }, rest))
}

// The rest of a havoc.
#[tactic(auto, unfolding(trop_grammar::specs::Reading::read_then, trop_grammar::specs::Reading::gives))]
fn havoc<'a>(names: &Names, at: At<'a>) -> Result<(Stmt, At<'a>), ReadErr<'a>>
    requires { length names.now ≤ 63 }
    ensures gives { Gives (λ x. (stmt_of x.0, left x.1)) result (parts.havoc_at names.now (left at.entry)) }
    ensures source { IfOk result (λ x. source_of x.1 ≡ source_of at.entry) }
    ensures shorter { IfOk result (λ x. length (left x.1) ≤ length (left at.entry)) }
{
    let (var, rest) = next_variable(names, at)?;
    let rest = said(rest, b";")?;
    Ok((Stmt::Havoc { var }, rest))
}

// The rest of an assume.
#[tactic(auto, unfolding(trop_grammar::specs::Reading::read_then, trop_grammar::specs::Reading::gives))]
fn assumed<'a>(
    alloc: Global,
    names: &Names,
    depth: u32,
    at: At<'a>,
) -> Result<(Stmt, At<'a>), ReadErr<'a>>
    requires { length names.now ≤ 63 }
    ensures gives { Gives (λ x. (stmt_of x.0, left x.1)) result (parts.assume_at names.now depth (left at.entry)) }
    ensures source { IfOk result (λ x. source_of x.1 ≡ source_of at.entry) }
    ensures shorter { IfOk result (λ x. length (left x.1) ≤ length (left at.entry)) }
{
    let (cond, rest) = condition(alloc, names, depth, at)?;
    let rest = said(rest, b";")?;
    Ok((Stmt::Assume(cond), rest))
}

// The rest of an assert.
#[tactic(auto, unfolding(trop_grammar::specs::Reading::read_then, trop_grammar::specs::Reading::gives))]
fn asserted<'a>(
    alloc: Global,
    names: &Names,
    rule: AssertRule,
    at: At<'a>,
) -> Result<(Stmt, At<'a>), ReadErr<'a>>
    requires { length names.now ≤ 63 }
    ensures gives { Gives (λ x. (stmt_of x.0, left x.1)) result (parts.assert_at (rule_of rule) names.now (left at.entry)) }
    ensures source { IfOk result (λ x. source_of x.1 ≡ source_of at.entry) }
    ensures shorter { IfOk result (λ x. length (left x.1) ≤ length (left at.entry)) }
{
    let (claim, rest) = claim(alloc, names, rule, at)?;
    let rest = said(rest, b";")?;
    Ok((Stmt::Assert(claim), rest))
}

// The rest of a skip.
#[tactic(auto, unfolding(trop_grammar::specs::Reading::read_then, trop_grammar::specs::Reading::gives))]
fn skip<'a>(at: At<'a>) -> Result<(Stmt, At<'a>), ReadErr<'a>>
    ensures gives { Gives (λ x. (stmt_of x.0, left x.1)) result (parts.skip_at (left at.entry)) }
    ensures source { IfOk result (λ x. source_of x.1 ≡ source_of at.entry) }
    ensures shorter { IfOk result (λ x. length (left x.1) ≤ length (left at.entry)) }
{
    let rest = said(at, b";")?;
    Ok((Stmt::Skip, rest))
}

// The sign that opens a block, where there is room for it.
fn block_sign(room: bool, entry: Entry<'_>) -> Result<(), FaultKind>
    ensures passed { Passed (λ u. tt) result (spec.block_sign room (entry_of entry.entry)) }
    ensures room { IfOk result (λ u. IsTrue room) }
{
    if !entry.says(b"{") {
        Err(FaultKind::Syntax)
    } else if room {
        Ok(())
    } else {
        Err(FaultKind::TooDeep)
    }
}

// What is behind the sign that opens a block.
#[tactic(auto, unfolding(trop_grammar::specs::Reading::token_at, shape_grammar::specs::Steps::token_past))]
fn opened<'a>(room: bool, at: At<'a>) -> Result<At<'a>, ReadErr<'a>>
    ensures gives { Gives (λ rest. (tt, left rest)) result (token_past skipped Syntax (spec.block_sign room) (left at.entry)) }
    ensures room { IfOk result (λ rest. IsTrue room) }
    ensures source { IfOk result (λ rest. source_of rest ≡ source_of at.entry) }
    ensures shorter { IfOk result (λ rest. length (left rest) ≤ length (left at.entry)) }
{
    let here = at.past();
    let Some((entry, rest)) = here.next() else {
        return Err(ReadErr::Wrong(FaultKind::Syntax, here));
    };
    match block_sign(room, entry) {
        Ok(()) => Ok(rest),
        Err(what) => Err(ReadErr::Wrong(what, here)),
    }
}

// The statements of a block and the `}` behind them.
#[cycle(statements)]
#[tactic(auto, unfolding(trop_grammar::specs::Reading::read_then, trop_grammar::specs::Reading::gives))]
fn closed<'a>(
    alloc: Global,
    names: &Names,
    rule: AssertRule,
    depth: u32,
    at: At<'a>,
) -> Result<(Block, At<'a>), ReadErr<'a>>
    requires { length names.now ≤ 63 }
    ensures gives { Gives (λ x. (x.0, left x.1)) result (parts.closed_at (rule_of rule) names.now depth (left at.entry)) }
    ensures source { IfOk result (λ x. source_of x.1 ≡ source_of at.entry) }
    ensures shorter { IfOk result (λ x. length (left x.1) ≤ length (left at.entry)) }
{
    let (stmts, rest) = statements(alloc, names, rule, depth, at)?;
    let rest = said(rest, b"}")?;
    Ok((stmts, rest))
}

// A block, in which signs may stand so deep with its own.
#[cycle(statements)]
fn block<'a>(
    alloc: Global,
    names: &Names,
    rule: AssertRule,
    depth: u32,
    at: At<'a>,
) -> Result<(Block, At<'a>), ReadErr<'a>>
    requires { length names.now ≤ 63 }
    ensures gives { Gives (λ x. (x.0, left x.1)) result (parts.block_in (rule_of rule) names.now depth (left at.entry)) }
    ensures source { IfOk result (λ x. source_of x.1 ≡ source_of at.entry) }
    ensures shorter { IfOk result (λ x. length (left x.1) ≤ length (left at.entry)) }
{
    let rest = opened(0 < depth, at)?;
    closed(alloc, names, rule, depth - 1, rest)
}

// `else` and a block, or nothing.
#[cycle(statements)]
fn second<'a>(
    alloc: Global,
    names: &Names,
    rule: AssertRule,
    depth: u32,
    at: At<'a>,
) -> Result<(Block, At<'a>), ReadErr<'a>>
    requires { length names.now ≤ 63 }
    ensures gives { Gives (λ x. (x.0, left x.1)) result (parts.second_at (rule_of rule) names.now depth (left at.entry)) }
    ensures source { IfOk result (λ x. source_of x.1 ≡ source_of at.entry) }
    ensures shorter { IfOk result (λ x. length (left x.1) ≤ length (left at.entry)) }
{
    match follows(at, b"else") {
        Some(rest) => block(alloc, names, rule, depth, rest),
        None => Ok((Block::new(alloc), at)),
    }
}

// The rest of an `if`.
#[cycle(statements)]
#[tactic(auto, unfolding(trop_grammar::specs::Reading::read_then, trop_grammar::specs::Reading::gives))]
fn branch<'a>(
    alloc: Global,
    names: &Names,
    rule: AssertRule,
    depth: u32,
    at: At<'a>,
) -> Result<(Stmt, At<'a>), ReadErr<'a>>
    requires { length names.now ≤ 63 }
    ensures gives { Gives (λ x. (stmt_of x.0, left x.1)) result (parts.branch_at (rule_of rule) names.now depth (left at.entry)) }
    ensures source { IfOk result (λ x. source_of x.1 ≡ source_of at.entry) }
    ensures shorter { IfOk result (λ x. length (left x.1) ≤ length (left at.entry)) }
{
    let (cond, rest) = condition(alloc, names, depth, at)?;
    let (one, rest) = block(alloc, names, rule, depth, rest)?;
    let (two, rest) = second(alloc, names, rule, depth, rest)?;
    Ok((Stmt::If(cond, one, two), rest))
}

// The rest of a `while`.
#[cycle(statements)]
#[tactic(auto, unfolding(trop_grammar::specs::Reading::read_then, trop_grammar::specs::Reading::gives))]
fn repeated<'a>(
    alloc: Global,
    names: &Names,
    rule: AssertRule,
    depth: u32,
    at: At<'a>,
) -> Result<(Stmt, At<'a>), ReadErr<'a>>
    requires { length names.now ≤ 63 }
    ensures gives { Gives (λ x. (stmt_of x.0, left x.1)) result (parts.loop_at (rule_of rule) names.now depth (left at.entry)) }
    ensures source { IfOk result (λ x. source_of x.1 ≡ source_of at.entry) }
    ensures shorter { IfOk result (λ x. length (left x.1) ≤ length (left at.entry)) }
{
    let (cond, rest) = condition(alloc, names, depth, at)?;
    let (body, rest) = block(alloc, names, rule, depth, rest)?;
    Ok((Stmt::While(cond, body), rest))
}

// The rest of a statement, behind its first token.
#[cycle(statements)]
#[tactic(auto, unfolding(prog_texts::specs::Statements::statement_rest))]
fn statement<'a>(
    alloc: Global,
    names: &Names,
    rule: AssertRule,
    depth: u32,
    verb: Verb,
    at: At<'a>,
) -> Result<(Stmt, At<'a>), ReadErr<'a>>
    requires { length names.now ≤ 63 }
    ensures gives { Gives (λ x. (stmt_of x.0, left x.1)) result (parts.rest_at (rule_of rule) names.now depth (verb_of verb) (left at.entry)) }
    ensures source { IfOk result (λ x. source_of x.1 ≡ source_of at.entry) }
    ensures shorter { IfOk result (λ x. length (left x.1) ≤ length (left at.entry)) }
{
    match verb {
        Verb::Havocs => havoc(names, at),
        Verb::Assumes => assumed(alloc, names, depth, at),
        Verb::Asserts => asserted(alloc, names, rule, at),
        Verb::Asks => branch(alloc, names, rule, depth, at),
        Verb::Loops => repeated(alloc, names, rule, depth, at),
        Verb::Skips => skip(at),
        Verb::Sets(var) => set(names, var, at),
    }
}

/// Statements, in which signs may stand so deep, as far as they go.
#[cycle(statements)]
pub(crate) fn statements<'a>(
    alloc: Global,
    names: &Names,
    rule: AssertRule,
    depth: u32,
    at: At<'a>,
) -> Result<(Block, At<'a>), ReadErr<'a>>
    requires { length names.now ≤ 63 }
    ensures gives { Gives (λ x. (x.0, left x.1)) result (spec.statements_at program_limits (rule_of rule) names.now depth (left at.entry)) }
    ensures source { IfOk result (λ x. source_of x.1 ≡ source_of at.entry) }
    ensures shorter { IfOk result (λ x. length (left x.1) ≤ length (left at.entry)) }
{
    let mut block = Block::new(alloc);
    let mut rest = at;
    'statements: while let Some((verb, after)) = next_verb(names, rest)? {
        let (stmt, behind) = statement(alloc, names, rule, depth, verb, after)?;
        block.push(stmt)?;
        rest = behind;
    }
    Ok((block, rest))
}
