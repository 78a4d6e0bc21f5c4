//! Conditions.
ghost use Rattle.std.specs.Prelude.{◌≡◌, ◌≤◌, ◌<◌, length, codes, IfOk};
ghost use Rattle.trop_text.specs.declared.fault.FaultKind.TheVariants.{Syntax};
ghost use Rattle.trop_grammar.specs.Reading.{read_then};
ghost use Rattle.shape_grammar.specs.Steps.{token_past};
ghost use Rattle.prog_theory.specs.Limits.{program_limits};
ghost use Rattle.prog_theory.specs.Conditions as tree;
ghost use Rattle.prog_tree.specs.Terms.{term_of, cmp_of};
ghost use Rattle.prog_texts.specs.Words.{skipped};
ghost use Rattle.prog_texts.specs.Judges as judges;
ghost use Rattle.prog_texts.specs.Operands as operands;
ghost use Rattle.prog_texts.specs.Conditions as spec;
ghost use Rattle.prog_reading.specs.Left.{left, source_of, entry_of};
ghost use Rattle.prog_reading.specs.Gives.{Gives, Passed, Held};
ghost use Rattle.prog_reading.specs.Firsts.{first_of, start_of, IsRoomy};

use crate::at::At;
use crate::before::{Entry, is};
use crate::operands::{First, first_token, operand, operand_rest};
use crate::read_err::ReadErr;
use crate::words::{follows, is_atom_too_many, said, settle};
use prog_tree::{Cmp, Cond, Term};
use std::alloc::Global;
use trop_text::{FaultKind, Names};

/// What a negation begins with.
#[derive(Clone, Copy, Drop)]
pub enum Start {
    /// The sign of a negation.
    Bang,
    /// The bracket before a condition.
    Bracket,
    /// The condition `?`.
    Ask,
    /// The first token of a comparison.
    Compare(First),
}

// A sign that opens something, where there is room for it.
fn opening(room: bool, start: Start) -> Result<Start, FaultKind>
    ensures passed { Passed start_of result (spec.opening room (start_of start)) }
    ensures room { IfOk result (IsRoomy room) }
{
    if room {
        Ok(start)
    } else {
        Err(FaultKind::TooDeep)
    }
}

// The first token of a negation.
fn start_token(names: &Names, room: bool, entry: Entry<'_>) -> Result<Start, FaultKind>
    requires { length names.now ≤ 63 }
    ensures passed { Passed start_of result (spec.start program_limits names.now room (entry_of entry.entry)) }
    ensures room { IfOk result (IsRoomy room) }
{
    if entry.says(b"!") {
        return opening(room, Start::Bang);
    }
    if entry.says(b"(") {
        return opening(room, Start::Bracket);
    }
    let asks = entry.says(b"?");
    if !asks && !entry.begins_operand() {
        return Err(FaultKind::Syntax);
    }
    if is_atom_too_many(entry) {
        return Err(FaultKind::TooManyAtoms);
    }
    if asks {
        return Ok(Start::Ask);
    }
    let first = first_token(names, entry)?;
    Ok(Start::Compare(first))
}

// What a negation begins with, and what is behind it.
#[tactic(auto, unfolding(trop_grammar::specs::Reading::token_at, shape_grammar::specs::Steps::token_past))]
fn begin<'a>(names: &Names, room: bool, at: At<'a>) -> Result<(Start, At<'a>), ReadErr<'a>>
    requires { length names.now ≤ 63 }
    ensures gives { Gives (λ x. (start_of x.0, left x.1)) result
        (token_past skipped Syntax (spec.start program_limits names.now room) (left at.entry)) }
    ensures room { IfOk result (λ x. IsRoomy room x.0) }
    ensures source { IfOk result (λ x. source_of x.1 ≡ source_of at.entry) }
    ensures shorter { IfOk result (λ x. length (left x.1) ≤ length (left at.entry)) }
{
    let here = at.past();
    let Some((entry, rest)) = here.next() else {
        return Err(ReadErr::Wrong(FaultKind::Syntax, here));
    };
    settle(start_token(names, room, entry), here, rest)
}

// How a sign compares.
fn comparison_of(sign: &[u8]) -> Option<Cmp>
    ensures { Held cmp_of result (judges.comparison_of sign.now) }
{
    if is(sign, b"<=") {
        Some(Cmp::Le)
    } else if is(sign, b"<") {
        Some(Cmp::Lt)
    } else if is(sign, b">=") {
        Some(Cmp::Ge)
    } else if is(sign, b">") {
        Some(Cmp::Gt)
    } else if is(sign, b"==") {
        Some(Cmp::Eq)
    } else if is(sign, b"!=") {
        Some(Cmp::Ne)
    } else {
        None
    }
}

// The sign of a comparison, with what is behind it.
#[tactic(auto, unfolding(trop_grammar::specs::Reading::token_at, shape_grammar::specs::Steps::token_past))]
fn comparison<'a>(at: At<'a>) -> Result<(Cmp, At<'a>), ReadErr<'a>>
    ensures gives { Gives (λ x. (cmp_of x.0, left x.1)) result (operands.word_at judges.comparison_of (left at.entry)) }
    ensures source { IfOk result (λ x. source_of x.1 ≡ source_of at.entry) }
    ensures shorter { IfOk result (λ x. length (left x.1) ≤ length (left at.entry)) }
{
    let here = at.past();
    let Some((entry, rest)) = here.next() else {
        return Err(ReadErr::Wrong(FaultKind::Syntax, here));
    };
    settle(
        comparison_of(entry.text()).ok_or(FaultKind::Syntax),
        here,
        rest,
    )
}

// The rest of a comparison, behind its left operand.
#[tactic(auto, unfolding(trop_grammar::specs::Reading::read_then, trop_grammar::specs::Reading::gives, prog_texts::specs::Conditions::compared_at))]
fn compared<'a>(names: &Names, term: Term, at: At<'a>) -> Result<(Cond, At<'a>), ReadErr<'a>>
    requires { length names.now ≤ 63 }
    ensures gives { Gives (λ x. (x.0, left x.1)) result
        (spec.compared_at program_limits names.now (term_of term) (left at.entry)) }
    ensures source { IfOk result (λ x. source_of x.1 ≡ source_of at.entry) }
    ensures shorter { IfOk result (λ x. length (left x.1) ≤ length (left at.entry)) }
{
    let (cmp, rest) = comparison(at)?;
    let (right, rest) = operand(names, rest)?;
    Ok((Cond::atom(term, cmp, right), rest))
}

// The rest of a comparison, behind its first token.
#[tactic(auto, unfolding(trop_grammar::specs::Reading::read_then))]
fn comparison_rest<'a>(
    names: &Names,
    first: First,
    at: At<'a>,
) -> Result<(Cond, At<'a>), ReadErr<'a>>
    requires { length names.now ≤ 63 }
    ensures gives { Gives (λ x. (x.0, left x.1)) result
        (read_then (operands.operand_rest program_limits (first_of first)) (spec.compared_at program_limits names.now)
        (left at.entry)) }
    ensures source { IfOk result (λ x. source_of x.1 ≡ source_of at.entry) }
    ensures shorter { IfOk result (λ x. length (left x.1) ≤ length (left at.entry)) }
{
    let (term, rest) = operand_rest(first, at)?;
    compared(names, term, rest)
}

// A negation, in which signs may stand so deep.
#[cycle(conditions)]
fn negation<'a>(
    alloc: Global,
    names: &Names,
    depth: u32,
    at: At<'a>,
) -> Result<(Cond, At<'a>), ReadErr<'a>>
    requires { length names.now ≤ 63 }
    ensures gives { Gives (λ x. (x.0, left x.1)) result
        (spec.negation_at program_limits names.now depth (left at.entry)) }
    ensures source { IfOk result (λ x. source_of x.1 ≡ source_of at.entry) }
    ensures shorter { IfOk result (λ x. length (left x.1) ≤ length (left at.entry)) }
{
    let (begun, rest) = begin(names, 0 < depth, at)?;
    match begun {
        Start::Ask => Ok((Cond::any(), rest)),
        Start::Compare(first) => comparison_rest(names, first, rest),
        Start::Bang => {
            let (inner, rest) = negation(alloc, names, depth - 1, rest)?;
            let all = Cond::not(alloc, inner)?;
            Ok((all, rest))
        }
        Start::Bracket => bracketed(alloc, names, depth - 1, rest),
    }
}

// A condition and the bracket behind it.
#[cycle(conditions)]
#[tactic(auto, unfolding(trop_grammar::specs::Reading::read_then, trop_grammar::specs::Reading::gives, prog_texts::specs::Conditions::bracket_at))]
fn bracketed<'a>(
    alloc: Global,
    names: &Names,
    depth: u32,
    at: At<'a>,
) -> Result<(Cond, At<'a>), ReadErr<'a>>
    requires { length names.now ≤ 63 }
    ensures gives { Gives (λ x. (x.0, left x.1)) result
        (spec.bracket_at (spec.negation_at program_limits names.now depth) (left at.entry)) }
    ensures source { IfOk result (λ x. source_of x.1 ≡ source_of at.entry) }
    ensures shorter { IfOk result (λ x. length (left x.1) ≤ length (left at.entry)) }
{
    let (inner, rest) = condition(alloc, names, depth, at)?;
    let rest = said(rest, b")")?;
    Ok((inner, rest))
}

// Negations with `&&` between them.
#[cycle(conditions)]
fn conjunction<'a>(
    alloc: Global,
    names: &Names,
    depth: u32,
    at: At<'a>,
) -> Result<(Cond, At<'a>), ReadErr<'a>>
    requires { length names.now ≤ 63 }
    ensures gives { Gives (λ x. (x.0, left x.1)) result
        (spec.chain_at (codes "&&") tree.And (spec.negation_at program_limits names.now depth) (left at.entry)) }
    ensures source { IfOk result (λ x. source_of x.1 ≡ source_of at.entry) }
    ensures shorter { IfOk result (λ x. length (left x.1) ≤ length (left at.entry)) }
{
    let (first, behind) = negation(alloc, names, depth, at)?;
    let mut all = first;
    let mut rest = behind;
    'links: while let Some(after) = follows(rest, b"&&") {
        let (other, behind) = negation(alloc, names, depth, after)?;
        all = Cond::and(alloc, all, other)?;
        rest = behind;
    }
    Ok((all, rest))
}

/// A condition, in which signs may stand so deep.
#[cycle(conditions)]
pub fn condition<'a>(
    alloc: Global,
    names: &Names,
    depth: u32,
    at: At<'a>,
) -> Result<(Cond, At<'a>), ReadErr<'a>>
    requires { length names.now ≤ 63 }
    ensures gives { Gives (λ x. (x.0, left x.1)) result
        (spec.condition_at program_limits names.now depth (left at.entry)) }
    ensures source { IfOk result (λ x. source_of x.1 ≡ source_of at.entry) }
    ensures shorter { IfOk result (λ x. length (left x.1) ≤ length (left at.entry)) }
{
    let (first, behind) = conjunction(alloc, names, depth, at)?;
    let mut all = first;
    let mut rest = behind;
    'links: while let Some(after) = follows(rest, b"||") {
        let (other, behind) = conjunction(alloc, names, depth, after)?;
        all = Cond::or(alloc, all, other)?;
        rest = behind;
    }
    Ok((all, rest))
}
