//! What asserts claim.
ghost use Rattle.std.specs.Prelude.{◌≡◌, ◌≤◌, ◌<◌, length, codes, IfOk};
ghost use Rattle.trop_text.specs.declared.fault.FaultKind.TheVariants.{Syntax};
ghost use Rattle.shape_grammar.specs.Steps.{token_past};
ghost use Rattle.prog_theory.specs.Limits.{program_limits};
ghost use Rattle.prog_tree.specs.Terms.{term_of};
ghost use Rattle.prog_tree.specs.Words.{rel_of, word_of};
ghost use Rattle.prog_tree.specs.Claims.{claim_of};
ghost use Rattle.prog_texts.specs.Words.{skipped};
ghost use Rattle.prog_texts.specs.Judges as judges;
ghost use Rattle.prog_texts.specs.Operands as operands;
ghost use Rattle.prog_texts.specs.Claims as spec;
ghost use Rattle.prog_reading.specs.Left.{left, source_of, entry_of};
ghost use Rattle.prog_reading.specs.Gives.{Gives, Passed, Held};
ghost use Rattle.prog_reading.specs.Rules.{rule_of};
ghost use Rattle.prog_reading.specs.Firsts.{first_of, side_start_of};
ghost use Rattle.prog_reading.specs.SideParts.{IsSum, single_at};

use crate::assert_rule::AssertRule;
use crate::at::At;
use crate::before::{Entry, is};
use crate::operands::{First, first_token, operand, operand_rest};
use crate::read_err::ReadErr;
use crate::words::{follows, said, settle};
use prog_tree::{Claim, Rel, Side, SideWord, Term, Terms};
use std::alloc::Global;
use trop_text::{FaultKind, Names};

/// What a side begins with.
#[derive(Clone, Copy, Drop)]
pub enum SideStart {
    /// The first token of an operand.
    Single(First),
    /// The word `max`.
    Greatest,
    /// The word `min`.
    Least,
}

// The first token of a side. The rule is judged at the word.
fn side_start(names: &Names, rule: AssertRule, entry: Entry<'_>) -> Result<SideStart, FaultKind>
    requires { length names.now ≤ 63 }
    ensures { Passed side_start_of result (spec.side_start program_limits (rule_of rule) names.now
        (entry_of entry.entry)) }
{
    let against = rule.is_against(entry.text());
    if entry.says(b"max") {
        if against {
            return Err(FaultKind::AssertMode);
        }
        return Ok(SideStart::Greatest);
    }
    if entry.says(b"min") {
        if against {
            return Err(FaultKind::AssertMode);
        }
        return Ok(SideStart::Least);
    }
    let first = first_token(names, entry)?;
    Ok(SideStart::Single(first))
}

// What a side begins with, and what is behind it.
#[tactic(auto, unfolding(trop_grammar::specs::Reading::token_at, shape_grammar::specs::Steps::token_past))]
fn begin<'a>(
    names: &Names,
    rule: AssertRule,
    at: At<'a>,
) -> Result<(SideStart, At<'a>), ReadErr<'a>>
    requires { length names.now ≤ 63 }
    ensures gives { Gives (λ x. (side_start_of x.0, left x.1)) result
        (token_past skipped Syntax (spec.side_start program_limits (rule_of rule) names.now) (left at.entry)) }
    ensures source { IfOk result (λ x. source_of x.1 ≡ source_of at.entry) }
    ensures shorter { IfOk result (λ x. length (left x.1) ≤ length (left at.entry)) }
{
    let here = at.past();
    let Some((entry, rest)) = here.next() else {
        return Err(ReadErr::Wrong(FaultKind::Syntax, here));
    };
    settle(side_start(names, rule, entry), here, rest)
}

// The terms of a list, behind the first.
fn more_terms<'a>(
    alloc: Global,
    names: &Names,
    first: Term,
    at: At<'a>,
) -> Result<(Terms, At<'a>), ReadErr<'a>>
    requires { length names.now ≤ 63 }
    ensures gives { Gives (λ x. (x.0, left x.1)) result
        (spec.terms_from program_limits names.now (term_of first) (left at.entry)) }
    ensures some { IfOk result (λ x. 0 < length x.0) }
    ensures source { IfOk result (λ x. source_of x.1 ≡ source_of at.entry) }
    ensures shorter { IfOk result (λ x. length (left x.1) ≤ length (left at.entry)) }
{
    let mut terms = Terms::new(alloc);
    terms.push(first)?;
    let mut rest = at;
    'terms: while let Some(after) = follows(rest, b",") {
        let (term, behind) = operand(names, after)?;
        terms.push(term)?;
        rest = behind;
    }
    Ok((terms, rest))
}

// A side of a word and a list of terms in brackets, behind the word.
#[tactic(auto, unfolding(trop_grammar::specs::Reading::read_then, trop_grammar::specs::Reading::gives, prog_texts::specs::Claims::listed_at))]
fn listed<'a>(
    alloc: Global,
    names: &Names,
    word: SideWord,
    at: At<'a>,
) -> Result<(Side, At<'a>), ReadErr<'a>>
    requires names { length names.now ≤ 63 }
    requires sums { IsSum (word_of word) }
    ensures gives { Gives (λ x. (x.0, left x.1)) result
        (spec.listed_at program_limits names.now (word_of word) (left at.entry)) }
    ensures source { IfOk result (λ x. source_of x.1 ≡ source_of at.entry) }
    ensures shorter { IfOk result (λ x. length (left x.1) ≤ length (left at.entry)) }
{
    let rest = said(at, b"(")?;
    let (first, rest) = operand(names, rest)?;
    let (terms, rest) = more_terms(alloc, names, first, rest)?;
    let rest = said(rest, b")")?;
    Ok((Side::new(word, terms), rest))
}

// A side of one term.
#[tactic(auto, unfolding(trop_grammar::specs::Reading::read_then, trop_grammar::specs::Reading::gives, prog_texts::specs::Claims::side_rest))]
fn single<'a>(alloc: Global, first: First, at: At<'a>) -> Result<(Side, At<'a>), ReadErr<'a>>
    ensures gives { Gives (λ x. (x.0, left x.1)) result (single_at (first_of first) (left at.entry)) }
    ensures source { IfOk result (λ x. source_of x.1 ≡ source_of at.entry) }
    ensures shorter { IfOk result (λ x. length (left x.1) ≤ length (left at.entry)) }
{
    let (term, rest) = operand_rest(first, at)?;
    let mut terms = Terms::new(alloc);
    terms.push(term)?;
    Ok((Side::new(SideWord::One, terms), rest))
}

// The rest of a side, behind its first token.
#[tactic(auto, unfolding(prog_texts::specs::Claims::side_rest))]
fn side_rest<'a>(
    alloc: Global,
    names: &Names,
    start: SideStart,
    at: At<'a>,
) -> Result<(Side, At<'a>), ReadErr<'a>>
    requires { length names.now ≤ 63 }
    ensures gives { Gives (λ x. (x.0, left x.1)) result
        (spec.side_rest program_limits names.now (side_start_of start) (left at.entry)) }
    ensures source { IfOk result (λ x. source_of x.1 ≡ source_of at.entry) }
    ensures shorter { IfOk result (λ x. length (left x.1) ≤ length (left at.entry)) }
{
    match start {
        SideStart::Single(first) => single(alloc, first, at),
        SideStart::Greatest => listed(alloc, names, SideWord::Max, at),
        SideStart::Least => listed(alloc, names, SideWord::Min, at),
    }
}

// A side of a claim.
#[tactic(auto, unfolding(trop_grammar::specs::Reading::read_then, prog_texts::specs::Claims::side_at))]
fn side<'a>(
    alloc: Global,
    names: &Names,
    rule: AssertRule,
    at: At<'a>,
) -> Result<(Side, At<'a>), ReadErr<'a>>
    requires { length names.now ≤ 63 }
    ensures gives { Gives (λ x. (x.0, left x.1)) result
        (spec.side_at program_limits (rule_of rule) names.now (left at.entry)) }
    ensures source { IfOk result (λ x. source_of x.1 ≡ source_of at.entry) }
    ensures shorter { IfOk result (λ x. length (left x.1) ≤ length (left at.entry)) }
{
    let (start, rest) = begin(names, rule, at)?;
    side_rest(alloc, names, start, rest)
}

// How a sign relates the sides.
fn relation_of(sign: &[u8]) -> Option<Rel>
    ensures { Held rel_of result (judges.relation_of sign.now) }
{
    if is(sign, b"<=") {
        Some(Rel::Le)
    } else if is(sign, b">=") {
        Some(Rel::Ge)
    } else if is(sign, b"=") {
        Some(Rel::Same)
    } else {
        None
    }
}

// The relation between the sides, with what is behind it.
#[tactic(auto, unfolding(trop_grammar::specs::Reading::token_at, shape_grammar::specs::Steps::token_past))]
fn relation<'a>(at: At<'a>) -> Result<(Rel, At<'a>), ReadErr<'a>>
    ensures gives { Gives (λ x. (rel_of x.0, left x.1)) result (operands.word_at judges.relation_of (left at.entry)) }
    ensures source { IfOk result (λ x. source_of x.1 ≡ source_of at.entry) }
    ensures shorter { IfOk result (λ x. length (left x.1) ≤ length (left at.entry)) }
{
    let here = at.past();
    let Some((entry, rest)) = here.next() else {
        return Err(ReadErr::Wrong(FaultKind::Syntax, here));
    };
    settle(
        relation_of(entry.text()).ok_or(FaultKind::Syntax),
        here,
        rest,
    )
}

/// A claim.
#[tactic(auto, unfolding(trop_grammar::specs::Reading::read_then, trop_grammar::specs::Reading::gives, prog_texts::specs::Claims::claim_at))]
pub fn claim<'a>(
    alloc: Global,
    names: &Names,
    rule: AssertRule,
    at: At<'a>,
) -> Result<(Claim, At<'a>), ReadErr<'a>>
    requires { length names.now ≤ 63 }
    ensures gives { Gives (λ x. (claim_of x.0, left x.1)) result
        (spec.claim_at program_limits (rule_of rule) names.now (left at.entry)) }
    ensures source { IfOk result (λ x. source_of x.1 ≡ source_of at.entry) }
    ensures shorter { IfOk result (λ x. length (left x.1) ≤ length (left at.entry)) }
{
    let (left, rest) = side(alloc, names, rule, at)?;
    let (rel, rest) = relation(rest)?;
    let (right, rest) = side(alloc, names, rule, rest)?;
    Ok((Claim { left, rel, right }, rest))
}
