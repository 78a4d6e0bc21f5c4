//! The program of a report, up to its `end`.
ghost use Rattle.std.specs.Prelude.{◌≡◌};
ghost use Rattle.trop_text.specs.Pieces.{pieces_left, pieces_from, tokens_left};
ghost use Rattle.trop_reading.specs.Gives.{Gives};
ghost use Rattle.prog_texts.specs.Words.{nothing_before};
ghost use Rattle.prog_reading.specs.Left.{left, before_of};
ghost use Rattle.prog_reading.specs.Gives as counted;
ghost use Rattle.prog_reading.specs.Rules.{rule_of};
ghost use Rattle.report_texts.specs.ProgramParts.{ended_at, program_part_at};
ghost use Rattle.report_reading.specs.Parts.{IsPlain};

use prog_lang::program_front;
use prog_reading::{AssertRule, At, ReadErr as ProgramErr, said};
use prog_tree::Program;
use std::alloc::Global;
use trop_reading::ReadErr;
use trop_text::Pieces;

// A program and the word `end`.
#[tactic(auto, unfolding(trop_grammar::specs::Reading::read_then, trop_grammar::specs::Reading::gives, report_texts::specs::ProgramParts::ended_at))]
fn ended<'a>(
    alloc: Global,
    rule: AssertRule,
    at: At<'a>,
) -> Result<(Program, At<'a>), ProgramErr<'a>>
    requires { before_of at.before ≡ nothing_before }
    ensures { counted.Gives (λ x. (x.0, left x.1)) result (ended_at (rule_of rule) (left at.entry)) }
{
    let (program, rest) = program_front(alloc, rule, at)?;
    let rest = said(rest, b"end")?;
    Ok((program, rest))
}

// The refusal, without what stands before its place.
fn plain(e: ProgramErr<'_>) -> ReadErr<'_>
    ensures { IsPlain e.entry result }
{
    match e {
        ProgramErr::Wrong(kind, at) => ReadErr::Wrong(kind, at.pieces),
        ProgramErr::NoMemory => ReadErr::NoMemory,
    }
}

// The program, with the word `end` behind it.
pub(crate) fn program_part<'a>(
    alloc: Global,
    rule: AssertRule,
    at: Pieces<'a>,
) -> Result<(Program, Pieces<'a>), ReadErr<'a>>
    requires { pieces_left at ≡ pieces_from (tokens_left at) 0 }
    ensures { Gives (λ x. (x.0, pieces_left x.1)) result (program_part_at (rule_of rule) (pieces_left at.entry)) }
{
    match ended(alloc, rule, At::begin(at.lexer())) {
        Ok((program, rest)) => Ok((program, rest.pieces)),
        Err(e) => Err(plain(e)),
    }
}
