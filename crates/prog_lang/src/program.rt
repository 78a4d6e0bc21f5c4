//! Programs as text.
ghost use Rattle.std.specs.Prelude.{◌≡◌, ◌≤◌, ◌<◌, ◌+◌, ◌*◌, ◌^◌, length, IfOk, IfErr, OnErr};
ghost use Rattle.trop_text.specs.Lexer.{left as tokens_left, source};
ghost use Rattle.trop_text.specs.Pieces.{pieces_from};
ghost use Rattle.trop_text.specs.declared.fault.FaultKind.TheVariants.{Syntax};
ghost use Rattle.shape_grammar.specs.Steps.{token_past};
ghost use Rattle.prog_theory.specs.Limits.{program_limits};
ghost use Rattle.prog_theory.specs.Named.{Named};
ghost use Rattle.prog_texts.specs.Words.{skipped, nothing_before, counted, program_pieces};
ghost use Rattle.prog_texts.specs.Judges as judges;
ghost use Rattle.prog_texts.specs.Programs as spec;
ghost use Rattle.prog_texts.specs.Parts as part_spec;
ghost use Rattle.prog_reading.specs.Left.{left, source_of, before_of};
ghost use Rattle.prog_reading.specs.Gives.{Gives};
ghost use Rattle.prog_reading.specs.Rules.{rule_of};
ghost use Rattle.prog_lang.specs.Outcomes.{Yields, IsProgramRefusal};

use crate::declaration::declaration;
use crate::placed::placed;
use crate::statements::statements;
use prog_reading::{AssertRule, At, ReadErr};
use prog_tree::Program;
use std::alloc::Global;
use trop_text::{FaultKind, Lexer, TextErr};

/// The most signs that stand open at once.
const MOST_DEPTH: u32 = 64;

// A program, as far as it goes.
#[tactic(auto, unfolding(trop_grammar::specs::Reading::read_then, trop_grammar::specs::Reading::gives, prog_texts::specs::Programs::program_at))]
pub(crate) fn program<'a>(
    alloc: Global,
    rule: AssertRule,
    at: At<'a>,
) -> Result<(Program, At<'a>), ReadErr<'a>>
    requires { before_of at.before ≡ nothing_before }
    ensures gives { Gives (λ x. (x.0, left x.1)) result (spec.program_at program_limits (rule_of rule) (left at.entry)) }
    ensures source { IfOk result (λ x. source_of x.1 ≡ source_of at.entry) }
{
    let (names, rest) = declaration(alloc, at)?;
    let (body, rest) = statements(alloc, &names, rule, MOST_DEPTH, rest)?;
    Ok((Program::new(names, body), rest))
}

// The end of the input.
#[tactic(auto, unfolding(trop_grammar::specs::Reading::token_at, shape_grammar::specs::Steps::token_past))]
pub(crate) fn input_end<'a>(at: At<'a>) -> Result<At<'a>, ReadErr<'a>>
    ensures { Gives (λ rest. (tt, left rest)) result (token_past skipped Syntax judges.ended (left at.entry)) }
{
    let here = at.past();
    match here.next() {
        Some((entry, rest)) if entry.is_end() => Ok(rest),
        _ => Err(ReadErr::Wrong(FaultKind::Syntax, here)),
    }
}

// A program up to the end of the input.
#[tactic(auto, unfolding(trop_grammar::specs::Reading::read_then, trop_grammar::specs::Reading::gives, prog_texts::specs::Programs::whole_program_at))]
fn whole_program<'a>(
    alloc: Global,
    rule: AssertRule,
    at: At<'a>,
) -> Result<(Program, At<'a>), ReadErr<'a>>
    requires { before_of at.before ≡ nothing_before }
    ensures { Gives (λ x. (x.0, left x.1)) result (spec.whole_program_at program_limits (rule_of rule) (left at.entry)) }
{
    let (program, rest) = program(alloc, rule, at)?;
    let rest = input_end(rest)?;
    Ok((program, rest))
}

/// Reads a program, under a rule for the words `max` and `min` in its asserts.
///
/// A refusal is the first fault in the order of the text, or `NoMemory`: `Syntax`, `UnknownName`, `DuplicateName`,
/// `NumberRange`, `TooManyVars`, `TooManyStatements`, `TooManyAtoms`, `TooDeep` or `AssertMode`.
pub fn read_program(alloc: Global, bytes: &[u8], rule: AssertRule) -> Result<Program, TextErr>
    requires { length bytes.now ≤ 2 ^ 31 }
    // What is read is spelled so.
    ensures found { IfOk result (λ p. spec.IsWholeProgram program_limits (rule_of rule) (program_pieces bytes.now) p) }
    // What is spelled so is read, unless memory runs out.
    ensures only { (p : Named) → spec.IsWholeProgram program_limits (rule_of rule) (program_pieces bytes.now) p → Yields (λ (q : Named). q) result p }
    // A fault is the first one, with its cause.
    ensures fault { IfErr result (IsProgramRefusal (rule_of rule) bytes.now) }
{
    let lexer = Lexer::new(bytes);
    match whole_program(alloc, rule, At::begin(lexer)) {
        Ok((program, _)) => Ok(program),
        Err(e) => Err(placed(&lexer, e)),
    }
}
