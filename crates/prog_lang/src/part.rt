//! Programs that are a part of a text.
ghost use Rattle.std.specs.Prelude.{◌≡◌, ◌++◌, List, IfOk, IfErr, OnErr};
ghost use Rattle.trop_text.specs.Lexer.{left as tokens_left, source};
ghost use Rattle.trop_text.specs.declared.fault.FaultKind.TheVariants.{Syntax};
ghost use Rattle.shape_grammar.specs.Steps.{token_past};
ghost use Rattle.prog_theory.specs.Limits.{program_limits};
ghost use Rattle.prog_theory.specs.Named.{Named};
ghost use Rattle.prog_texts.specs.Words.{Counted, skipped, nothing_before};
ghost use Rattle.prog_texts.specs.Programs.{closed, program_at, IsProgram};
ghost use Rattle.prog_texts.specs.Parts.{part_at};
ghost use Rattle.prog_reading.specs.Left.{left, source_of, before_of};
ghost use Rattle.prog_reading.specs.Gives.{Gives};
ghost use Rattle.prog_reading.specs.Rules.{rule_of};
ghost use Rattle.prog_lang.specs.Outcomes.{Yields, IsClosing, IsReadPart, IsPartRefusal, part_pieces};

use crate::placed::placed;
use crate::program::program;
use prog_reading::{AssertRule, At, ReadErr};
use prog_tree::Program;
use std::alloc::Global;
use trop_text::{FaultKind, Lexer, TextErr};

// The token that ends a program.
#[tactic(auto, unfolding(trop_grammar::specs::Reading::token_at, shape_grammar::specs::Steps::token_past))]
fn closing<'a>(at: At<'a>) -> Result<At<'a>, ReadErr<'a>>
    ensures { Gives (λ rest. (tt, left rest)) result (token_past skipped Syntax closed (left at.entry)) }
{
    let here = at.past();
    match here.next() {
        Some((entry, rest)) if entry.closes() => Ok(rest),
        _ => Err(ReadErr::Wrong(FaultKind::Syntax, here)),
    }
}

// A program, before a token that ends it.
#[tactic(auto, unfolding(trop_grammar::specs::Reading::read_then, prog_texts::specs::Parts::part_at, prog_texts::specs::Parts::before_closing))]
fn part<'a>(alloc: Global, rule: AssertRule, at: At<'a>) -> Result<(Program, At<'a>), ReadErr<'a>>
    requires { before_of at.before ≡ nothing_before }
    ensures gives { Gives (λ x. (x.0, left x.1)) result (part_at program_limits (rule_of rule) (left at.entry)) }
    ensures source { IfOk result (λ x. source_of x.1 ≡ source_of at.entry) }
{
    let (program, rest) = program(alloc, rule, at)?;
    let _ = closing(rest)?;
    Ok((program, rest))
}

/// A program at the front of a text, as far as it goes, under a rule for the words `max` and `min` in its asserts. For a
/// reader that goes on behind it.
pub fn program_front<'a>(
    alloc: Global,
    rule: AssertRule,
    at: At<'a>,
) -> Result<(Program, At<'a>), ReadErr<'a>>
    requires { before_of at.before ≡ nothing_before }
    ensures gives { Gives (λ x. (x.0, left x.1)) result (program_at program_limits (rule_of rule) (left at.entry)) }
    ensures source { IfOk result (λ x. source_of x.1 ≡ source_of at.entry) }
{
    program(alloc, rule, at)
}

/// Reads a program from the next tokens of a lexer, under a rule for the words `max` and `min` in its asserts. It ends
/// before the word `end` or `start` in the place of a statement that stands in no block, or where no token is left; there
/// the lexer stands then.
///
/// A refusal is the first fault of these tokens, with its place in the lexer's source, or `NoMemory`.
pub fn read_program_part<'a>(
    alloc: Global,
    lexer: &mut Lexer<'a>,
    rule: AssertRule,
) -> Result<Program, TextErr>
    // What is read is spelled so, and the tokens behind it are left.
    ensures found { IfOk result (λ p. IsReadPart (rule_of rule) (tokens_left lexer.old) p (tokens_left lexer.new)) }
    // What is spelled so, before a token that ends it, is read, unless memory runs out.
    ensures only { (front rest : List Counted) (p : Named) → part_pieces (tokens_left lexer.old) ≡ front ++ rest → IsProgram program_limits (rule_of rule) front p → IsClosing rest → Yields (λ (q : Named). q) result p }
    // A fault is the first one, with its cause.
    ensures fault { IfErr result (IsPartRefusal (rule_of rule) (source lexer.old) (tokens_left lexer.old)) }
    ensures stays { OnErr result (lexer.new ≡ lexer.old) }
    ensures source { source lexer.new ≡ source lexer.old }
{
    let start = lexer.copy();
    match part(alloc, rule, At::begin(start)) {
        Ok((program, rest)) => {
            *lexer = rest.pieces.lexer();
            Ok(program)
        }
        Err(e) => Err(placed(&start, e)),
    }
}
