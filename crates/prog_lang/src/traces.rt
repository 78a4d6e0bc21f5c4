//! Trace files.
ghost use Rattle.std.specs.Prelude.{◌≡◌, ◌≤◌, ◌^◌, length, IfOk, IfErr};
ghost use Rattle.prog_theory.specs.Limits.{program_limits};
ghost use Rattle.prog_texts.specs.AssertRule.{Either};
ghost use Rattle.prog_texts.specs.Words.{nothing_before, program_pieces};
ghost use Rattle.prog_texts.specs.Traces as spec;
ghost use Rattle.prog_reading.specs.Left.{left, before_of};
ghost use Rattle.prog_reading.specs.Gives.{Gives};
ghost use Rattle.prog_lang.specs.Outcomes.{Yields};
ghost use Rattle.prog_lang.specs.TraceOutcomes.{trace_file_of, IsTraceRefusal};

use crate::placed::placed;
use crate::program::{input_end, program};
use crate::rows::{RowRule, row};
use prog_reading::{AssertRule, At, ReadErr, said};
use prog_tree::{Numbers, Program};
use std::alloc::Global;
use trop_text::{Lexer, TextErr};

/// A program, and what the chosen run of it begins with.
#[derive(Drop)]
pub struct TraceFile {
    /// The program.
    pub program: Program,
    /// The state in which it starts: one number for each variable, in the order of the declaration.
    pub start: Numbers,
    /// The choices, in the order in which they are taken.
    pub choices: Numbers,
}

// A trace file.
#[tactic(auto, unfolding(trop_grammar::specs::Reading::read_then, trop_grammar::specs::Reading::gives, prog_texts::specs::Traces::trace_file_at))]
fn trace_file<'a>(alloc: Global, at: At<'a>) -> Result<(TraceFile, At<'a>), ReadErr<'a>>
    requires { before_of at.before ≡ nothing_before }
    ensures { Gives (λ x. (trace_file_of x.0, left x.1)) result (spec.trace_file_at program_limits Either (left at.entry)) }
{
    let (program, rest) = program(alloc, AssertRule::Any, at)?;
    let rest = said(rest, b"start")?;
    let (start, rest) = row(alloc, RowRule::OneEach, rest)?;
    let rest = said(rest, b"choices")?;
    let (choices, rest) = row(alloc, RowRule::AnyNumber, rest)?;
    let rest = input_end(rest)?;
    let file = TraceFile {
        program,
        start,
        choices,
    };
    Ok((file, rest))
}

/// Reads a trace file: a program, in which asserts may have both `max` and `min`, and then `start ROW choices ROW`. Numbers
/// of rows have size at most 2^40.
///
/// A refusal is the first fault in the order of the text, or `NoMemory`.
pub fn read_trace_file(alloc: Global, bytes: &[u8]) -> Result<TraceFile, TextErr>
    requires { length bytes.now ≤ 2 ^ 31 }
    // What is read is spelled so.
    ensures found { IfOk result (λ t. spec.IsTraceFile program_limits Either (program_pieces bytes.now) (trace_file_of t)) }
    // What is spelled so is read, unless memory runs out.
    ensures only { (x : spec.TraceFile) → spec.IsTraceFile program_limits Either (program_pieces bytes.now) x → Yields trace_file_of result x }
    // A fault is the first one, with its cause.
    ensures fault { IfErr result (IsTraceRefusal bytes.now) }
    // It starts with one number for each variable, and no number is too great.
    ensures within { IfOk result (λ t. spec.IsTraceWithin program_limits (trace_file_of t)) }
{
    let lexer = Lexer::new(bytes);
    match trace_file(alloc, At::begin(lexer)) {
        Ok((file, _)) => Ok(file),
        Err(e) => Err(placed(&lexer, e)),
    }
}
