//! Whole reports.
ghost use Rattle.std.specs.Prelude.{◌≡◌, ◌≤◌, ◌+◌, ◌^◌, [], All, IfOk, IfErr, length};
ghost use Rattle.prog_theory.specs.Graph.{points};
ghost use Rattle.prog_theory.specs.Named.{nameless};
ghost use Rattle.prog_theory.specs.ControlGraphs.{graph_of};
ghost use Rattle.trop_text.specs.Pieces.{pieces_left, pieces_of};
ghost use Rattle.trop_reading.specs.Gives.{Gives};
ghost use Rattle.trop_reading.specs.Outcome.{AnswersWith};
ghost use Rattle.report_texts.specs.Limits.{most_delay, most_narrow, most_passes};
ghost use Rattle.report_texts.specs.Lines as lines;
ghost use Rattle.report_texts.specs.Modes as modes;
ghost use Rattle.report_texts.specs.Reports.{ReportText, assert_numbers as numbers_of};
ghost use Rattle.report_texts.specs.Texts.{SpellsReport, report_at};
ghost use Rattle.report_value.specs.Kept.{IsPartKept};
ghost use Rattle.report_value.specs.Texts.{text_of};
ghost use Rattle.prog_reading.specs.Rules.{rule_of};
ghost use Rattle.report_reading.specs.Heads.{mode_of, head_of};
ghost use Rattle.report_reading.specs.Places.{block_of};
ghost use Rattle.report_reading.specs.Progress.{body_of};
ghost use Rattle.report_reading.specs.Wholes.{opening_at, lines_at, report_over};
ghost use Rattle.report_reading.specs.Outcomes.{IsReportRefusal};

use crate::asserts::assert_numbers;
use crate::body::body;
use crate::head::{Head, Mode, read_head, read_version};
use crate::part::program_part;
use crate::parts::{parts, verdicts};
use crate::progress::Body;
use prog_graph::{Graph, build};
use prog_reading::AssertRule;
use prog_tree::Program;
use report_value::{AnyReport, Report};
use std::alloc::{AllocError, Global};
use trop_reading::{ReadErr, input_end, line_end, text_err};
use trop_scalar::Scalar;
use trop_spelling::Spelling;
use trop_text::{Lexer, Pieces, TextErr};

// The rule for the words of asserts.
fn rule(mode: Mode) -> AssertRule
    ensures { rule_of result ≡ modes.rule_of (mode_of mode) }
{
    match mode {
        Mode::Max => AssertRule::MaxOnly,
        Mode::Min => AssertRule::MinOnly,
    }
}

// The head and the program, with the line of its `end`.
#[tactic(auto, unfolding(trop_grammar::specs::Reading::read_then, trop_grammar::specs::Reading::gives))]
fn opening<'a>(alloc: Global, at: Pieces<'a>) -> Result<((Head, Program), Pieces<'a>), ReadErr<'a>>
    ensures gives { Gives (λ x. ((head_of x.0.0, x.0.1), pieces_left x.1)) result (opening_at (pieces_left at.entry)) }
    ensures delay { IfOk result (λ x. x.0.0.delay ≤ most_delay) }
    ensures narrow { IfOk result (λ x. x.0.0.narrow ≤ most_narrow) }
{
    let (version, rest) = read_version(at)?;
    let (head, rest) = read_head(version, rest)?;
    let (program, rest) = program_part(alloc, rule(head.mode), rest)?;
    let rest = line_end(rest)?;
    Ok(((head, program), rest))
}

// The lines behind the program, up to the end of the input.
#[tactic(auto, unfolding(trop_grammar::specs::Reading::read_then, trop_grammar::specs::Reading::gives))]
fn all_lines<'a, S: Spelling>(
    alloc: Global,
    program: &Program,
    graph: &Graph,
    at: Pieces<'a>,
) -> Result<(Body<S>, Pieces<'a>), ReadErr<'a>>
    requires { graph.now ≡ graph_of (nameless program.now) }
    ensures { Gives (λ x. (body_of x.0, pieces_left x.1)) result
        (lines_at S.KIND S.ring S.numbering program.now (pieces_left at.entry)) }
{
    let numbers = assert_numbers(alloc, program, graph)?;
    let (body, rest) = body(
        alloc,
        program.names(),
        graph.points(),
        numbers.as_slice(),
        at,
    )?;
    let rest = input_end(rest)?;
    Ok((body, rest))
}

// The report that these parts make.
fn report<S: Scalar>(
    alloc: Global,
    head: Head,
    program: Program,
    graph: Graph,
    body: Body<S>,
) -> Result<Report<S>, AllocError>
    requires delay { head.delay ≤ most_delay }
    requires narrow { head.narrow ≤ most_narrow }
    requires passes { head.passes ≤ most_passes }
    requires graph { graph ≡ graph_of (nameless program) }
    requires parts { All (λ b. IsPartKept S.ring S.numbering (length program.names + 1)
        (lines.Block.part (block_of b))) body.blocks.items }
    requires points { length body.blocks.items ≡ length (points (nameless program)) }
    requires asserts { length body.judged.items ≡ length (numbers_of program) }
    ensures { IfOk result (λ r. r ≡ report_over (head_of head) program (body_of body)) }
{
    let n = program.vars() + 1;
    let Body { blocks, judged } = body;
    let parts = parts(alloc, n, blocks)?;
    let verdicts = verdicts(alloc, judged.as_slice())?;
    let delay = head.delay as u32;
    let narrow = head.narrow as u32;
    Ok(Report::new(delay, narrow, head.passes, program, graph, parts, verdicts))
}

// A whole report.
fn any_report<'a>(alloc: Global, bytes: &'a [u8]) -> Result<AnyReport, ReadErr<'a>>
    requires { length bytes.now ≤ 2 ^ 31 }
    ensures { Gives (λ r. (text_of r, [])) result (report_at (pieces_of bytes.now)) }
{
    let ((head, program), at) = opening(alloc, Pieces::new(Lexer::new(bytes), 0))?;
    let graph = build(alloc, &program)?;
    match head.mode {
        Mode::Max => {
            let (body, _) = all_lines(alloc, &program, &graph, at)?;
            Ok(AnyReport::Max(report(alloc, head, program, graph, body)?))
        }
        Mode::Min => {
            let (body, _) = all_lines(alloc, &program, &graph, at)?;
            Ok(AnyReport::Min(report(alloc, head, program, graph, body)?))
        }
    }
}

/// Reads a report, of version 1 or 2. In version 1 there are no narrowing passes.
///
/// A refusal is the first fault in the order of the text, or `NoMemory`: one of the program as `read_program` has it,
/// and besides `Syntax`, `NumberRange`, `TooManyLines`, and `ReportFault` where a whole line is against the report: a
/// number after `report` that is of no version; a ray whose elements are all the zero; a label, a number or a verdict
/// out of turn; a point or an assert that is missing; a block with `unreachable` and another line, or without a row
/// before what is not a row.
pub fn read_report(alloc: Global, bytes: &[u8]) -> Result<AnyReport, TextErr>
    requires { length bytes.now ≤ 2 ^ 31 }
    // What is read is spelled so.
    ensures found { IfOk result (λ r. SpellsReport (pieces_of bytes.now) (text_of r)) }
    // What is spelled so is read, unless memory runs out.
    ensures only { (r : ReportText) → SpellsReport (pieces_of bytes.now) r → AnswersWith text_of result r }
    // A fault is the first one, with its cause.
    ensures fault { IfErr result (IsReportRefusal bytes.now) }
{
    match any_report(alloc, bytes) {
        Ok(report) => Ok(report),
        Err(e) => Err(text_err(bytes, e)),
    }
}
