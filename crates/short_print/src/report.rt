//! Short reports.
ghost use Rattle.std.specs.Prelude.{◌≡◌, ◌++◌, length, IfOk};
ghost use Rattle.prog_theory.specs.Graph.{points};
ghost use Rattle.prog_theory.specs.Named.{nameless};
ghost use Rattle.prog_theory.specs.ControlGraphs.{graph_of};
ghost use Rattle.report_texts.specs.Reports.{assert_numbers};
ghost use Rattle.short_texts.specs.Short.{short_text};
ghost use Rattle.short_print.specs.Blocks.{texts_of};

use crate::NoMemory;
use crate::blocks::push_blocks;
use crate::head::{Head, push_head};
use prog_graph::Graph;
use prog_print::push_program;
use prog_tree::Program;
use report_lines::push_verdicts;
use std::alloc::Global;

/// The short report as it is printed: the head, the program, the texts of its blocks by the numbers of points, each behind
/// the line of its point, and the verdicts by the order of asserts, true for proved.
///
/// Errors: want of memory.
pub fn print_short(
    alloc: Global,
    head: Head<'_>,
    program: &Program,
    graph: &Graph,
    blocks: &[Vec<u8>],
    verdicts: &[bool],
) -> Result<Vec<u8>, NoMemory>
    requires graph { graph.now ≡ graph_of (nameless program.now) }
    requires points { length blocks.now ≡ length (points (nameless program.now)) }
    requires asserts { length verdicts.now ≡ length (assert_numbers program.now) }
    ensures { IfOk result (λ text. text.items ≡ short_text (record {
      word = head.entry.word.now;
      delay = head.entry.delay;
      narrow = head.entry.narrow;
      passes = head.entry.passes;
      program = program.now;
      blocks = texts_of blocks.now;
      verdicts = verdicts.now;
    })) }
{
    let mut text = Vec::new(alloc);
    push_head(&mut text, head)?;
    push_program(&mut text, program)?;
    text.extend_from_slice(b"end\n")?;
    push_blocks(&mut text, graph.points().as_slice(), blocks)?;
    push_verdicts(&mut text, alloc, program, verdicts)?;
    text.extend_from_slice(b"end\n")?;
    Ok(text)
}
