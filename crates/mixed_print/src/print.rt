//! Short reports over variables and their opposites.
ghost use Rattle.std.specs.Prelude.{◌≡◌, ℕ, All, length, IfOk, IfErr, OnOk};
ghost use Rattle.prog_theory.specs.ControlGraphs.{graph_of};
ghost use Rattle.prog_theory.specs.Graph.{points};
ghost use Rattle.prog_theory.specs.Named.{nameless};
ghost use Rattle.mixed_theory.specs.Halves.{variables};
ghost use Rattle.mixed_print.specs.Said.{IsListStop};
ghost use Rattle.mixed_print.specs.Texts.{IsMixedText};
ghost use Rattle.mixed_print.specs.Refusals.{IsPrintRefusal};

use crate::MixedErr;
use crate::blocks::blocks;
use dom_mixed::MixedDomain;
use dom_verdicts::verdicts;
use prog_graph::Graph;
use prog_tree::Program;
use short_print::{Head, print_short};
use std::alloc::Global;

/// The short report of a program and of a value for each of its points: behind the words of the analysis and the program
/// stand the rows of each value, with their external list where there are some, and for each assert whether the value of
/// its point proves the claim. A row has an entry for each variable and then one for the opposite of each; in an
/// inequality an opposite is written `-x`.
///
/// Errors: [`MixedErr::Polar`] exactly at the first point whose external list stops; want of memory.
pub fn print_mixed(
    alloc: Global,
    program: &Program,
    graph: &Graph,
    delay: u32,
    narrow: u32,
    passes: u64,
    parts: &[MixedDomain],
) -> Result<Vec<u8>, MixedErr>
    requires graph { graph.now ≡ graph_of (nameless program.now) }
    requires points { length parts.now ≡ length (points (nameless program.now)) }
    requires vars { All (λ v. variables v ≡ length program.now.names) parts.now }
    ensures text { IfOk result (λ text. IsMixedText delay narrow passes program.now parts.now text.items) }
    ensures unstopped { OnOk result (All (λ v. (i k : ℕ) → IsListStop v i k → ⊥) parts.now) }
    ensures refused { IfErr result (IsPrintRefusal program.now parts.now) }
{
    let blocks = blocks(alloc, program, parts)?;
    let verdicts = verdicts::<MixedDomain>(alloc, program, parts)?;
    let head = Head {
        word: b"mixed",
        delay,
        narrow,
        passes,
    };
    let text = print_short(alloc, head, program, graph, &blocks, &verdicts)?;
    Ok(text)
}
