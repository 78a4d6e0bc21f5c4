//! The numbers of the asserts of a program.
ghost use Rattle.std.specs.Prelude.{◌≡◌, IfOk};
ghost use Rattle.prog_theory.specs.Named.{nameless};
ghost use Rattle.prog_theory.specs.ControlGraphs.{graph_of};
ghost use Rattle.report_texts.specs.Reports.{assert_numbers as numbers_of};
ghost use Rattle.report_reading.specs.Asserts.{numbers_in};

use prog_asserts::{Assertion, asserts};
use prog_graph::Graph;
use prog_tree::Program;
use std::alloc::{AllocError, Global};

type NoMemory = AllocError;

// The numbers of these asserts.
fn numbers(alloc: Global, asserts: &[Assertion<'_>]) -> Result<Vec<u32>, NoMemory>
    ensures { IfOk result (λ numbers. numbers.items ≡ numbers_in asserts.now) }
{
    let mut out = Vec::new(alloc);
    for assertion in asserts {
        out.push(assertion.number)?;
    }
    Ok(out)
}

// The numbers of the asserts of the program, in order. The graph is the program's.
#[tactic(auto, using(crate::proofs::Numbers::numbers_all))]
pub(crate) fn assert_numbers(
    alloc: Global,
    program: &Program,
    graph: &Graph,
) -> Result<Vec<u32>, NoMemory>
    requires { graph.now ≡ graph_of (nameless program.now) }
    ensures { IfOk result (λ numbers. numbers.items ≡ numbers_of program.now) }
{
    let found = asserts(alloc, program, graph)?;
    numbers(alloc, found.as_slice())
}
