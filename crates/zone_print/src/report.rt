//! The whole report.
ghost use Rattle.std.specs.Prelude.{◌≡◌, All, map, length, IfOk};
ghost use Rattle.prog_theory.specs.ControlGraphs.{graph_of};
ghost use Rattle.prog_theory.specs.Graph.{points};
ghost use Rattle.prog_theory.specs.Named.{nameless};
ghost use Rattle.zone_lists.specs.Zones.{zone_of};
ghost use Rattle.short_print.specs.Blocks.{texts_of};
ghost use Rattle.zone_print.specs.Reports.{zone_block, IsZoneReport};

use crate::NoMemory;
use crate::block::block;
use dom_verdicts::verdicts;
use dom_zone::ZoneDomain;
use prog_graph::Graph;
use prog_tree::Program;
use short_print::{Head, print_short};
use std::alloc::Global;
use trop_text::Names;

// The lines of each point.
fn blocks(alloc: Global, names: &Names, parts: &[ZoneDomain]) -> Result<Vec<Vec<u8>>, NoMemory>
    requires { All (λ x. x.vars ≡ length names.now) parts.now }
    ensures { IfOk result (λ blocks. texts_of blocks.items ≡ map (zone_block names.now) (map zone_of parts.now)) }
{
    let mut out = Vec::new(alloc);
    for part in parts {
        out.push(block(alloc, names, part)?)?;
    }
    Ok(out)
}

/// The short report of these zones, one for each point of the program's control graph, in the order of points: `delay` and
/// `narrow` are the words of the analysis, and `passes` the number of its passes up to the end. Behind the `at` line of a
/// point stand the bounds of its closed matrix, by rows, as `inv x - y <= c`, `inv x <= c` and `inv -y <= c`; where its
/// zone is the empty one, `unreachable`.
///
/// Errors: want of memory.
pub fn print_zone(
    alloc: Global,
    program: &Program,
    graph: &Graph,
    delay: u32,
    narrow: u32,
    passes: u64,
    parts: &[ZoneDomain],
) -> Result<Vec<u8>, NoMemory>
    requires graph { graph.now ≡ graph_of (nameless program.now) }
    requires points { length parts.now ≡ length (points (nameless program.now)) }
    requires vars { All (λ x. x.vars ≡ length program.now.names) parts.now }
    ensures { IfOk result (λ text.
        IsZoneReport delay narrow passes program.now (map zone_of parts.now) text.items) }
{
    let blocks = blocks(alloc, program.names(), parts)?;
    let verdicts = verdicts(alloc, program, parts)?;
    let head = Head {
        word: b"zone",
        delay,
        narrow,
        passes,
    };
    print_short(alloc, head, program, graph, &blocks, &verdicts)
}
