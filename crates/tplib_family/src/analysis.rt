//! The analysis, with its stops as those of a command.
ghost use Rattle.std.specs.Prelude.{◌≡◌, ◌≤◌, ◌+◌, ◌*◌, length, IfOk, IfErr};
ghost use Rattle.dom_theory.specs.Analysis.{Analysis};
ghost use Rattle.dom_theory.specs.Outcomes.{Gives};
ghost use Rattle.tplib_family.specs.Stopped.{part_named, stop_named, refusal_of};
ghost use Rattle.tplib_family.specs.Stops.{IsAnalysisRefusal};
ghost use Rattle.tplib_family.specs.Family.{end_of};

use dom_core as domain;
use dom_core::Domain;
use dom_iter::{Family, IterErr, analyse};
use prog_graph::Graph;
use std::alloc::Global;
use tplib_reply::{Part, Place, Refusal, Stop};

fn part(part: domain::Part) -> Part
    ensures { result ≡ part_named part }
{
    match part {
        domain::Part::Edge(number) => Part::Edge(number),
        domain::Part::Sum(number) => Part::Sum(number),
        domain::Part::Head => Part::Head,
        domain::Part::Polar(coordinate, rows) => Part::Polar(coordinate, rows),
        domain::Part::Kept(members) => Part::Kept(members),
    }
}

fn stop(place: domain::Place) -> Stop
    ensures { result ≡ stop_named place }
{
    Stop::At(Place {
        pass: place.pass,
        point: place.point,
        part: part(place.part),
    })
}

// Why there is no family.
fn stopped(e: IterErr) -> Refusal
    ensures { result ≡ refusal_of e }
{
    match e {
        IterErr::Limit(place) => Refusal::Limit(stop(place)),
        IterErr::Range(place) => Refusal::Range(stop(place)),
        IterErr::NoMemory => Refusal::NoMemory,
    }
}

/// What comes of the analysis of the graph by the domain: the value of each point, and the number of passes of the
/// ascent.
///
/// Errors: `Limit` or `Range` at the first part of the analysis that is refused; want of memory.
pub fn family<D: Domain>(
    alloc: Global,
    graph: &Graph,
    delay: u32,
    narrow: u32,
) -> Result<Family<D>, Refusal>
    requires few { graph.now.vars ≤ D.MAX_VARS }
    requires delay { delay ≤ 1000 }
    requires narrow { narrow ≤ 100 }
    ensures gives { IfOk result (λ f. Analysis D.relations graph.now delay narrow (Gives (end_of f))) }
    ensures passes { IfOk result (λ f. f.passes ≤
        length graph.now.heads * (delay + D.relations.max_width graph.now.vars + 1) + 1) }
    ensures refused { IfErr result (IsAnalysisRefusal (Analysis D.relations graph.now delay narrow)) }
{
    match analyse::<D>(alloc, graph, delay, narrow) {
        Ok(family) => Ok(family),
        Err(e) => Err(stopped(e)),
    }
}
