//! A pass over all points.
ghost use Rattle.std.specs.Prelude.{◌≡◌, ◌||◌, ◌^◌, ◌<◌, ◌≤◌, MatchResult};
ghost use Rattle.dom_theory.specs.Passes.{Rises, Settles, Pass};
ghost use Rattle.dom_iter.specs.Fair.{AreValues, IsFair};
ghost use Rattle.dom_iter.specs.Steps.{stage, Raises, Settled};
ghost use Rattle.dom_iter.specs.Comes.{StopsAt};

use crate::error::IterErr;
use crate::step::{rise_point, settle_point};
use dom_core::{Domain, Spot};
use prog_graph::Graph;
use std::alloc::Global;

// Where a pass is in a turn, from 0, of one turn for each point: points come in the order of their numbers, so that a
// source below the point has its value of this pass already.
fn spot_in(pass: u64, turns: usize, turn: usize) -> Spot
    requires turn { turn < turns }
    requires few { turns ≤ 65536 }
    ensures { result ≡ record { pass = pass; point = turn } }
{
    prove!(turn < turns);
    Spot {
        pass,
        point: turn as u32,
    }
}

fn either(a: bool, b: bool) -> bool
    ensures { result ≡ (a || b) }
{
    a || b
}

/// A pass of the ascent; whether it has changed a head.
pub(crate) fn rise<D: Domain>(
    alloc: Global,
    graph: &Graph,
    values: &mut Vec<D>,
    changes: &mut Vec<u64>,
    delay: u32,
    pass: u64,
) -> Result<bool, IterErr>
    requires few { graph.now.vars ≤ D.MAX_VARS }
    requires delay { delay ≤ 1000 }
    requires fair { IsFair D.relations graph.now delay (stage values.old.items changes.old.items) }
    ensures { MatchResult result (λ changed. Raises D.relations graph.now delay pass
        (stage values.old.items changes.old.items) (stage values.new.items changes.new.items) changed)
        (StopsAt (Pass (Rises D.relations graph.now delay pass) graph.now (stage values.old.items changes.old.items))) }
{
    let count = graph.points().len();
    let mut changed = false;
    for q in 0..count {
        let spot = spot_in(pass, count, q);
        let moved = rise_point(alloc, graph, values, changes, delay, spot)?;
        changed = either(changed, moved);
    }
    Ok(changed)
}

/// A pass of the narrowing.
pub(crate) fn settle<D: Domain>(
    alloc: Global,
    graph: &Graph,
    values: &mut Vec<D>,
    pass: u64,
) -> Result<(), IterErr>
    requires few { graph.now.vars ≤ D.MAX_VARS }
    requires values { AreValues D.relations graph.now values.old.items }
    ensures { (counts : _) → MatchResult result
        (λ _. Settled D.relations graph.now pass counts values.old.items values.new.items)
        (StopsAt (Pass (Settles D.relations graph.now pass) graph.now (stage values.old.items counts))) }
{
    let count = graph.points().len();
    for q in 0..count {
        let spot = spot_in(pass, count, q);
        settle_point(alloc, graph, values, spot)?;
    }
    Ok(())
}
