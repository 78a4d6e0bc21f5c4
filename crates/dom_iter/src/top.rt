//! The whole analysis.
ghost use Rattle.std.specs.Prelude.{◌≡◌, ◌+◌, ◌*◌, ◌≤◌, ℕ, length, slice_index_or, replicate, MatchResult, IfOk, ◌^◌};
ghost use Rattle.prog_theory.specs.States.{State};
ghost use Rattle.prog_theory.specs.Walks.{Reaches};
ghost use Rattle.dom_theory.specs.Outcomes.{Stop, Stops};
ghost use Rattle.dom_theory.specs.Analysis.{Ascent, Analysis, Narrows, at_first};
ghost use Rattle.dom_iter.specs.Fair.{AreValues, IsFair, most_changes};
ghost use Rattle.dom_iter.specs.Steps.{stage, IsFirst, Ascends, Narrowed};
ghost use Rattle.dom_iter.specs.Answers.{IsAnalysis};
ghost use Rattle.dom_iter.specs.Comes.{StopsAt};

use crate::error::IterErr;
use crate::family::Family;
use crate::pass::{rise, settle};
use dom_core::Domain;
use prog_graph::Graph;
use std::alloc::Global;

/// Nothing at each point.
fn first_values<D: Domain>(alloc: Global, graph: &Graph) -> Result<Vec<D>, IterErr>
    requires { graph.now.vars ≤ D.MAX_VARS }
    ensures { IsFirst (at_first D.relations graph.now).values result }
{
    let vars = graph.vars();
    let count = graph.points().len();
    let mut values = Vec::new(alloc);
    for _ in 0..count {
        match D::bottom(alloc, vars) {
            Ok(value) => {
                if values.push(value).is_err() {
                    return Err(IterErr::NoMemory);
                }
            }
            Err(_) => return Err(IterErr::NoMemory),
        }
    }
    Ok(values)
}

/// No change at each point.
fn first_changes(alloc: Global, points: usize) -> Result<Vec<u64>, IterErr>
    ensures { IsFirst (replicate points 0) result }
{
    let mut changes = Vec::new(alloc);
    for _ in 0..points {
        if changes.push(0).is_err() {
            return Err(IterErr::NoMemory);
        }
    }
    Ok(changes)
}

/// The ascent from the first stage; the number of its last pass.
fn ascend<D: Domain>(
    alloc: Global,
    graph: &Graph,
    values: &mut Vec<D>,
    changes: &mut Vec<u64>,
    delay: u32,
) -> Result<u64, IterErr>
    requires few { graph.now.vars ≤ D.MAX_VARS }
    requires delay { delay ≤ 1000 }
    requires fair { IsFair D.relations graph.now delay (stage values.old.items changes.old.items) }
    ensures { MatchResult result (λ passes. Ascends D.relations graph.now delay
        (stage values.old.items changes.old.items) (stage values.new.items changes.new.items) passes)
        (StopsAt (Ascent D.relations graph.now delay 1 (stage values.old.items changes.old.items))) }
{
    let _vars = graph.vars();
    let mut pass = 1;
    loop {
        let changed = rise(alloc, graph, values, changes, delay, pass)?;
        if changed {
            pass += 1;
        } else {
            return Ok(pass);
        }
    }
}

/// The passes of the narrowing.
fn narrow_down<D: Domain>(
    alloc: Global,
    graph: &Graph,
    values: &mut Vec<D>,
    narrow: u32,
    pass: u64,
) -> Result<(), IterErr>
    requires few { graph.now.vars ≤ D.MAX_VARS }
    requires values { AreValues D.relations graph.now values.old.items }
    requires room { pass ≤ 2 ^ 63 }
    ensures { (counts : _) → MatchResult result
        (λ _. Narrowed D.relations graph.now narrow pass counts values.old.items values.new.items)
        (StopsAt (Narrows D.relations graph.now narrow pass (stage values.old.items counts))) }
{
    for k in 0..narrow {
        settle(alloc, graph, values, pass + u64::from(k))?;
    }
    Ok(())
}

/// Analyses the graph: an ascent that widens its heads behind `delay` changes, and then `narrow` passes that take what
/// reaches each point.
pub fn analyse<D: Domain>(
    alloc: Global,
    graph: &Graph,
    delay: u32,
    narrow: u32,
) -> Result<Family<D>, IterErr>
    requires few { graph.now.vars ≤ D.MAX_VARS }
    requires delay { delay ≤ 1000 }
    requires narrow { narrow ≤ 100 }
    ensures comes { IsAnalysis (Analysis D.relations graph.now delay narrow) result }
    ensures unstopped { IfOk result (λ f. (stop : Stop) → Analysis D.relations graph.now delay narrow (Stops stop)
        → ⊥) }
    ensures covers { IfOk result (λ f. (q : ℕ) (s : State) → Reaches graph.now q s
        → D.relations.has (slice_index_or f.values.items q (D.relations.bottom graph.now.vars)) s) }
    ensures passes { IfOk result (λ f. f.passes ≤ length graph.now.heads *
        (delay + D.relations.max_width graph.now.vars + 1) + 1) }
{
    let mut values = first_values(alloc, graph)?;
    let count = graph.points().len();
    let mut changes = first_changes(alloc, count)?;
    let passes = ascend(alloc, graph, &mut values, &mut changes, delay)?;
    narrow_down(alloc, graph, &mut values, narrow, passes + 1)?;
    Ok(Family { passes, values })
}
