//! A point in a pass.
ghost use Rattle.std.specs.Prelude.{◌≡◌, ◌+◌, ◌^◌, ◌<◌, ◌≤◌, length, slice_index_or, MatchResult, if◌then◌else◌, false, MatchBool, ◌⊎◌};
ghost use Rattle.dom_theory.specs.Outcomes.{Gives};
ghost use Rattle.dom_theory.specs.Passes.{HeadStep, Rises, Settles, put};
ghost use Rattle.dom_core.specs.Views.{spot_of};
ghost use Rattle.dom_iter.specs.Fair.{AreValues};
ghost use Rattle.dom_iter.specs.Steps.{stage, held_after, Moves};
ghost use Rattle.dom_iter.specs.Comes.{StopsAt};

use crate::error::IterErr;
use crate::parts::{join_at, widen_at};
use crate::sum::sum_at;
use dom_core::{Domain, Part, Spot};
use prog_graph::Graph;
use std::alloc::Global;

/// Whether a head that changes takes a join, and is not widened.
fn takes_join<D: Domain>(vars: u32, value: &D, changes: u64, delay: u32) -> bool
    requires { D.relations.vars value.now ≡ vars }
    ensures { MatchBool result ((value.now ≡ D.relations.bottom vars) ⊎ (changes < delay))
        ((¬ value.now ≡ D.relations.bottom vars) × (delay ≤ changes)) }
{
    if changes < u64::from(delay) {
        true
    } else {
        value.is_bottom()
    }
}

/// The new value of a head that the sum reaches; none where it keeps its value.
fn change<D: Domain>(
    alloc: Global,
    graph: &Graph,
    value: &D,
    changes: u64,
    sum: &D,
    delay: u32,
    spot: Spot,
) -> Result<Option<D>, IterErr>
    requires value { D.relations.vars value.now ≡ graph.now.vars }
    requires sum { D.relations.vars sum.now ≡ graph.now.vars }
    ensures { MatchResult result (λ o. HeadStep D.relations graph.now delay (spot_of spot) value.now changes sum.now
        (Gives (held_after value.now changes o)))
        (StopsAt (HeadStep D.relations graph.now delay (spot_of spot) value.now changes sum.now)) }
{
    if sum.included(value) {
        return Ok(None);
    }
    let joins = takes_join(graph.vars(), value, changes, delay);
    if joins {
        match join_at(alloc, value, sum, spot, Part::Head) {
            Ok(joined) => Ok(Some(joined)),
            Err(error) => Err(error),
        }
    } else {
        match widen_at(alloc, value, sum, spot) {
            Ok(wider) => Ok(Some(wider)),
            Err(error) => Err(error),
        }
    }
}

/// A point in a pass of the ascent; whether it has changed as a head.
pub(crate) fn rise_point<D: Domain>(
    alloc: Global,
    graph: &Graph,
    values: &mut Vec<D>,
    changes: &mut Vec<u64>,
    delay: u32,
    spot: Spot,
) -> Result<bool, IterErr>
    requires few { graph.now.vars ≤ D.MAX_VARS }
    requires point { spot.point < length graph.now.points }
    requires values { AreValues D.relations graph.now values.old.items }
    requires counts { length changes.old.items ≡ length graph.now.points }
    requires room { slice_index_or changes.old.items spot.point 0 < 2 ^ 63 }
    ensures { MatchResult result (λ changed. Moves
        (Rises D.relations graph.now delay spot.pass (stage values.old.items changes.old.items) spot.point)
        (stage values.old.items changes.old.items) (stage values.new.items changes.new.items) spot.point changed)
        (StopsAt (Rises D.relations graph.now delay spot.pass (stage values.old.items changes.old.items) spot.point)) }
{
    let q = spot.point as usize;
    let sum = sum_at(alloc, graph, values.as_slice(), spot)?;
    if graph.is_head(spot.point) {
        let count = changes[q];
        let changed = change(alloc, graph, &values[q], count, &sum, delay, spot)?;
        match changed {
            Some(value) => {
                values[q] = value;
                changes[q] = count + 1;
                Ok(true)
            }
            None => Ok(false),
        }
    } else {
        values[q] = sum;
        Ok(false)
    }
}

// In a pass of the narrowing a point takes what reaches it, whatever it had.
fn take<D: Domain>(kept: &mut D, sum: D)
    requires { D.relations.vars kept.old ≡ D.relations.vars sum }
    ensures { kept.new ≡ sum }
{
    *kept = sum;
}

/// A point in a pass of the narrowing.
pub(crate) fn settle_point<D: Domain>(
    alloc: Global,
    graph: &Graph,
    values: &mut Vec<D>,
    spot: Spot,
) -> Result<(), IterErr>
    requires few { graph.now.vars ≤ D.MAX_VARS }
    requires point { spot.point < length graph.now.points }
    requires values { AreValues D.relations graph.now values.old.items }
    ensures { (counts : _) → MatchResult result
        (λ _. Moves (Settles D.relations graph.now spot.pass (stage values.old.items counts) spot.point)
        (stage values.old.items counts) (stage values.new.items counts) spot.point false)
        (StopsAt (Settles D.relations graph.now spot.pass (stage values.old.items counts) spot.point)) }
{
    let sum = sum_at(alloc, graph, values.as_slice(), spot)?;
    take(&mut values[spot.point as usize], sum);
    Ok(())
}
