// The slots of a new row, and its cover.
ghost use Rattle.std.specs.Prelude.{◌≡◌, ◌+◌, ◌^◌, ◌<◌, ◌≤◌, ◌++◌, [], ◌∷◌, ℕ, All, IfOk, OnOk, length, min};
ghost use Rattle.trop_theory.specs.Sizes.{most_element};
ghost use Rattle.trop_criterion.specs.Hypergraphs.{Has};
ghost use Rattle.trop_pruning.specs.Open.{IsOpen};
ghost use Rattle.trop_pruning.specs.PairEdges.{slot_at};
ghost use Rattle.trop_pruning.specs.Carried.{AddsPlace};
ghost use Rattle.trop_pruning.specs.Merged.{AreMergedTo};

use crate::keeping::left_alone;
use crate::slot::{RowSlot, merged};
use std::alloc::{AllocError, Global};
use trop_hyper::{Edge, Looks, Mask};
use trop_scalar::Scalar;

/// Slots, and the places of those that give a hyperedge.
#[derive(Drop)]
pub struct Slots<S: Scalar> {
    /// One for each inequality, in their order.
    pub slots: Vec<RowSlot<S>>,
    /// The places in `slots`, from 0, of those that give a hyperedge.
    pub places: Vec<usize>,
}

// Puts one more slot behind those that are there.
fn push_slot<S: Scalar>(all: &mut Slots<S>, slot: RowSlot<S>) -> Result<(), AllocError>
    ensures slots { OnOk result (all.new.slots.items ≡ all.old.slots.items ++ slot ∷ []) }
    ensures places { OnOk result (AddsPlace slot (length all.old.slots.items) all.old.places.items
        all.new.places.items) }
{
    if slot.head.is_empty() {
        all.slots.push(slot)?;
        return Ok(());
    }
    all.places.push(all.slots.len())?;
    all.slots.push(slot)?;
    Ok(())
}

/// The slots that are put together from those of two rows, place by place. Each place is looked at once.
pub fn merge_all<S: Scalar>(
    alloc: Global,
    first: &[RowSlot<S>],
    left: S,
    second: &[RowSlot<S>],
    right: S,
    looks: &mut Looks,
) -> Result<Slots<S>, AllocError>
    requires lengths { length first.now ≡ length second.now }
    requires left_size { All (λ slot. S.ring.size left + S.ring.size slot.sum ≤ most_element) first.now }
    requires right_size { All (λ slot. S.ring.size right + S.ring.size slot.sum ≤ most_element) second.now }
    ensures merged { IfOk result (λ all. AreMergedTo S.ring left right first.now second.now
        (length first.now) all.slots.items all.places.items) }
    ensures counted { min (looks.old + length first.now) (2 ^ 62) ≤ looks.new }
    ensures kept { looks.old ≤ looks.new }
{
    looks.add(first.len());
    let mut all = Slots {
        slots: Vec::with_capacity(alloc, first.len() + 1)?,
        places: Vec::new(alloc),
    };
    for k in 0..first.len() {
        let slot = merged(first[k], left, second[k], right);
        push_slot(&mut all, slot)?;
    }
    Ok(all)
}

/// The nodes that some of the hyperedges leave alone. Each hyperedge is looked at once.
pub fn cover_of(edges: &[Edge], looks: &mut Looks) -> Mask
    requires { All (λ edge. (j : ℕ) × Has edge.tail j) edges.now }
    ensures cover { (u : ℕ) → (Has result u → ⊥) → IsOpen edges.now u }
    ensures counted { min (looks.old + length edges.now) (2 ^ 62) ≤ looks.new }
    ensures kept { looks.old ≤ looks.new }
{
    looks.add(edges.len());
    let mut cover = Mask::empty();
    for edge in edges {
        cover = cover.union(left_alone(edge.tail, edge.head));
    }
    cover
}
