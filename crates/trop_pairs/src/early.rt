// An early test of a pair, before its hypergraph is put together: which nodes some hyperedge still leaves alone.
ghost use Rattle.std.specs.Prelude.{◌≡◌, ◌⊎◌, ◌+◌, ◌^◌, ◌<◌, ◌≤◌, ℕ, List, All, IsTrue, IsFalse, length, min};
ghost use Rattle.trop_theory.specs.Sizes.{most_element};
ghost use Rattle.trop_criterion.specs.Hypergraphs.{Has};
ghost use Rattle.trop_pruning.specs.PairEdges.{HasEdge, slot_at};
ghost use Rattle.trop_pruning.specs.Pairs.{GivesTyped};
ghost use Rattle.trop_pruning.specs.Judged.{IsPair};
ghost use Rattle.trop_pairs.specs.Early.{IsSpared};

use crate::carried::{Carried, nodes_of};
use crate::slot::RowSlot;
use crate::words::closed_by;
use trop_hyper::{Looks, Mask};
use trop_row::{Ineq, System};
use trop_scalar::Scalar;

// Whether the first slot, of which the node is the whole tail, has it alone in the tail of the sum as well.
fn survives<S: Scalar>(first: RowSlot<S>, left: S, second: RowSlot<S>, right: S, node: u32) -> bool
    requires node { node < 64 }
    requires left_size { S.ring.size left + S.ring.size first.sum ≤ most_element }
    requires right_size { S.ring.size right + S.ring.size second.sum ≤ most_element }
    ensures { IsFalse result → IsSpared S.ring left right first second node }
{
    let a = left.times(first.sum);
    let b = right.times(second.sum);
    if a == b {
        return second.tail.without(node).is_empty();
    }
    b.le(a)
}

// The set, with the node that the hyperedge of the first slot leaves alone in the sum.
fn with_spared<S: Scalar>(
    before: Mask,
    first: RowSlot<S>,
    left: S,
    second: RowSlot<S>,
    right: S,
) -> Mask
    requires some { HasEdge first → (j : ℕ) × Has first.tail j }
    requires left_size { S.ring.size left + S.ring.size first.sum ≤ most_element }
    requires right_size { S.ring.size right + S.ring.size second.sum ≤ most_element }
    ensures stay { (u : ℕ) → (Has result u → ⊥) → Has before u → ⊥ }
    ensures spared { (u : ℕ) → (Has result u → ⊥) → IsSpared S.ring left right first second u }
{
    if before.contains(first.tail) {
        return before;
    }
    match first.tail.first() {
        None => before,
        Some(node) => {
            if first.tail.without(node).is_empty() && survives(first, left, second, right, node) {
                before.with(node)
            } else {
                before
            }
        }
    }
}

// The nodes of `start` and those that the hyperedges of the first slots at the places leave alone in the sum.
fn covered<S: Scalar>(
    places: &[usize],
    first: &[RowSlot<S>],
    left: S,
    second: &[RowSlot<S>],
    right: S,
    start: Mask,
    looks: &mut Looks,
) -> Mask
    requires first_within { All (λ k. k < length first.now) places.now }
    requires second_within { All (λ k. k < length second.now) places.now }
    requires some { All (λ slot. HasEdge slot → (j : ℕ) × Has slot.tail j) first.now }
    requires left_size { All (λ slot. S.ring.size left + S.ring.size slot.sum ≤ most_element) first.now }
    requires right_size { All (λ slot. S.ring.size right + S.ring.size slot.sum ≤ most_element) second.now }
    ensures start { (u : ℕ) → (Has result u → ⊥) → Has start u → ⊥ }
    ensures spared { (u : ℕ) → (Has result u → ⊥) → All (λ k. IsSpared S.ring left right
        (slot_at S.ring first.now k) (slot_at S.ring second.now k) u) places.now }
    ensures counted { min (looks.old + length places.now) (2 ^ 62) ≤ looks.new }
    ensures kept { looks.old ≤ looks.new }
{
    looks.add(places.len());
    let mut covered = start;
    for place in places {
        covered = with_spared(covered, first[*place], left, second[*place], right);
    }
    covered
}

// Whether what the pair gives has two open nodes, or one that is none of the types.
fn rules_out(left: Mask, types: Mask) -> bool
    ensures { IsTrue result → (t : ℕ) → Has types t → ((u : ℕ) → Has left u → u ≡ t) → ⊥ }
{
    match left.first() {
        None => false,
        Some(u) => !left.without(u).is_empty() || !types.has(u),
    }
}

/// Whether what the pair gives has two nodes that no hyperedge leaves alone, or one that is no type of the second row,
/// so that it gives no row that has to be found. `slot` is that of the inequality at what the pair gives. Each place
/// whose slots are read is one look.
pub fn fades<S: Scalar>(
    system: &System<S>,
    ineq: &Ineq<S>,
    first: &Carried<S>,
    left: S,
    second: &Carried<S>,
    right: S,
    slot: RowSlot<S>,
    looks: &mut Looks,
) -> bool
    requires pair { IsPair S.ring system.now.n system.now.inequalities ineq.now first.now second.now left right slot }
    requires left_size { All (λ slot. S.ring.size left + S.ring.size slot.sum ≤ most_element) first.now.slots }
    requires right_size { All (λ slot. S.ring.size right + S.ring.size slot.sum ≤ most_element) second.now.slots }
    ensures none { IsTrue result → (x : List S) (t : ℕ) → GivesTyped S.ring system.now.n system.now.inequalities
        ineq.now first.now.row second.now.row x t → ⊥ }
    ensures counted { min (looks.old + length first.now.places) (2 ^ 62) ≤ looks.new }
    ensures kept { looks.old ≤ looks.new }
{
    let (before, after) = (first.slots(), second.slots());
    let nodes = nodes_of(first, second);
    let types = second.types();
    let start = closed_by(Mask::empty(), slot.tail);
    let closed = start.union(second.cover());
    let early = covered(first.places(), before, left, after, right, closed, looks);
    let bare = nodes.minus(early);
    if rules_out(bare, types) {
        return true;
    }
    let some = covered(first.places(), before, left, after, right, start, looks);
    let all = covered(second.places(), after, right, before, left, some, looks);
    let open = nodes.minus(all);
    rules_out(open, types)
}
