// A row that is kept, after one more inequality.
ghost use Rattle.std.specs.Prelude.{◌≡◌, ◌+◌, ◌≤◌, ◌++◌, [], ◌∷◌, ℕ, All, IfOk, length};
ghost use Rattle.trop_theory.specs.Sizes.{most_element};
ghost use Rattle.trop_theory.specs.Inequalities.{IsIn, IsTrueAt};
ghost use Rattle.trop_criterion.specs.Hypergraphs.{Has};
ghost use Rattle.trop_pruning.specs.Slots.{IsSlot};
ghost use Rattle.trop_pruning.specs.PairEdges.{HasEdge, edge_of};
ghost use Rattle.trop_pruning.specs.Open.{HoldsBack};
ghost use Rattle.trop_pruning.specs.Pairs.{AreTypes};
ghost use Rattle.trop_pruning.specs.Judged.{IsSide};
ghost use Rattle.trop_pruning.specs.Kept.{IsAddition};

use crate::carried::Carried;
use crate::filling::fill_pair;
use crate::graph::add_slot;
use crate::slot::RowSlot;
use std::alloc::AllocError;
use trop_hyper::{Hyper, Looks, Mask};
use trop_row::{Ineq, System};
use trop_scalar::Scalar;

/// What one more inequality puts beside a row: its slot there and, where this gives a hyperedge, the types of the row
/// from then on and the nodes that the hyperedge leaves alone.
#[derive(Clone, Copy)]
pub struct Addition<S> {
    /// The slot of the inequality at the row.
    pub slot: RowSlot<S>,
    /// The types of the row once the inequality is taken.
    pub types: Mask,
    /// The nodes that the hyperedge of the slot leaves alone, with maybe others; none where the slot gives no
    /// hyperedge.
    pub alone: Mask,
}

/// The node that the hyperedge leaves alone, if it has one: its tail where this has one member and the head has
/// another.
pub fn left_alone(tail: Mask, head: Mask) -> Mask
    requires some { (j : ℕ) × Has tail j }
    ensures { (u : ℕ) → (Has result u → ⊥) → HoldsBack u (record { tail = tail; head = head }) }
{
    match tail.first() {
        None => tail,
        Some(j) => {
            let only = Mask::empty().with(j);
            if only.contains(tail) && !only.contains(head) {
                only
            } else {
                Mask::empty()
            }
        }
    }
}

/// The types of a kept row after one more inequality, by its slot there. `room` is lent: it holds any hyperedges
/// afterwards.
pub fn types_with<S: Scalar>(
    room: &mut Hyper,
    system: &System<S>,
    ineq: &Ineq<S>,
    side: &Carried<S>,
    slot: RowSlot<S>,
    looks: &mut Looks,
) -> Result<Mask, AllocError>
    requires inside { All (IsIn system.now.n) system.now.inequalities }
    requires last { IsIn system.now.n ineq.now }
    requires side { IsSide S.ring system.now.n system.now.inequalities side.now }
    requires some { (t : ℕ) × Has side.now.words.types t }
    requires holds { IsTrueAt S.ring ineq.now side.now.row }
    requires slot { IsSlot S.ring side.now.row ineq.now slot }
    requires edge { HasEdge slot }
    requires sizes { All (λ slot. S.ring.size S.ring.one + S.ring.size slot.sum ≤ most_element) side.now.slots }
    ensures types { IfOk result (AreTypes S.ring system.now.n (system.now.inequalities ++ ineq.now ∷ []) side.now.row) }
    ensures looks { looks.old ≤ looks.new }
{
    let types = side.types();
    if !types.contains(slot.tail) || types.contains(slot.head) {
        return Ok(types);
    }
    fill_pair(room, system, side, S::one(), side, S::one(), looks)?;
    add_slot(room, slot)?;
    match types.first() {
        None => Ok(types),
        Some(t) => Ok(room.closure(t, looks)),
    }
}

/// What is put beside a row that is kept, by its slot at the inequality. `room` is lent: it holds any hyperedges
/// afterwards.
pub fn addition_of<S: Scalar>(
    room: &mut Hyper,
    system: &System<S>,
    ineq: &Ineq<S>,
    side: &Carried<S>,
    slot: RowSlot<S>,
    looks: &mut Looks,
) -> Result<Addition<S>, AllocError>
    requires inside { All (IsIn system.now.n) system.now.inequalities }
    requires last { IsIn system.now.n ineq.now }
    requires side { IsSide S.ring system.now.n system.now.inequalities side.now }
    requires some { (t : ℕ) × Has side.now.words.types t }
    requires holds { IsTrueAt S.ring ineq.now side.now.row }
    requires slot { IsSlot S.ring side.now.row ineq.now slot }
    requires sizes { All (λ slot. S.ring.size S.ring.one + S.ring.size slot.sum ≤ most_element) side.now.slots }
    ensures addition { IfOk result (λ found. IsAddition S.ring system.now.n system.now.inequalities ineq.now side.now
        found.slot found.types found.alone) }
    ensures looks { looks.old ≤ looks.new }
{
    if slot.head.is_empty() {
        return Ok(Addition {
            slot,
            types: side.types(),
            alone: Mask::empty(),
        });
    }
    let types = types_with(room, system, ineq, side, slot, looks)?;
    let alone = left_alone(slot.tail, slot.head);
    Ok(Addition { slot, types, alone })
}
