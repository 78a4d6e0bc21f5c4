// Which pairs give an extreme row, by what is carried.
ghost use Rattle.std.specs.Prelude.{◌≡◌, ◌+◌, ◌^◌, ◌<◌, ◌≤◌, ◌++◌, [], ◌∷◌, ℕ, List, All, IsTrue, IfOk, OnOk, length, min};
ghost use Rattle.trop_criterion.specs.Hypergraphs.{Has, IsGreatest};
ghost use Rattle.trop_theory.specs.Sizes.{most_element};
ghost use Rattle.trop_theory.specs.Normal.{Normalises};
ghost use Rattle.trop_theory.specs.Inequalities.{Solves};
ghost use Rattle.trop_theory.specs.Steps.{mixed};
ghost use Rattle.trop_pruning.specs.Edges.{HaveEdges};
ghost use Rattle.trop_pruning.specs.Judged.{IsPair, IsJudged};

use crate::carried::Carried;
use crate::filling::fill_pair;
use crate::graph::add_slot;
use crate::merging::cover_of;
use crate::slot::RowSlot;
use std::alloc::AllocError;
use trop_hyper::{Hyper, Looks, Mask};
use trop_row::{Ineq, System};
use trop_scalar::Scalar;

// Whether two nodes reach nothing but themselves, so that none is reached from all.
fn two_open(room: &Hyper, looks: &mut Looks) -> bool
    requires { All (λ edge. (j : ℕ) × Has edge.tail j) room.now.edges }
    ensures none { IsTrue result → (t : ℕ) → IsGreatest room.now t → ⊥ }
    ensures counted { min (looks.old + length room.now.edges) (2 ^ 62) ≤ looks.new }
    ensures kept { looks.old ≤ looks.new }
{
    let open = room.nodes().minus(cover_of(room.edges(), looks));
    match open.first() {
        None => false,
        Some(u) => !open.without(u).is_empty(),
    }
}

/// The types of what a pair gives, none where it is not extreme. `slot` is that of the inequality there. What `room`
/// held before is of no account; it is left with the tangent hyperedges of what the pair gives, each with a tail. At
/// least one look is made.
pub fn judge<S: Scalar>(
    room: &mut Hyper,
    system: &System<S>,
    ineq: &Ineq<S>,
    first: &Carried<S>,
    left: S,
    second: &Carried<S>,
    right: S,
    slot: RowSlot<S>,
    looks: &mut Looks,
) -> Result<Option<Mask>, AllocError>
    requires pair { IsPair S.ring system.now.n system.now.inequalities ineq.now first.now second.now left right slot }
    requires left_size { All (λ slot. S.ring.size left + S.ring.size slot.sum ≤ most_element) first.now.slots }
    requires right_size { All (λ slot. S.ring.size right + S.ring.size slot.sum ≤ most_element) second.now.slots }
    ensures types { IfOk result (IsJudged S.ring system.now.n system.now.inequalities ineq.now first.now.row
        second.now.row) }
    ensures edges { OnOk result ((x : List S) → Normalises S.ring
        (mixed S.ring ineq.now.left ineq.now.right first.now.row second.now.row) x →
        Solves S.ring system.now.n (system.now.inequalities ++ ineq.now ∷ []) x →
        HaveEdges S.ring (system.now.inequalities ++ ineq.now ∷ []) x room.new.edges) }
    ensures tails { OnOk result (All (λ edge. (j : ℕ) × Has edge.tail j) room.new.edges) }
    ensures counted { OnOk result (min (looks.old + 1) (2 ^ 62) ≤ looks.new) }
    ensures kept { looks.old ≤ looks.new }
{
    fill_pair(room, system, first, left, second, right, looks)?;
    add_slot(room, slot)?;
    if two_open(room, looks) {
        return Ok(None);
    }
    Ok(room.greatest(looks))
}
