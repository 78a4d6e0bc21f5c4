// A new row with what is carried beside it.
ghost use Rattle.std.specs.Prelude.{◌≡◌, ◌≢◌, ◌⊎◌, ◌↔◌, ◌+◌, ◌≤◌, ◌++◌, [], ◌∷◌, ℕ, All, IfOk};
ghost use Rattle.trop_theory.specs.Sizes.{most_element};
ghost use Rattle.trop_theory.specs.Vectors.{dot};
ghost use Rattle.trop_theory.specs.Inequalities.{IsIn, Solves};
ghost use Rattle.trop_criterion.specs.Hypergraphs.{Has};
ghost use Rattle.trop_pruning.specs.Slots.{IsSlot};
ghost use Rattle.trop_pruning.specs.Open.{IsCover};
ghost use Rattle.trop_pruning.specs.PairEdges.{HasEdge};
ghost use Rattle.trop_pruning.specs.Pairs.{AreTypes};
ghost use Rattle.trop_pruning.specs.Judged.{IsSide};
ghost use Rattle.trop_pruning.specs.Merged.{IsNormalMix};

use crate::carried::{Carried, nodes_of};
use crate::merging::merge_all;
use crate::slot::RowSlot;
use crate::words::RowWords;
use std::alloc::{AllocError, Global};
use trop_hyper::{Looks, Mask};
use trop_row::{Ineq, Row, System};
use trop_scalar::Scalar;

/// The slot of an inequality at what a kept and a dropped row give, from that at the kept row, the left sum of the
/// dropped one and the coordinates there that reach it.
pub fn new_slot<S: Scalar>(kept: RowSlot<S>, left: S, reached: Mask) -> RowSlot<S>
    requires { S.ring.size left + S.ring.size kept.sum ≤ most_element }
    ensures sum { result.sum ≡ S.ring.times left kept.sum }
    ensures tail { (j : ℕ) → Has result.tail j ↔ Has kept.tail j }
    ensures head { (i : ℕ) → Has result.head i ↔ (Has kept.head i ⊎ Has reached i) }
{
    RowSlot {
        sum: left.times(kept.sum),
        tail: kept.tail,
        head: kept.head.union(reached),
    }
}

/// The new row of a pair, in normal form, with all that is carried beside it. `left` and `right` are the multiples of
/// the two rows that it is the sum of, and `slot` is that of the inequality at it.
pub fn carry<S: Scalar>(
    alloc: Global,
    system: &System<S>,
    ineq: &Ineq<S>,
    first: &Carried<S>,
    left: S,
    second: &Carried<S>,
    right: S,
    row: Row<S>,
    types: Mask,
    cover: Mask,
    slot: RowSlot<S>,
    looks: &mut Looks,
) -> Result<Carried<S>, AllocError>
    requires inside { All (IsIn system.now.n) system.now.inequalities }
    requires first { IsSide S.ring system.now.n system.now.inequalities first.now }
    requires second { IsSide S.ring system.now.n system.now.inequalities second.now }
    requires left_finite { dot S.ring ineq.now.left second.now.row ≢ S.ring.zero }
    requires right_finite { dot S.ring ineq.now.right first.now.row ≢ S.ring.zero }
    requires mix { IsNormalMix S.ring ineq.now first.now.row second.now.row row left right }
    requires solves { Solves S.ring system.now.n (system.now.inequalities ++ ineq.now ∷ []) row }
    requires types { AreTypes S.ring system.now.n (system.now.inequalities ++ ineq.now ∷ []) row types }
    requires cover { IsCover S.ring (system.now.inequalities ++ ineq.now ∷ []) row cover }
    requires slot { IsSlot S.ring row ineq.now slot }
    requires edge { HasEdge slot }
    requires left_size { All (λ slot. S.ring.size left + S.ring.size slot.sum ≤ most_element) first.now.slots }
    requires right_size { All (λ slot. S.ring.size right + S.ring.size slot.sum ≤ most_element) second.now.slots }
    ensures side { IfOk result (IsSide S.ring system.now.n (system.now.inequalities ++ ineq.now ∷ [])) }
    ensures row { IfOk result (λ side. side.row ≡ row) }
    ensures looks { looks.old ≤ looks.new }
{
    let support = nodes_of(first, second);
    let all = merge_all(alloc, first.slots(), left, second.slots(), right, looks)?;
    let made = Carried {
        row,
        words: RowWords {
            support,
            types,
            cover,
        },
        slots: all.slots,
        places: all.places,
    };
    made.with_edge(slot, types, Mask::empty())
}
