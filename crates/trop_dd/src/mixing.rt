// The rows that pairs of a kept and a dropped row give.
ghost use Rattle.std.specs.Prelude.{◌≡◌, ◌≢◌, ◌⊎◌, ◌+◌, ◌≤◌, ◌<◌, ◌++◌, [], ◌∷◌, ℕ, All, Contains, OnOk, IfOk, IfErr, List, length, slice_index_or};
ghost use Rattle.trop_theory.specs.Sizes.{most_entry, most_mixed};
ghost use Rattle.trop_theory.specs.Vectors.{joined, scaled, row_size};
ghost use Rattle.trop_theory.specs.Normal.{Normalises};
ghost use Rattle.trop_theory.specs.Steps.{mixed};
ghost use Rattle.trop_theory.specs.Canonical.{row_limit};
ghost use Rattle.trop_pruning.specs.Judged.{Side, IsSide};
ghost use Rattle.trop_pruning.specs.Pairs.{IsClosing};
ghost use Rattle.trop_dd.specs.Description.{IsRefusedBy};
ghost use Rattle.trop_dd.specs.Carried.{IsNext, found_rows};
ghost use Rattle.trop_dd.specs.Parts.{IsKept, IsDropped};
ghost use Rattle.trop_dd.specs.Steps.{AreFound, Grows, HasGiven, IsFit, IsGiven, IsFactor, AreMultiples};

use crate::error::DdErr;
use crate::found::{Found, place_of, put};
use crate::splitting::{Dropped, Kept};
use std::alloc::{AllocError, Global};
use trop_hyper::{Hyper, Looks, Mask};
use trop_pairs::{
    Carried, RowSlot, RowWords, carry, closed_by, cover_of, fades, judge, new_slot, rejects,
};
use trop_row::{Ineq, Row, System};
use trop_scalar::Scalar;

// The most rows that a cone may have.
const ROW_LIMIT: usize = 4096;

// The multiple that makes a sum of multiples of two rows normal.
fn factor<S: Scalar>(
    system: &System<S>,
    ineq: &Ineq<S>,
    v: &Carried<S>,
    left: S,
    w: &Carried<S>,
    right: S,
    slot: RowSlot<S>,
) -> S
    requires fit { IsFit S.ring system.now.n system.now.inequalities ineq.now v.now w.now left right slot }
    ensures { IsFactor S.ring left right v.now.row w.now.row result }
{
    match v.support().union(w.support()).first() {
        None => S::one(),
        Some(i) => {
            let first = left.times(v.row().get(i));
            let second = right.times(w.row().get(i));
            first.plus(second).inverse()
        }
    }
}

// The row `left` times v plus `right` times w.
fn mix<S: Scalar>(
    alloc: Global,
    v: &Row<S>,
    left: S,
    w: &Row<S>,
    right: S,
) -> Result<Row<S>, AllocError>
    requires lengths { length v.now ≡ length w.now }
    requires v_size { row_size S.ring v.now ≤ most_mixed }
    requires w_size { row_size S.ring w.now ≤ most_mixed }
    requires left_size { S.ring.size left ≤ most_entry }
    requires right_size { S.ring.size right ≤ most_entry }
    ensures { IfOk result (λ x. x ≡ joined S.ring (scaled S.ring left v.now) (scaled S.ring right w.now)) }
{
    let mut mixed = v.copy(alloc)?;
    mixed.scale(left);
    mixed.join_into(w, right);
    Ok(mixed)
}

// What is carried beside the row that a pair gives. It is `by` times that of the pair, so `first` times v and `second`
// times w, and the room has its hyperedges.
fn carried<S: Scalar>(
    alloc: Global,
    system: &System<S>,
    ineq: &Ineq<S>,
    v: &Carried<S>,
    first: S,
    w: &Carried<S>,
    second: S,
    slot: RowSlot<S>,
    by: S,
    row: Row<S>,
    types: Mask,
    room: &Hyper,
    looks: &mut Looks,
) -> Result<Carried<S>, AllocError>
    requires multiples { AreMultiples S.ring system.now.n system.now.inequalities ineq.now v.now w.now slot by first
        second }
    requires given { IsGiven S.ring system.now.n system.now.inequalities ineq.now v.now.row w.now.row types
        room.now.edges }
    requires row { row ≡ joined S.ring (scaled S.ring first v.now.row) (scaled S.ring second w.now.row) }
    ensures side { IfOk result (IsSide S.ring system.now.n (system.now.inequalities ++ ineq.now ∷ [])) }
    ensures row { IfOk result (λ side. side.row ≡ row) }
    ensures looks { looks.old ≤ looks.new }
{
    let cover = cover_of(room.edges(), looks);
    let slot = RowSlot {
        sum: by.times(slot.sum),
        tail: slot.tail,
        head: slot.head,
    };
    carry(
        alloc, system, ineq, v, first, w, second, row, types, cover, slot, looks,
    )
}

// Finds the row that a pair of these types gives, unless it was found before.
fn admit<S: Scalar>(
    alloc: Global,
    system: &System<S>,
    ineq: &Ineq<S>,
    sides: &[Carried<S>],
    v: &Carried<S>,
    left: S,
    w: &Carried<S>,
    right: S,
    slot: RowSlot<S>,
    types: Mask,
    found: &mut Found<S>,
    looks: &mut Looks,
) -> Result<(), AllocError>
    requires next { IsNext S.ring system.now.n system.now.inequalities ineq.now sides.now }
    requires within { length found.old.order.items ≤ row_limit }
    requires fit { IsFit S.ring system.now.n system.now.inequalities ineq.now v.now w.now left right slot }
    requires given { IsGiven S.ring system.now.n system.now.inequalities ineq.now v.now.row w.now.row types
        found.old.room.edges }
    requires found { AreFound S.ring system.now.n system.now.inequalities ineq.now sides.now found.old.fresh.items
        found.old.order.items }
    ensures found { OnOk result (AreFound S.ring system.now.n system.now.inequalities ineq.now sides.now
        found.new.fresh.items found.new.order.items) }
    ensures stay { OnOk result (All (Contains (found_rows sides.now found.new.fresh.items found.new.order.items))
        (found_rows sides.now found.old.fresh.items found.old.order.items)) }
    ensures count { OnOk result (length found.new.order.items ≤ length found.old.order.items + 1) }
    ensures admitted { OnOk result ((x : List S) →
        Normalises S.ring (mixed S.ring ineq.now.left ineq.now.right v.now.row w.now.row) x →
        Contains (found_rows sides.now found.new.fresh.items found.new.order.items) x) }
    ensures looks { looks.old ≤ looks.new }
{
    let by = factor(system, ineq, v, left, w, right, slot);
    let (first, second) = (by.times(left), by.times(right));
    let row = mix(alloc, v.row(), first, w.row(), second)?;
    match place_of(sides, found.fresh.as_slice(), found.order.as_slice(), &row) {
        Ok(_) => Ok(()),
        Err(place) => {
            let side = carried(
                alloc,
                system,
                ineq,
                v,
                first,
                w,
                second,
                slot,
                by,
                row,
                types,
                &found.room,
                looks,
            )?;
            let number = sides.len() + found.fresh.len();
            put(found, number, place, side)?;
            Ok(())
        }
    }
}

// Judges the row that a kept and a dropped row give.
fn judge_pair<S: Scalar>(
    alloc: Global,
    system: &System<S>,
    ineq: &Ineq<S>,
    sides: &[Carried<S>],
    kept: &Kept<S>,
    dropped: &Dropped<S>,
    found: &mut Found<S>,
    looks: &mut Looks,
) -> Result<(), DdErr>
    requires next { IsNext S.ring system.now.n system.now.inequalities ineq.now sides.now }
    requires kept { IsKept S.ring ineq.now sides.now kept.now }
    requires dropped { IsDropped S.ring ineq.now sides.now dropped.now }
    requires found { AreFound S.ring system.now.n system.now.inequalities ineq.now sides.now found.old.fresh.items
        found.old.order.items }
    requires within { length found.old.order.items ≤ row_limit }
    ensures found { OnOk result (AreFound S.ring system.now.n system.now.inequalities ineq.now sides.now
        found.new.fresh.items found.new.order.items) }
    ensures grows { OnOk result (Grows (found_rows sides.now found.old.fresh.items found.old.order.items)
        (found_rows sides.now found.new.fresh.items found.new.order.items) looks.old looks.new) }
    ensures given { OnOk result (HasGiven S.ring system.now.n system.now.inequalities ineq.now sides.now
        (found_rows sides.now found.new.fresh.items found.new.order.items) kept.now dropped.now) }
    ensures within { OnOk result (length found.new.order.items ≤ row_limit) }
    ensures refused { IfErr result (IsRefusedBy S.ring system.now.n (system.now.inequalities ++ ineq.now ∷ [])) }
    ensures looks { looks.old ≤ looks.new }
{
    let (v, w) = (&sides[kept.place], &sides[dropped.place]);
    let (left, right) = (dropped.sum, kept.sum());
    let slot = new_slot(kept.slot, left, dropped.reached);
    if fades(system, ineq, v, left, w, right, slot, looks) {
        return Ok(());
    }
    let judged = judge(
        &mut found.room,
        system,
        ineq,
        v,
        left,
        w,
        right,
        slot,
        looks,
    )?;
    match judged {
        None => Ok(()),
        Some(types) => {
            admit(
                alloc, system, ineq, sides, v, left, w, right, slot, types, found, looks,
            )?;
            if found.order.len() > ROW_LIMIT {
                return Err(DdErr::Limit(system.len() + 1));
            }
            Ok(())
        }
    }
}

// Tries the row that a kept and a dropped row give, but where their words reject it. `closed` is what the kept row
// closes.
fn try_pair<S: Scalar>(
    alloc: Global,
    system: &System<S>,
    ineq: &Ineq<S>,
    sides: &[Carried<S>],
    kept: &Kept<S>,
    words: RowWords,
    closed: Mask,
    dropped: &Dropped<S>,
    found: &mut Found<S>,
    looks: &mut Looks,
) -> Result<(), DdErr>
    requires next { IsNext S.ring system.now.n system.now.inequalities ineq.now sides.now }
    requires kept { IsKept S.ring ineq.now sides.now kept.now }
    requires words { (d : Side S) → words ≡ (slice_index_or sides.now kept.now.place d).words }
    requires closed { IsClosing words.cover kept.now.slot.tail closed }
    requires dropped { IsDropped S.ring ineq.now sides.now dropped.now }
    requires found { AreFound S.ring system.now.n system.now.inequalities ineq.now sides.now found.old.fresh.items
        found.old.order.items }
    requires within { length found.old.order.items ≤ row_limit }
    ensures found { OnOk result (AreFound S.ring system.now.n system.now.inequalities ineq.now sides.now
        found.new.fresh.items found.new.order.items) }
    ensures grows { OnOk result (Grows (found_rows sides.now found.old.fresh.items found.old.order.items)
        (found_rows sides.now found.new.fresh.items found.new.order.items) looks.old looks.new) }
    ensures given { OnOk result (HasGiven S.ring system.now.n system.now.inequalities ineq.now sides.now
        (found_rows sides.now found.new.fresh.items found.new.order.items) kept.now dropped.now) }
    ensures within { OnOk result (length found.new.order.items ≤ row_limit) }
    ensures refused { IfErr result (IsRefusedBy S.ring system.now.n (system.now.inequalities ++ ineq.now ∷ [])) }
    ensures looks { looks.old ≤ looks.new }
{
    if rejects(words, closed, dropped.words) {
        return Ok(());
    }
    judge_pair(alloc, system, ineq, sides, kept, dropped, found, looks)
}

// Tries the rows that a kept row gives with each of the dropped ones.
fn try_each<S: Scalar>(
    alloc: Global,
    system: &System<S>,
    ineq: &Ineq<S>,
    sides: &[Carried<S>],
    kept: &Kept<S>,
    dropped: &[Dropped<S>],
    found: &mut Found<S>,
    looks: &mut Looks,
) -> Result<(), DdErr>
    requires next { IsNext S.ring system.now.n system.now.inequalities ineq.now sides.now }
    requires kept { IsKept S.ring ineq.now sides.now kept.now }
    requires dropped { All (IsDropped S.ring ineq.now sides.now) dropped.now }
    requires found { AreFound S.ring system.now.n system.now.inequalities ineq.now sides.now found.old.fresh.items
        found.old.order.items }
    requires within { length found.old.order.items ≤ row_limit }
    ensures found { OnOk result (AreFound S.ring system.now.n system.now.inequalities ineq.now sides.now
        found.new.fresh.items found.new.order.items) }
    ensures grows { OnOk result (Grows (found_rows sides.now found.old.fresh.items found.old.order.items)
        (found_rows sides.now found.new.fresh.items found.new.order.items) looks.old looks.new) }
    ensures given { OnOk result (All (λ part. HasGiven S.ring system.now.n system.now.inequalities ineq.now sides.now
        (found_rows sides.now found.new.fresh.items found.new.order.items) kept.now part) dropped.now) }
    ensures within { OnOk result (length found.new.order.items ≤ row_limit) }
    ensures refused { IfErr result (IsRefusedBy S.ring system.now.n (system.now.inequalities ++ ineq.now ∷ [])) }
    ensures looks { looks.old ≤ looks.new }
{
    let side = &sides[kept.place];
    let words = side.words();
    let closed = closed_by(side.cover(), kept.tail());
    for part in dropped {
        try_pair(
            alloc, system, ineq, sides, kept, words, closed, part, found, looks,
        )?;
    }
    Ok(())
}

// The same, but for a kept row of which no type reaches its right sum: it gives none that has to be found.
fn try_kept<S: Scalar>(
    alloc: Global,
    system: &System<S>,
    ineq: &Ineq<S>,
    sides: &[Carried<S>],
    kept: &Kept<S>,
    dropped: &[Dropped<S>],
    found: &mut Found<S>,
    looks: &mut Looks,
) -> Result<(), DdErr>
    requires next { IsNext S.ring system.now.n system.now.inequalities ineq.now sides.now }
    requires kept { IsKept S.ring ineq.now sides.now kept.now }
    requires dropped { All (IsDropped S.ring ineq.now sides.now) dropped.now }
    requires found { AreFound S.ring system.now.n system.now.inequalities ineq.now sides.now found.old.fresh.items
        found.old.order.items }
    requires within { length found.old.order.items ≤ row_limit }
    ensures found { OnOk result (AreFound S.ring system.now.n system.now.inequalities ineq.now sides.now
        found.new.fresh.items found.new.order.items) }
    ensures grows { OnOk result (Grows (found_rows sides.now found.old.fresh.items found.old.order.items)
        (found_rows sides.now found.new.fresh.items found.new.order.items) looks.old looks.new) }
    ensures given { OnOk result (All (λ part. HasGiven S.ring system.now.n system.now.inequalities ineq.now sides.now
        (found_rows sides.now found.new.fresh.items found.new.order.items) kept.now part) dropped.now) }
    ensures within { OnOk result (length found.new.order.items ≤ row_limit) }
    ensures refused { IfErr result (IsRefusedBy S.ring system.now.n (system.now.inequalities ++ ineq.now ∷ [])) }
    ensures looks { looks.old ≤ looks.new }
{
    if sides[kept.place]
        .types()
        .intersection(kept.tail())
        .is_empty()
    {
        return Ok(());
    }
    try_each(alloc, system, ineq, sides, kept, dropped, found, looks)
}

// Tries the rows that the kept rows give with the dropped ones.
pub fn try_all<S: Scalar>(
    alloc: Global,
    system: &System<S>,
    ineq: &Ineq<S>,
    sides: &[Carried<S>],
    kept: &[Kept<S>],
    dropped: &[Dropped<S>],
    found: &mut Found<S>,
    looks: &mut Looks,
) -> Result<(), DdErr>
    requires next { IsNext S.ring system.now.n system.now.inequalities ineq.now sides.now }
    requires kept { All (IsKept S.ring ineq.now sides.now) kept.now }
    requires dropped { All (IsDropped S.ring ineq.now sides.now) dropped.now }
    requires found { AreFound S.ring system.now.n system.now.inequalities ineq.now sides.now found.old.fresh.items
        found.old.order.items }
    requires within { length found.old.order.items ≤ row_limit }
    ensures found { OnOk result (AreFound S.ring system.now.n system.now.inequalities ineq.now sides.now
        found.new.fresh.items found.new.order.items) }
    ensures grows { OnOk result (Grows (found_rows sides.now found.old.fresh.items found.old.order.items)
        (found_rows sides.now found.new.fresh.items found.new.order.items) looks.old looks.new) }
    ensures given { OnOk result (All (λ first. All
        (λ second. HasGiven S.ring system.now.n system.now.inequalities ineq.now sides.now
        (found_rows sides.now found.new.fresh.items found.new.order.items) first second) dropped.now) kept.now) }
    ensures within { OnOk result (length found.new.order.items ≤ row_limit) }
    ensures refused { IfErr result (IsRefusedBy S.ring system.now.n (system.now.inequalities ++ ineq.now ∷ [])) }
    ensures looks { looks.old ≤ looks.new }
{
    for part in kept {
        try_kept(alloc, system, ineq, sides, part, dropped, found, looks)?;
    }
    Ok(())
}
