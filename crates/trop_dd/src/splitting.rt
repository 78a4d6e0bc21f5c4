// The rows of a cone, split by one more inequality.
ghost use Rattle.std.specs.Prelude.{◌≡◌, ◌+◌, ◌^◌, ◌<◌, ◌≤◌, ◌++◌, [], ◌∷◌, ℕ, IfOk, OnOk, length};
ghost use Rattle.trop_theory.specs.Vectors.{row_size};
ghost use Rattle.trop_theory.specs.Inequalities.{IsTrueAt};
ghost use Rattle.trop_criterion.specs.Hypergraphs.{Has};
ghost use Rattle.trop_pruning.specs.Slots.{IsSlot};
ghost use Rattle.trop_pruning.specs.Judged.{IsSide};
ghost use Rattle.trop_pairs.specs.Sums.{HasTerms};
ghost use Rattle.trop_dd.specs.Carried.{IsNext};
ghost use Rattle.trop_dd.specs.Parts.{IsSplit, AreAdditions};

use std::alloc::{AllocError, Global};
use trop_hyper::{Hyper, Looks, Mask};
use trop_pairs::{
    Addition, Carried, RowSlot, RowWords, Sums, Terms, addition_of, is_zero, slot_of, sums_at,
};
use trop_row::{Ineq, System};
use trop_scalar::Scalar;

// A row at which an inequality is true, by its place in a list, with its slot there.
#[derive(Clone, Copy)]
pub struct Kept<S> {
    pub place: usize,
    pub slot: RowSlot<S>,
}

impl<S: Scalar> Kept<S> {
    // The right sum.
    pub fn sum(&self) -> S
        ensures { result ≡ self.now.slot.sum }
    {
        self.slot.sum
    }

    // The coordinates that reach it.
    pub fn tail(&self) -> Mask
        ensures { result ≡ self.now.slot.tail }
    {
        self.slot.tail
    }
}

// A row at which an inequality is not true, by its place in a list, with its left sum, the coordinates that reach it,
// and its words.
#[derive(Clone, Copy)]
pub struct Dropped<S> {
    pub place: usize,
    pub sum: S,
    pub reached: Mask,
    pub words: RowWords,
}

// What an inequality puts beside each row of a list, the places of those at which it is true, the ones of these whose
// right sum is finite, and the other rows.
#[derive(Drop)]
pub struct Split<S: Scalar> {
    pub additions: Vec<Addition<S>>,
    pub stay: Vec<usize>,
    pub kept: Vec<Kept<S>>,
    pub dropped: Vec<Dropped<S>>,
}

// Splits the rows by the inequality. What `room` held before is of no account, and what it holds afterwards neither.
pub fn split_sides<S: Scalar>(
    alloc: Global,
    room: &mut Hyper,
    system: &System<S>,
    ineq: &Ineq<S>,
    sides: &[Carried<S>],
    looks: &mut Looks,
) -> Result<Split<S>, AllocError>
    requires next { IsNext S.ring system.now.n system.now.inequalities ineq.now sides.now }
    ensures split { IfOk result (λ split. IsSplit S.ring ineq.now sides.now
        (length sides.now) split.stay.items split.kept.items split.dropped.items) }
    ensures additions { IfOk result (λ split. AreAdditions S.ring system.now.n system.now.inequalities ineq.now
        sides.now (length sides.now) split.additions.items) }
    ensures looks { looks.old ≤ looks.new }
{
    let mut split = Split {
        additions: Vec::with_capacity(alloc, sides.len())?,
        stay: Vec::with_capacity(alloc, sides.len())?,
        kept: Vec::with_capacity(alloc, sides.len())?,
        dropped: Vec::new(alloc),
    };
    let terms = Terms::of(alloc, ineq)?;
    for place in 0..sides.len() {
        split_side(room, system, ineq, &terms, sides, place, &mut split, looks)?;
    }
    Ok(split)
}

// What stands for a row that is dropped.
fn nothing<S: Scalar>(sum: S) -> Addition<S> {
    Addition {
        slot: RowSlot {
            sum,
            tail: Mask::empty(),
            head: Mask::empty(),
        },
        types: Mask::empty(),
        alone: Mask::empty(),
    }
}

// Puts the row at the place to where it belongs.
fn split_side<S: Scalar>(
    room: &mut Hyper,
    system: &System<S>,
    ineq: &Ineq<S>,
    terms: &Terms<S>,
    sides: &[Carried<S>],
    place: usize,
    split: &mut Split<S>,
    looks: &mut Looks,
) -> Result<(), AllocError>
    requires next { IsNext S.ring system.now.n system.now.inequalities ineq.now sides.now }
    requires terms { HasTerms S.ring ineq.now terms.now.left.items terms.now.right.items }
    requires within { place < length sides.now }
    requires split { IsSplit S.ring ineq.now sides.now place split.old.stay.items split.old.kept.items
        split.old.dropped.items }
    requires additions { AreAdditions S.ring system.now.n system.now.inequalities ineq.now sides.now place
        split.old.additions.items }
    ensures split { OnOk result (IsSplit S.ring ineq.now sides.now (place + 1) split.new.stay.items split.new.kept.items
        split.new.dropped.items) }
    ensures additions { OnOk result (AreAdditions S.ring system.now.n system.now.inequalities ineq.now sides.now
        (place + 1) split.new.additions.items) }
    ensures looks { looks.old ≤ looks.new }
{
    let side = &sides[place];
    let sums = sums_at(terms, side.row(), looks);
    let (left, right) = (sums.left, sums.right);
    if !left.value.le(right.value) {
        split.dropped.push(Dropped {
            place,
            sum: left.value,
            reached: left.reached,
            words: side.words(),
        })?;
        split.additions.push(nothing(right.value))?;
        return Ok(());
    }
    let slot = slot_of(Sums { left, right });
    let added = addition_of(room, system, ineq, side, slot, looks)?;
    split.additions.push(added)?;
    split.stay.push(place)?;
    if !is_zero(right.value) {
        split.kept.push(Kept { place, slot })?;
    }
    Ok(())
}
