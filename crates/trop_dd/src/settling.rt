// What is carried beside the rows, once an inequality was taken.
ghost use Rattle.std.specs.Prelude.{◌≡◌, ◌<◌, ◌≤◌, ◌++◌, List, [], All, AllPairs, false, IfOk, OnOk, OnErr, MatchOption, length, slice_index_or};
ghost use Rattle.trop_pruning.specs.Judged.{Side};
ghost use Rattle.trop_pairs.specs.declared.keeping.Addition.{Addition};
ghost use Rattle.trop_dd.specs.Carried.{rows_of, found_rows};
ghost use Rattle.trop_dd.specs.Settled.{ArePut, AreSettled, AreArranged};

use crate::found::Found;
use crate::moving::{close_up, index_of};
use std::alloc::{AllocError, Global};
use trop_pairs::{Addition, Carried};
use trop_row::Row;
use trop_scalar::Scalar;

// Takes the slots that were put beside the first rows off again.
fn take_back<S: Scalar>(sides: &mut Vec<Carried<S>>, many: usize)
    requires { many ≤ length sides.old.items }
    ensures { (before : List (Side S)) (additions : List (Addition S)) → ArePut many before additions sides.old.items →
        sides.new.items ≡ before }
{
    for k in 0..many {
        sides[k].take_back();
    }
}

// Puts the slots beside the first rows, or leaves all as it was.
fn put_all<S: Scalar>(
    sides: &mut Vec<Carried<S>>,
    additions: &[Addition<S>],
) -> Result<(), AllocError>
    requires { length additions.now ≤ length sides.old.items }
    ensures ok { OnOk result (ArePut (length additions.now) sides.old.items additions.now sides.new.items) }
    ensures err { OnErr result (sides.new.items ≡ sides.old.items) }
{
    for k in 0..additions.len() {
        let slot = additions[k].slot;
        if let Err(err) = sides[k].put(slot) {
            take_back(sides, k);
            return Err(err);
        }
    }
    Ok(())
}

// Gives the first rows the words that belong to the slots that were put.
fn settle_all<S: Scalar>(sides: &mut Vec<Carried<S>>, additions: &[Addition<S>])
    requires { length additions.now ≤ length sides.old.items }
    ensures { (before : List (Side S)) → ArePut (length additions.now) before additions.now sides.old.items →
        AreSettled before additions.now sides.new.items }
{
    for k in 0..additions.len() {
        let added = &additions[k];
        if added.slot.gives_edge() {
            sides[k].set_words(added.types, added.alone);
        }
    }
}

// Settles the additions beside the first rows, or leaves all as it was.
pub fn settle<S: Scalar>(
    sides: &mut Vec<Carried<S>>,
    additions: &[Addition<S>],
) -> Result<(), AllocError>
    requires { length additions.now ≤ length sides.old.items }
    ensures ok { OnOk result (AreSettled sides.old.items additions.now sides.new.items) }
    ensures err { OnErr result (sides.new.items ≡ sides.old.items) }
{
    put_all(sides, additions)?;
    settle_all(sides, additions);
    Ok(())
}

// Has the fresh rows behind the others, and settles the additions beside these, or leaves all as it was.
fn settle_with<S: Scalar>(
    sides: &mut Vec<Carried<S>>,
    fresh: &mut Vec<Carried<S>>,
    additions: &[Addition<S>],
) -> Result<(), AllocError>
    requires { length additions.now ≡ length sides.old.items }
    ensures ok { OnOk result (AreSettled (sides.old.items ++ fresh.old.items) additions.now sides.new.items) }
    ensures err { OnErr result (sides.new.items ≡ sides.old.items) }
{
    let many = sides.len();
    sides.append(fresh)?;
    if let Err(err) = settle(sides, additions) {
        sides.truncate(many);
        return Err(err);
    }
    Ok(())
}

// A copy of the row of the number.
fn copied<S: Scalar>(
    alloc: Global,
    sides: &[Carried<S>],
    fresh: &[Carried<S>],
    number: usize,
) -> Result<Row<S>, AllocError>
    requires { number < length (sides.now ++ fresh.now) }
    ensures { IfOk result (λ row. row ≡ slice_index_or (rows_of (sides.now ++ fresh.now)) number []) }
{
    if number < sides.len() {
        return sides[number].row().copy(alloc);
    }
    fresh[number - sides.len()].row().copy(alloc)
}

// Copies of the rows of these numbers.
pub fn copied_all<S: Scalar>(
    alloc: Global,
    sides: &[Carried<S>],
    fresh: &[Carried<S>],
    order: &[usize],
) -> Result<Vec<Row<S>>, AllocError>
    requires { All (λ k. k < length (sides.now ++ fresh.now)) order.now }
    ensures { IfOk result (λ rows. rows.items ≡ found_rows sides.now fresh.now order.now) }
{
    let mut rows = Vec::with_capacity(alloc, order.len())?;
    for number in order {
        rows.push(copied(alloc, sides, fresh, *number)?)?;
    }
    Ok(rows)
}

// The same where they are asked for.
pub fn copied_where<S: Scalar>(
    alloc: Global,
    copies: bool,
    sides: &[Carried<S>],
    fresh: &[Carried<S>],
    order: &[usize],
) -> Result<Option<Vec<Row<S>>>, AllocError>
    requires { All (λ k. k < length (sides.now ++ fresh.now)) order.now }
    ensures { IfOk result (λ found. MatchOption found (copies ≡ false)
        (λ rows. rows.items ≡ found_rows sides.now fresh.now order.now)) }
{
    if !copies {
        return Ok(None);
    }
    let rows = copied_all(alloc, sides, fresh, order)?;
    Ok(Some(rows))
}

// Settles the additions and has the rows that were found in place of the others, or leaves all as it was.
pub fn rearrange<S: Scalar>(
    alloc: Global,
    sides: &mut Vec<Carried<S>>,
    order: &mut Vec<usize>,
    additions: &[Addition<S>],
    found: Found<S>,
) -> Result<(), AllocError>
    requires many { length additions.now ≡ length sides.old.items }
    requires within { All (λ k. k < length (sides.old.items ++ found.fresh.items)) found.order.items }
    requires distinct { AllPairs (λ i j. i ≡ j → ⊥) found.order.items }
    ensures arranged { OnOk result (AreArranged sides.old.items additions.now found.fresh.items found.order.items
        sides.new.items order.new.items) }
    ensures stays { OnErr result (sides.new.items ≡ sides.old.items) }
    ensures order_stays { OnErr result (order.new.items ≡ order.old.items) }
{
    let Found {
        order: mut numbers,
        mut fresh,
        room,
    } = found;
    drop(room);
    let at = index_of(alloc, sides.len() + fresh.len(), numbers.as_slice())?;
    settle_with(sides, &mut fresh, additions)?;
    close_up(sides, &mut numbers, at);
    *order = numbers;
    Ok(())
}
