// Rows that are moved to the places of those that were dropped.
ghost use Rattle.std.specs.Prelude.{◌≡◌, ◌+◌, ◌<◌, ℕ, All, AllPairs, IfOk, length};
ghost use Rattle.trop_dd.specs.Numbers.{IsIndex, AreMoved, IsClosedTo};

use std::alloc::{AllocError, Global};
use trop_pairs::Carried;
use trop_scalar::Scalar;

// The index of each number in the order.
pub fn index_of(alloc: Global, many: usize, order: &[usize]) -> Result<Vec<usize>, AllocError>
    requires within { All (λ k. k < many) order.now }
    requires distinct { AllPairs (λ i j. i ≡ j → ⊥) order.now }
    ensures { IfOk result (λ at. IsIndex order.now many at.items) }
{
    let none = order.len();
    let mut at = vec![in alloc; none; many]?;
    for i in 0..order.len() {
        at[order[i]] = i;
    }
    Ok(at)
}

// Drops the row at the place, unless its number is in the order: the last row comes to its place then.
fn close_at<S: Scalar>(
    sides: &mut Vec<Carried<S>>,
    order: &mut Vec<usize>,
    at: &mut Vec<usize>,
    place: usize,
)
    requires within { place < length sides.old.items }
    requires closed { IsClosedTo sides.old.items order.old.items (place + 1) sides.old.items order.old.items
        at.old.items }
    ensures { IsClosedTo sides.old.items order.old.items place sides.new.items order.new.items at.new.items }
{
    if at[place] < order.len() {
        return;
    }
    let _gone = sides.swap_remove(place);
    let _none = at.swap_remove(place);
    if place < sides.len() {
        let index = at[place];
        order[index] = place;
    }
}

// Drops the rows whose numbers are not in the order, and moves as many others to their places.
pub fn close_up<S: Scalar>(sides: &mut Vec<Carried<S>>, order: &mut Vec<usize>, mut at: Vec<usize>)
    requires { IsIndex order.old.items (length sides.old.items) at.items }
    ensures { AreMoved sides.old.items order.old.items sides.new.items order.new.items }
{
    let mut place = sides.len();
    while place > 0 {
        place -= 1;
        close_at(sides, order, &mut at, place);
    }
}
