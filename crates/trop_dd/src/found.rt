// The rows that were found so far.
ghost use Rattle.std.specs.Prelude.{◌≡◌, ◌<◌, ◌≤◌, ◌++◌, ◌∷◌, [], AllPairs, All, Contains, IfOk, IfErr, OnOk, insert, length, slice_index_or};
ghost use Rattle.trop_theory.specs.Canonical.{RowBelow};
ghost use Rattle.trop_theory.specs.Compare.{compare_rows};
ghost use Rattle.trop_dd.specs.Carried.{rows_of, found_rows};

use std::alloc::AllocError;
use std::cmp::Ordering;
use trop_hyper::Hyper;
use trop_pairs::Carried;
use trop_row::Row;
use trop_scalar::Scalar;

// The rows that were found so far, by their numbers in the order of rows: the old rows are numbered by their places,
// the new ones, which are kept in the order in which they were found, behind them. With room for hyperedges.
#[derive(Drop)]
pub struct Found<S: Scalar> {
    pub order: Vec<usize>,
    pub fresh: Vec<Carried<S>>,
    pub room: Hyper,
}

// How the row of the number stands to the row.
fn compared<S: Scalar>(
    sides: &[Carried<S>],
    fresh: &[Carried<S>],
    number: usize,
    row: &Row<S>,
) -> Ordering
    requires { number < length (sides.now ++ fresh.now) }
    ensures { result ≡ compare_rows S.eq S.ring (slice_index_or (rows_of (sides.now ++ fresh.now)) number []) row.now }
{
    if number < sides.len() {
        return sides[number].row().cmp(row);
    }
    fresh[number - sides.len()].row().cmp(row)
}

// Whether the row was found; at Err the place where its number belongs.
pub fn place_of<S: Scalar>(
    sides: &[Carried<S>],
    fresh: &[Carried<S>],
    order: &[usize],
    row: &Row<S>,
) -> Result<usize, usize>
    requires within { All (λ k. k < length (sides.now ++ fresh.now)) order.now }
    requires ascending { AllPairs (RowBelow S.ring) (found_rows sides.now fresh.now order.now) }
    ensures found { IfOk result (λ _. Contains (found_rows sides.now fresh.now order.now) row.now) }
    ensures within { IfErr result (λ place. place ≤ length order.now) }
    ensures place { IfErr result (λ place. AllPairs (RowBelow S.ring)
        (insert (found_rows sides.now fresh.now order.now) place row.now)) }
{
    let (mut low, mut high) = (0, order.len());
    while low < high {
        let middle = low + (high - low) / 2;
        match compared(sides, fresh, order[middle], row) {
            Ordering::Less => low = middle + 1,
            Ordering::Equal => return Ok(middle),
            Ordering::Greater => high = middle,
        }
    }
    Err(low)
}

// Puts the new row with what is carried beside it behind the others, and its number to the place.
pub fn put<S: Scalar>(
    found: &mut Found<S>,
    number: usize,
    place: usize,
    side: Carried<S>,
) -> Result<(), AllocError>
    requires { place ≤ length found.old.order.items }
    ensures order { OnOk result (found.new.order.items ≡ insert found.old.order.items place number) }
    ensures fresh { OnOk result (found.new.fresh.items ≡ found.old.fresh.items ++ side ∷ []) }
{
    found.order.insert(place, number)?;
    found.fresh.push(side)?;
    Ok(())
}
