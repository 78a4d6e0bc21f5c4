// The sums of an inequality at a row, and its slot there.
ghost use Rattle.std.specs.Prelude.{◌≡◌, ◌⊎◌, ◌+◌, ◌^◌, ◌<◌, ◌≤◌, ◌↔◌, ℕ, List, All, IsTrue, length, min};
ghost use Rattle.trop_theory.specs.Inequalities.{Inequality, IsIn};
ghost use Rattle.trop_criterion.specs.Hypergraphs.{Has};
ghost use Rattle.trop_pruning.specs.Slots.{IsSlot};
ghost use Rattle.trop_pairs.specs.Sums.{AreTerms, HasTerms, Fits, IsSum, AreSums};

use crate::slot::RowSlot;
use crate::terms::{Term, Terms};
use trop_hyper::{Looks, Mask};
use trop_row::Row;
use trop_scalar::Scalar;

/// Whether it is the zero.
pub fn is_zero<S: Scalar>(x: S) -> bool
    ensures { IsTrue result ↔ (x ≡ S.ring.zero) }
{
    x == S::zero()
}

/// The sum of a side at a row, and the coordinates that reach it where it is finite.
#[derive(Clone, Copy)]
pub struct Sum<S> {
    pub value: S,
    pub reached: Mask,
}

/// The sums of both sides of an inequality at a row.
#[derive(Clone, Copy)]
pub struct Sums<S> {
    pub left: Sum<S>,
    pub right: Sum<S>,
}

// The sum, with one more product, that of the coordinate.
fn with_product<S: Scalar>(sum: Sum<S>, product: S, place: u32) -> Sum<S>
    requires { place < 64 }
    ensures value { result.value ≡ S.ring.plus sum.value product }
    ensures reached { (j : ℕ) → Has result.reached j ↔ (((product ≡ result.value) × (j ≡ place)) ⊎
        ((sum.value ≡ result.value) × Has sum.reached j)) }
{
    if !product.le(sum.value) {
        return Sum {
            value: product,
            reached: Mask::empty().with(place),
        };
    }
    if product == sum.value {
        return Sum {
            value: product,
            reached: sum.reached.with(place),
        };
    }
    sum
}

// The sum of the side of these terms at the row.
fn sum_at<S: Scalar>(terms: &[Term<S>], row: &Row<S>) -> Sum<S>
    requires { All (Fits S.ring row.now) terms.now }
    ensures { (side : List S) → AreTerms S.ring side terms.now → length side ≡ length row.now →
        IsSum S.ring side row.now result }
{
    let entries = row.as_slice();
    let mut sum = Sum {
        value: S::zero(),
        reached: Mask::empty(),
    };
    for term in terms {
        let product = term.coefficient.times(entries[term.place]);
        sum = with_product(sum, product, term.place as u32);
    }
    if is_zero(sum.value) {
        sum.reached = Mask::empty();
    }
    sum
}

/// The sums of the inequality of these terms at the row. It is one look.
pub fn sums_at<S: Scalar>(terms: &Terms<S>, row: &Row<S>, looks: &mut Looks) -> Sums<S>
    requires left { All (Fits S.ring row.now) terms.now.left.items }
    requires right { All (Fits S.ring row.now) terms.now.right.items }
    ensures sums { (p : Inequality S) → HasTerms S.ring p terms.now.left.items terms.now.right.items →
        IsIn (length row.now) p → AreSums S.ring p row.now result }
    ensures looks { looks.new ≡ min (looks.old + 1) (2 ^ 62) }
    ensures kept { looks.old ≤ looks.new }
{
    looks.add_one();
    Sums {
        left: sum_at(terms.left.as_slice(), row),
        right: sum_at(terms.right.as_slice(), row),
    }
}

/// The slot of an inequality at a row, from its sums there.
pub fn slot_of<S: Scalar>(sums: Sums<S>) -> RowSlot<S>
    ensures { (p : Inequality S) (x : List S) → AreSums S.ring p x sums → IsSlot S.ring x p result }
{
    let (left, right) = (sums.left, sums.right);
    if left.value == right.value {
        return RowSlot {
            sum: right.value,
            tail: right.reached,
            head: left.reached,
        };
    }
    RowSlot {
        sum: right.value,
        tail: right.reached,
        head: Mask::empty(),
    }
}
