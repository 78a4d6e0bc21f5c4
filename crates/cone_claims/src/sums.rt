// Sums of terms at a row.
ghost use Rattle.std.specs.Prelude.{◌≡◌, ◌↔◌, ◌≤◌, IsTrue, All, length, map};
ghost use Rattle.trop_theory.specs.Vectors.{entry, dot, row_size};
ghost use Rattle.trop_theory.specs.Sizes.{most_entry};
ghost use Rattle.prog_tree.specs.Terms.{term_of};
ghost use Rattle.cone_reports.specs.Sides as sides;
ghost use Rattle.cone_claims.specs.Terms.{IsOn};

use prog_tree::{Side, Term};
use trop_row::Row;
use trop_scalar::Numeric;

// The number of the term times the entry of the row at its coordinate.
fn product_at<S: Numeric>(term: &Term, row: &Row<S>) -> S
    requires fits { IsOn (length row.now) (term_of term.now) }
    requires size { row_size S.ring row.now ≤ most_entry }
    ensures { result ≡ S.ring.times (S.numbering.of term.now.add) (entry S.ring row.now term.now.coord) }
{
    S::of_number(term.add).times(row.get(term.coord))
}

// The sum of the terms at the row.
fn sum_at<S: Numeric>(terms: &[Term], row: &Row<S>) -> S
    requires fits { All (IsOn (length row.now)) (map term_of terms.now) }
    requires size { row_size S.ring row.now ≤ most_entry }
    ensures { result ≡ dot S.ring (sides.side S.ring S.numbering (length row.now) (map term_of terms.now)) row.now }
{
    let mut sum = S::zero();
    for term in terms {
        sum = sum.plus(product_at(term, row));
    }
    sum
}

// The sum of a side at the row.
pub(crate) fn side_at<S: Numeric>(side: &Side, row: &Row<S>) -> S
    requires fits { All (IsOn (length row.now)) side.now.terms }
    requires size { row_size S.ring row.now ≤ most_entry }
    ensures { result ≡ dot S.ring (sides.side S.ring S.numbering (length row.now) side.now.terms) row.now }
{
    sum_at(side.terms().as_slice(), row)
}

// Whether the first sum is at most the second in the order of numbers.
pub(crate) fn at_most<S: Numeric>(first: S, second: S) -> bool
    ensures { IsTrue result ↔ sides.Ordered S.ring S.REVERSED first second }
{
    if S::REVERSED {
        second.le(first)
    } else {
        first.le(second)
    }
}

// Whether each of the sums is at most the other.
pub(crate) fn both_ways<S: Numeric>(first: S, second: S) -> bool
    ensures { IsTrue result ↔ (sides.Ordered S.ring S.REVERSED first second
        × sides.Ordered S.ring S.REVERSED second first) }
{
    at_most(first, second) && at_most(second, first)
}
