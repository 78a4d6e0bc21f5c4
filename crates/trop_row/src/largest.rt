//! The greatest sizes of entries and of coefficients.
ghost use Rattle.std.specs.Prelude.{◌≡◌, max};
ghost use Rattle.trop_theory.specs.Vectors.{row_size, rows_size as size_of_rows};
ghost use Rattle.trop_theory.specs.Inequalities.{inequality_size, system_size as size_of_system};

use crate::inequality::Ineq;
use crate::row::Row;
use trop_scalar::Scalar;

// The greater of the two.
fn greater(a: u64, b: u64) -> u64
    ensures { result ≡ max a b }
{
    if a < b { b } else { a }
}

// Of an entry of the row.
fn largest_entry<S: Scalar>(entries: &[S]) -> u64
    ensures { result ≡ row_size S.ring entries.now }
{
    let mut largest = 0;
    for x in entries {
        largest = greater(largest, x.size());
    }
    largest
}

/// The greatest size of an entry of any of the rows; 0 where there is no finite entry.
pub fn rows_size<S: Scalar>(rows: &[Row<S>]) -> u64
    ensures { result ≡ size_of_rows S.ring rows.now }
{
    let mut largest = 0;
    for row in rows {
        largest = greater(largest, largest_entry(row.as_slice()));
    }
    largest
}

// Of a coefficient of the inequality.
fn largest_coefficient<S: Scalar>(ineq: &Ineq<S>) -> u64
    ensures { result ≡ inequality_size S.ring ineq.now }
{
    let left = largest_entry(ineq.left().as_slice());
    let right = largest_entry(ineq.right().as_slice());
    greater(left, right)
}

/// The greatest size of a coefficient of any of the inequalities; 0 where there is no finite coefficient.
pub fn system_size<S: Scalar>(system: &[Ineq<S>]) -> u64
    ensures { result ≡ size_of_system S.ring system.now }
{
    let mut largest = 0;
    for ineq in system {
        largest = greater(largest, largest_coefficient(ineq));
    }
    largest
}
