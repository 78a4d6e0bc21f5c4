//! What is done with the entries of rows.
ghost use Rattle.std.specs.Prelude.{◌≡◌, ◌≢◌, ◌+◌, ◌<◌, ◌≤◌, ◌↔◌, ℕ, IsTrue, MatchOption, length, map, slice_set};
ghost use Rattle.std.specs.Bool.{OnTrue, OnFalse};
ghost use Rattle.trop_theory.specs.Sizes.{most_element, most_entry};
ghost use Rattle.trop_theory.specs.Semiring.{Le};
ghost use Rattle.trop_theory.specs.Vectors.{entry, scaled, joined, row_size, bottom, Below};
ghost use Rattle.trop_theory.specs.Normal.{Normalises};
ghost use Rattle.trop_theory.specs.Compare.{compare, compare_rows};
ghost use Rattle.trop_theory.specs.Residual.{Meets};

use std::cmp::Ordering;
use trop_scalar::Scalar;

// Whether it is the zero.
pub fn is_zero<S: Scalar>(x: S) -> bool
    ensures { IsTrue result ↔ (x ≡ S.ring.zero) }
{
    x == S::zero()
}

// Replaces the entry at i alone.
pub fn put<S: Scalar>(entries: &mut [S], i: usize, c: S)
    requires { i < length entries.old }
    ensures { entries.new ≡ slice_set entries.old i c }
{
    entries[i] = c;
}

// Multiplies each entry.
pub fn scale_all<S: Scalar>(entries: &mut [S], c: S)
    requires { S.ring.size c + row_size S.ring entries.old ≤ most_element }
    ensures { entries.new ≡ scaled S.ring c entries.old }
{
    for x in entries.iter_mut() {
        *x = c.times(*x);
    }
}

// Adds the multiple of the other entries.
pub fn join_all<S: Scalar>(entries: &mut [S], others: &[S], c: S)
    requires lengths { length entries.old ≡ length others.now }
    requires sizes { S.ring.size c + row_size S.ring others.now ≤ most_element }
    ensures { entries.new ≡ joined S.ring entries.old (scaled S.ring c others.now) }
{
    for i in 0..entries.len() {
        entries[i] = entries[i].plus(c.times(others[i]));
    }
}

// The place of the first entry other than the zero.
pub fn first_finite<S: Scalar>(entries: &[S]) -> Option<usize>
    ensures none { MatchOption result ((i : ℕ) → entry S.ring entries.now i ≡ S.ring.zero)
        (λ i. (i < length entries.now) × (entry S.ring entries.now i ≢ S.ring.zero) ×
        ((k : ℕ) → k < i → entry S.ring entries.now k ≡ S.ring.zero)) }
{
    for i in 0..entries.len() {
        if !is_zero(entries[i]) {
            return Some(i);
        }
    }
    None
}

// Whether the multiple of the row lies below the other.
pub fn lies_below<S: Scalar>(row: &[S], c: S, above: &[S]) -> bool
    requires lengths { length row.now ≡ length above.now }
    requires sizes { S.ring.size c + row_size S.ring row.now ≤ most_element }
    ensures { IsTrue result ↔ Below S.ring (scaled S.ring c row.now) above.now }
{
    for i in 0..above.len() {
        if !c.times(row[i]).le(above[i]) {
            return false;
        }
    }
    true
}

// Whether a multiple of the row that lies below the target meets its entry t.
pub fn meets_at<S: Scalar>(row: &[S], target: &[S], t: usize) -> bool
    requires lengths { length row.now ≡ length target.now }
    requires within { t < length target.now }
    requires finite { entry S.ring target.now t ≢ S.ring.zero }
    requires row_size { row_size S.ring row.now ≤ most_entry }
    requires target_size { row_size S.ring target.now ≤ most_entry }
    ensures { IsTrue result ↔ Meets S.ring target.now t row.now }
{
    let entry = row[t];
    let wanted = target[t];
    if is_zero(entry) {
        return false;
    }
    lies_below(row, wanted.times(entry.inverse()), target)
}

// Brings the entries to normal form; false where each is the zero.
pub fn normalise_all<S: Scalar>(entries: &mut [S]) -> bool
    requires { row_size S.ring entries.old ≤ most_entry }
    ensures yes { OnTrue result (Normalises S.ring entries.old entries.new) }
    ensures no { OnFalse result (entries.old ≡ bottom S.ring (length entries.old)) }
    ensures same { OnFalse result (entries.new ≡ entries.old) }
{
    match first_finite(entries) {
        None => false,
        Some(i) => {
            let factor = entries[i].inverse();
            scale_all(entries, factor);
            true
        }
    }
}

// The order of two elements.
pub fn compare_elements<S: Scalar>(a: S, b: S) -> Ordering
    ensures { result ≡ compare S.eq S.ring a b }
{
    if a == b {
        Ordering::Equal
    } else if a.plus(b) == b {
        Ordering::Less
    } else {
        Ordering::Greater
    }
}

// The order of two rows.
pub fn compare_entries<S: Scalar>(a: &[S], b: &[S]) -> Ordering
    ensures { result ≡ compare_rows S.eq S.ring a.now b.now }
{
    for i in 0..a.len() {
        if i == b.len() {
            return Ordering::Greater;
        }
        match compare_elements(a[i], b[i]) {
            Ordering::Less => return Ordering::Less,
            Ordering::Equal => {}
            Ordering::Greater => return Ordering::Greater,
        }
    }
    if a.len() == b.len() {
        Ordering::Equal
    } else {
        Ordering::Less
    }
}
