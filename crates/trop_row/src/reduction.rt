//! The canonical list of the cone that rows generate.
ghost use Rattle.std.specs.Prelude.{◌≡◌, ◌≢◌, ◌<◌, ◌≤◌, ◌↔◌, List, IsTrue, IsFalse, MatchOption, IfOk, length, All, Any, AllPairs, remove, slice_index_or};
ghost use Rattle.trop_theory.specs.Sizes.{most_entry};
ghost use Rattle.trop_theory.specs.Vectors.{entry, row_size, rows_size, AreWide};
ghost use Rattle.trop_theory.specs.Normal.{IsNormal};
ghost use Rattle.trop_theory.specs.Combinations.{IsCombination, SameCone, AreIndependent};
ghost use Rattle.trop_theory.specs.Canonical.{RowBelow, IsCanonical};
ghost use Rattle.trop_theory.specs.Residual.{Meets};
ghost use Rattle.trop_row.specs.Reduction.{AreReducible};

use crate::entries::{is_zero, meets_at};
use crate::gens::Gens;
use crate::membership::row_that_meets;
use crate::row::Row;
use std::alloc::{AllocError, Global};
use trop_scalar::Scalar;

type NoMemory = AllocError;

// How many hints are kept at most. The same few rows meet entry after entry, so the places of rows that met one are
// kept as hints and tried first. Nothing is promised of a hint: there may be no row, or one that does not meet.
const MOST_HINTS: usize = 128;

// Whether the row at the place is another than that at k and meets the target's entry t; false where there is none.
fn other_meets_at<S: Scalar>(
    rows: &[Row<S>],
    k: usize,
    target: &[S],
    t: usize,
    place: usize,
) -> bool
    requires wide { AreWide (length target.now) rows.now }
    requires within { t < length target.now }
    requires finite { entry S.ring target.now t ≢ S.ring.zero }
    requires row_sizes { rows_size S.ring rows.now ≤ most_entry }
    requires target_size { row_size S.ring target.now ≤ most_entry }
    ensures { IsTrue result → Any (Meets S.ring target.now t) (remove rows.now k) }
{
    if place == k || place >= rows.len() {
        return false;
    }
    meets_at(rows[place].as_slice(), target, t)
}

// Whether the row at some hint, but that at k, meets the target's entry t. That hint moves half the way to the front.
fn hinted_meets<S: Scalar>(
    rows: &[Row<S>],
    k: usize,
    target: &[S],
    t: usize,
    hints: &mut [usize],
) -> bool
    requires wide { AreWide (length target.now) rows.now }
    requires within { t < length target.now }
    requires finite { entry S.ring target.now t ≢ S.ring.zero }
    requires row_sizes { rows_size S.ring rows.now ≤ most_entry }
    requires target_size { row_size S.ring target.now ≤ most_entry }
    ensures { IsTrue result → Any (Meets S.ring target.now t) (remove rows.now k) }
{
    for i in 0..hints.len() {
        if other_meets_at(rows, k, target, t, hints[i]) {
            hints.swap(i, i / 2);
            return true;
        }
    }
    false
}

// The place of a row but that at k that meets the target's entry t, first of those behind k. No caller asks where it is
// but for a hint, so the clause only says whether there is one.
fn other_that_meets<S: Scalar>(rows: &[Row<S>], k: usize, target: &[S], t: usize) -> Option<usize>
    requires at { k < length rows.now }
    requires wide { AreWide (length target.now) rows.now }
    requires within { t < length target.now }
    requires finite { entry S.ring target.now t ≢ S.ring.zero }
    requires row_sizes { rows_size S.ring rows.now ≤ most_entry }
    requires target_size { row_size S.ring target.now ≤ most_entry }
    ensures { MatchOption result (Any (Meets S.ring target.now t) (remove rows.now k) → ⊥)
        (λ _. Any (Meets S.ring target.now t) (remove rows.now k)) }
{
    match row_that_meets(&rows[k + 1..], target, t) {
        Some(i) => Some(k + 1 + i),
        None => row_that_meets(&rows[..k], target, t),
    }
}

// Adds a hint, in place of the last one where there are as many as are kept. Where memory is wanting it is left out,
// which costs time alone.
fn remember(hints: &mut Vec<usize>, place: usize) {
    let count = hints.len();
    if count < MOST_HINTS {
        let _added = hints.push(place);
    } else {
        hints[count - 1] = place;
    }
}

// Lets the hints stand for the same rows after that at k was taken out. One that stood for it stands for the next.
fn follow_removal(hints: &mut [usize], k: usize) {
    for place in hints.iter_mut() {
        if *place > k {
            *place -= 1;
        }
    }
}

// Whether a multiple of some row but that at k lies below the target and meets its entry t. The hints are tried first.
fn others_meet<S: Scalar>(
    rows: &[Row<S>],
    k: usize,
    target: &[S],
    t: usize,
    hints: &mut Vec<usize>,
) -> bool
    requires at { k < length rows.now }
    requires wide { AreWide (length target.now) rows.now }
    requires within { t < length target.now }
    requires finite { entry S.ring target.now t ≢ S.ring.zero }
    requires row_sizes { rows_size S.ring rows.now ≤ most_entry }
    requires target_size { row_size S.ring target.now ≤ most_entry }
    ensures { IsTrue result ↔ Any (Meets S.ring target.now t) (remove rows.now k) }
{
    if hinted_meets(rows, k, target, t, hints.as_mut_slice()) {
        return true;
    }
    match other_that_meets(rows, k, target, t) {
        None => false,
        Some(place) => {
            remember(hints, place);
            true
        }
    }
}

// The place of a greatest entry, at which a row is the likeliest to be met by no other.
fn greatest_at<S: Scalar>(entries: &[S]) -> usize {
    let (mut place, mut greatest) = (0, S::zero());
    for i in 0..entries.len() {
        let next = entries[i];
        if !next.le(greatest) {
            place = i;
            greatest = next;
        }
    }
    place
}

// Whether the row at k is a combination of the others: at each coordinate some other meets it.
fn each_is_met<S: Scalar>(rows: &[Row<S>], k: usize, n: u32, hints: &mut Vec<usize>) -> bool
    requires within { k < length rows.now }
    requires wide { AreWide n rows.now }
    requires sizes { rows_size S.ring rows.now ≤ most_entry }
    ensures yes { IsTrue result → (d : List S) → IsCombination S.ring n (remove rows.now k)
        (slice_index_or rows.now k d) }
    ensures no { IsFalse result → (d : List S) → IsCombination S.ring n (remove rows.now k)
        (slice_index_or rows.now k d) → ⊥ }
{
    let row = &rows[k];
    let target = row.as_slice();
    for t in 0..target.len() {
        if !is_zero(target[t]) && !others_meet(rows, k, target, t, hints) {
            return false;
        }
    }
    true
}

// The same, with a look at one coordinate first.
fn depends<S: Scalar>(rows: &[Row<S>], k: usize, n: u32, hints: &mut Vec<usize>) -> bool
    requires within { k < length rows.now }
    requires wide { AreWide n rows.now }
    requires sizes { rows_size S.ring rows.now ≤ most_entry }
    ensures yes { IsTrue result → (d : List S) → IsCombination S.ring n (remove rows.now k)
        (slice_index_or rows.now k d) }
    ensures no { IsFalse result → (d : List S) → IsCombination S.ring n (remove rows.now k)
        (slice_index_or rows.now k d) → ⊥ }
{
    let row = &rows[k];
    let target = row.as_slice();
    let t = greatest_at(target);
    if t < target.len() && !is_zero(target[t]) && !others_meet(rows, k, target, t, hints) {
        return false;
    }
    each_is_met(rows, k, n, hints)
}

// Takes out, one after another from the last on, the rows that the others give. So only rows that stay move up.
fn drop_combinations<S: Scalar>(alloc: Global, rows: &mut Vec<Row<S>>, n: u32)
    requires wide { AreWide n rows.old.items }
    requires sizes { rows_size S.ring rows.old.items ≤ most_entry }
    requires normal { All (IsNormal S.ring) rows.old.items }
    requires ascending { AllPairs (RowBelow S.ring) rows.old.items }
    ensures wide { AreWide n rows.new.items }
    ensures normal { All (IsNormal S.ring) rows.new.items }
    ensures ascending { AllPairs (RowBelow S.ring) rows.new.items }
    ensures independent { AreIndependent S.ring n rows.new.items (length rows.new.items) }
    ensures same { (x : List S) → IsCombination S.ring n rows.old.items x ↔ IsCombination S.ring n rows.new.items x }
    ensures fewer { length rows.new.items ≤ length rows.old.items }
    ensures sizes { rows_size S.ring rows.new.items ≤ most_entry }
{
    let mut hints = Vec::new(alloc);
    let mut k = rows.len();
    while k > 0 {
        k -= 1;
        if depends(rows.as_slice(), k, n, &mut hints) {
            let _row = rows.remove(k);
            follow_removal(hints.as_mut_slice(), k);
        }
    }
}

// The rows other than bottom, in normal form.
fn normal_rows<S: Scalar>(alloc: Global, rows: &[Row<S>], n: u32) -> Result<Vec<Row<S>>, NoMemory>
    requires wide { AreWide n rows.now }
    requires sizes { AreReducible S.ring rows.now }
    ensures wide { IfOk result (λ out. AreWide n out.items) }
    ensures normal { IfOk result (λ out. All (IsNormal S.ring) out.items) }
    ensures sizes { IfOk result (λ out. rows_size S.ring out.items ≤ most_entry) }
    ensures fewer { IfOk result (λ out. length out.items ≤ length rows.now) }
    ensures same { IfOk result (λ out. SameCone S.ring n rows.now out.items) }
{
    let mut out = Vec::new(alloc);
    for row in rows {
        let mut next = row.copy(alloc)?;
        if next.normalise() {
            out.push(next)?;
        }
    }
    Ok(out)
}

// Sorts the rows and leaves out repeats.
fn sort_rows<S: Scalar>(rows: &mut Vec<Row<S>>, n: u32) -> Result<(), NoMemory>
    requires wide { AreWide n rows.old.items }
    requires sizes { rows_size S.ring rows.old.items ≤ most_entry }
    requires normal { All (IsNormal S.ring) rows.old.items }
    ensures wide { IfOk result (λ _. AreWide n rows.new.items) }
    ensures sizes { IfOk result (λ _. rows_size S.ring rows.new.items ≤ most_entry) }
    ensures normal { IfOk result (λ _. All (IsNormal S.ring) rows.new.items) }
    ensures ascending { IfOk result (λ _. AllPairs (RowBelow S.ring) rows.new.items) }
    ensures fewer { IfOk result (λ _. length rows.new.items ≤ length rows.old.items) }
    ensures same { IfOk result (λ _. SameCone S.ring n rows.old.items rows.new.items) }
{
    rows.sort()?;
    rows.dedup();
    Ok(())
}

/// The canonical list of the combinations of the rows: their extreme vectors in normal form, ascending, without
/// repeats. None of them is a combination of the others, and together they have the same combinations as the rows.
pub fn reduce<S: Scalar>(alloc: Global, gens: &Gens<S>) -> Result<Gens<S>, NoMemory>
    requires sizes { AreReducible S.ring gens.now.rows }
    ensures width { IfOk result (λ out. out.n ≡ gens.now.n) }
    ensures canonical { IfOk result (λ out. IsCanonical S.ring (IsCombination S.ring gens.now.n gens.now.rows)
        out.rows) }
    ensures same { IfOk result (λ out. (x : List S) → IsCombination S.ring gens.now.n gens.now.rows x ↔
        IsCombination S.ring gens.now.n out.rows x) }
    ensures independent { IfOk result (λ out. AreIndependent S.ring gens.now.n out.rows (length out.rows)) }
    ensures fewer { IfOk result (λ out. length out.rows ≤ length gens.now.rows) }
    ensures sizes { IfOk result (λ out. rows_size S.ring out.rows ≤ most_entry) }
{
    let n = gens.n();
    let mut rows = normal_rows(alloc, gens.as_slice(), n)?;
    sort_rows(&mut rows, n)?;
    drop_combinations(alloc, &mut rows, n);
    Ok(Gens::from_rows(n, rows))
}
