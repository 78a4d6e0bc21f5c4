//! Rows.
ghost use Rattle.std.specs.Prelude.{◌≡◌, ◌+◌, ◌<◌, ◌≤◌, ℕ, length, slice_set, IsOk, IfOk, refl};
ghost use Rattle.std.specs.Bool.{OnTrue, OnFalse};
ghost use Rattle.std.specs.Cmp.{partial_equiv_from_equiv, partial_order_from_total};
ghost use Rattle.std.specs.Ordering.{eq_by_cmp, as_partial_cmp};
ghost use Rattle.std.proofs.lemmas.Cmp.{eq_by_cmp_equiv};
ghost use Rattle.trop_theory.specs.Sizes.{most_element, most_entry};
ghost use Rattle.trop_theory.specs.Vectors.{entry, scaled, joined, dot, row_size, bottom};
ghost use Rattle.trop_theory.specs.Normal.{Normalises};
ghost use Rattle.trop_theory.specs.Compare.{compare_rows};
ghost use Rattle.trop_theory.proofs.CompareLaws.{compare_rows_total};

use crate::entries::{compare_entries, join_all, normalise_all, put, scale_all};
use std::alloc::{AllocError, Global};
use std::cmp::Ordering;
use std::marker::Model;
use trop_entries::Entries;
use trop_scalar::Scalar;

type NoMemory = AllocError;

/// A vector of at most 64 elements. Up to 8 of them stand in the row itself, so that a short row needs no memory.
///
/// Rows are ordered by the first entry that differs, in the semiring's order; a proper prefix stands first.
#[derive(Drop)]
pub struct Row<S: Scalar> {
    entries: S::Store,
}

impl<S: Scalar> Model for Row<S> {
    ghost use Rattle.std.specs.Prelude.{List, length, ◌≤◌};

    ghost Value = { List S };

    ghost view = { λ a. S.Store.items a.entries };

    ghost invariant = { λ a. length (S.Store.items a.entries) ≤ 64 };
}

impl<S: Scalar> Row<S> {
    /// The row of these entries. Up to 8 need no memory.
    pub fn from_entries(alloc: Global, entries: &[S]) -> Result<Row<S>, NoMemory>
        requires { length entries.now ≤ 64 }
        ensures entries { IfOk result (λ row. row ≡ entries.now) }
        ensures short { length entries.now ≤ 8 → IsOk result }
    {
        Ok(Row {
            entries: S::Store::from_slice(alloc, entries)?,
        })
    }

    /// The row of `n` zeros. Up to 8 need no memory.
    pub fn bottom(alloc: Global, n: u32) -> Result<Row<S>, NoMemory>
        requires { n ≤ 64 }
        ensures entries { IfOk result (λ row. row ≡ bottom S.ring n) }
        ensures short { n ≤ 8 → IsOk result }
    {
        Ok(Row {
            entries: S::Store::filled(alloc, n as usize, S::zero())?,
        })
    }

    /// The row of `n` entries with the one at `i` and the zero elsewhere. Up to 8 need no memory.
    pub fn unit(alloc: Global, n: u32, i: u32) -> Result<Row<S>, NoMemory>
        requires within { i < n }
        requires at_most { n ≤ 64 }
        ensures entries { IfOk result (λ row. row ≡ slice_set (bottom S.ring n) i S.ring.one) }
        ensures short { n ≤ 8 → IsOk result }
    {
        let mut row = Row::bottom(alloc, n)?;
        row.set(i, S::one());
        Ok(row)
    }

    /// A row of the same entries. Up to 8 need no memory.
    pub fn copy(&self, alloc: Global) -> Result<Row<S>, NoMemory>
        ensures same { IfOk result (λ row. row ≡ self.now) }
        ensures short { length self.now ≤ 8 → IsOk result }
    {
        Ok(Row {
            entries: S::Store::from_slice(alloc, self.entries.as_slice())?,
        })
    }

    /// The number of entries.
    pub fn len(&self) -> u32
        ensures len { result ≡ length self.now }
        ensures at_most { result ≤ 64 }
    {
        self.entries.as_slice().len() as u32
    }

    /// The entry at `i`.
    pub fn get(&self, i: u32) -> S
        requires { i < length self.now }
        ensures { result ≡ entry S.ring self.now i }
    {
        self.entries.as_slice()[i as usize]
    }

    /// Replaces the entry at `i` alone.
    pub fn set(&mut self, i: u32, c: S)
        requires { i < length self.old }
        ensures { self.new ≡ slice_set self.old i c }
    {
        put(self.entries.as_mut_slice(), i as usize, c);
    }

    /// The entries.
    pub fn as_slice(&self) -> &[S]
        ensures entries { result.now ≡ self.now }
        ensures at_most { length self.now ≤ 64 }
    {
        self.entries.as_slice()
    }

    /// The sum of the products of coefficients and entries.
    pub fn dot(&self, coeffs: &Row<S>) -> S
        requires lengths { length self.now ≡ length coeffs.now }
        requires sizes { row_size S.ring self.now + row_size S.ring coeffs.now ≤ most_element }
        ensures { result ≡ dot S.ring coeffs.now self.now }
    {
        S::sum_of_products(coeffs.as_slice(), self.as_slice())
    }

    /// Multiplies each entry by `c`.
    pub fn scale(&mut self, c: S)
        requires { S.ring.size c + row_size S.ring self.old ≤ most_element }
        ensures { self.new ≡ scaled S.ring c self.old }
    {
        scale_all(self.entries.as_mut_slice(), c);
    }

    /// Adds `c` times the other row.
    pub fn join_into(&mut self, other: &Row<S>, c: S)
        requires lengths { length self.old ≡ length other.now }
        requires sizes { S.ring.size c + row_size S.ring other.now ≤ most_element }
        ensures { self.new ≡ joined S.ring self.old (scaled S.ring c other.now) }
    {
        join_all(self.entries.as_mut_slice(), other.as_slice(), c);
    }

    /// Scales to normal form, where the first finite entry is the one. It answers false where every entry is the
    /// zero, and changes nothing then.
    pub fn normalise(&mut self) -> bool
        requires { row_size S.ring self.old ≤ most_entry }
        ensures yes { OnTrue result (Normalises S.ring self.old self.new) }
        ensures no { OnFalse result (self.old ≡ bottom S.ring (length self.old)) }
        ensures same { OnFalse result (self.new ≡ self.old) }
    {
        normalise_all(self.entries.as_mut_slice())
    }
}

impl<S: Scalar> PartialEq for Row<S> {
    ghost eq = { eq_by_cmp (compare_rows S.eq S.ring) };

    ghost laws = { partial_equiv_from_equiv (eq_by_cmp_equiv (compare_rows_total S.ring_laws S.eq S.decides)) };

    fn eq(&self, other: &Row<S>) -> bool {
        compare_entries(self.as_slice(), other.as_slice()).is_eq()
    }
}

impl<S: Scalar> Eq for Row<S> {
    ghost laws = { eq_by_cmp_equiv (compare_rows_total S.ring_laws S.eq S.decides) };
}

impl<S: Scalar> Ord for Row<S> {
    ghost cmp = { compare_rows S.eq S.ring };

    ghost total = { compare_rows_total S.ring_laws S.eq S.decides };

    ghost matches_partial_cmp = { λ x y. refl };

    ghost matches_eq = { λ x y. refl };

    fn cmp(&self, other: &Row<S>) -> Ordering {
        compare_entries(self.as_slice(), other.as_slice())
    }
}

impl<S: Scalar> PartialOrd for Row<S> {
    ghost partial_cmp = { as_partial_cmp (compare_rows S.eq S.ring) };

    ghost laws = { partial_order_from_total (compare_rows_total S.ring_laws S.eq S.decides) };

    fn partial_cmp(&self, other: &Row<S>) -> Option<Ordering> {
        Some(self.cmp(other))
    }
}
