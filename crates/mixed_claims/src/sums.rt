// Sums of terms at the rows of a cone, as the terms stand or of their opposites.
ghost use Rattle.std.specs.Prelude.{◌≡◌, ◌↔◌, ◌≤◌, ◌*◌, suc, IsTrue, All, length, map};
ghost use Rattle.trop_theory.specs.Vectors.{entry, dot, row_size, rows_size, AreWide};
ghost use Rattle.trop_theory.specs.Inequalities.{IsTrueAt};
ghost use Rattle.trop_theory.specs.Combinations.{IsCombination};
ghost use Rattle.trop_theory.specs.Sizes.{most_entry};
ghost use Rattle.prog_tree.specs.Terms.{term_of};
ghost use Rattle.mixed_theory.specs.Claims.{IsSumBelow};
ghost use Rattle.mixed_claims.specs.Terms.{IsTermOf, read_term, read_terms, read_side, read_inequality};

use crate::opposites::opposite_term;
use prog_tree::Term;
use trop_row::{Gens, Row};
use trop_scalar::Numeric;

/// How terms are read.
#[derive(Clone, Copy)]
pub(crate) enum Reading {
    /// As they stand.
    Own,
    /// As their opposites.
    Opposite,
}

// The term that is read.
fn term_read(reading: Reading, vars: u32, term: &Term) -> Term
    requires few { vars ≤ 31 }
    requires fits { IsTermOf vars (term_of term.now) }
    ensures { term_of result ≡ read_term reading vars term.now }
{
    match reading {
        Reading::Own => *term,
        Reading::Opposite => opposite_term(vars, term),
    }
}

// The number of the term that is read times the entry of the row at its coordinate.
fn product_at<S: Numeric>(reading: Reading, vars: u32, term: &Term, row: &Row<S>) -> S
    requires few { vars ≤ 31 }
    requires fits { IsTermOf vars (term_of term.now) }
    requires wide { length row.now ≡ suc (2 * vars) }
    requires size { row_size S.ring row.now ≤ most_entry }
    ensures { result ≡ S.ring.times (S.numbering.of (read_term reading vars term.now).add)
        (entry S.ring row.now (read_term reading vars term.now).coord) }
{
    let term = term_read(reading, vars, term);
    S::of_number(term.add).times(row.get(term.coord))
}

// The sum of the terms that are read, at the row.
fn sum_at<S: Numeric>(reading: Reading, vars: u32, terms: &[Term], row: &Row<S>) -> S
    requires few { vars ≤ 31 }
    requires fits { All (IsTermOf vars) (map term_of terms.now) }
    requires wide { length row.now ≡ suc (2 * vars) }
    requires size { row_size S.ring row.now ≤ most_entry }
    ensures { result ≡ dot S.ring (read_side S.ring S.numbering reading vars terms.now) row.now }
{
    let mut sum = S::zero();
    for term in terms {
        sum = sum.plus(product_at(reading, vars, term, row));
    }
    sum
}

// Whether the sum of the first terms is at most that of the others, at the row.
fn is_below_at<S: Numeric>(
    reading: Reading,
    vars: u32,
    left: &[Term],
    right: &[Term],
    row: &Row<S>,
) -> bool
    requires few { vars ≤ 31 }
    requires left_fits { All (IsTermOf vars) (map term_of left.now) }
    requires right_fits { All (IsTermOf vars) (map term_of right.now) }
    requires wide { length row.now ≡ suc (2 * vars) }
    requires size { row_size S.ring row.now ≤ most_entry }
    ensures { IsTrue result ↔
        IsTrueAt S.ring (read_inequality S.ring S.numbering reading vars left.now right.now) row.now }
{
    sum_at(reading, vars, left, row).le(sum_at(reading, vars, right, row))
}

// The same at each of the rows.
fn is_below_at_each<S: Numeric>(
    reading: Reading,
    vars: u32,
    left: &[Term],
    right: &[Term],
    rows: &[Row<S>],
) -> bool
    requires few { vars ≤ 31 }
    requires left_fits { All (IsTermOf vars) (map term_of left.now) }
    requires right_fits { All (IsTermOf vars) (map term_of right.now) }
    requires wide { AreWide (suc (2 * vars)) rows.now }
    requires size { rows_size S.ring rows.now ≤ most_entry }
    ensures { IsTrue result ↔
        All (IsTrueAt S.ring (read_inequality S.ring S.numbering reading vars left.now right.now)) rows.now }
{
    for row in rows {
        if !is_below_at(reading, vars, left, right, row) {
            return false;
        }
    }
    true
}

// Whether the greatest of the first terms is at most that of the others, on the combinations of the rows.
pub(crate) fn is_sum_below<S: Numeric>(
    reading: Reading,
    vars: u32,
    left: &[Term],
    right: &[Term],
    rows: &Gens<S>,
) -> bool
    requires few { vars ≤ 31 }
    requires left_fits { All (IsTermOf vars) (map term_of left.now) }
    requires right_fits { All (IsTermOf vars) (map term_of right.now) }
    requires wide { rows.now.n ≡ suc (2 * vars) }
    requires size { rows_size S.ring rows.now.rows ≤ most_entry }
    ensures { IsTrue result ↔ IsSumBelow S.ring S.numbering vars rows.now.n
        (IsCombination S.ring rows.now.n rows.now.rows) (read_terms reading vars left.now)
        (read_terms reading vars right.now) }
{
    is_below_at_each(reading, vars, left, right, rows.as_slice())
}
