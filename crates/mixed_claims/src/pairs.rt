// Pairs of terms on the combinations of rows.
ghost use Rattle.std.specs.Prelude.{◌≡◌, ◌↔◌, ◌≤◌, ◌*◌, suc, IsTrue, All, Any, length, map};
ghost use Rattle.trop_theory.specs.Vectors.{rows_size};
ghost use Rattle.trop_theory.specs.Combinations.{IsCombination};
ghost use Rattle.trop_theory.specs.Sizes.{most_entry};
ghost use Rattle.prog_tree.specs.Terms.{term_of};
ghost use Rattle.mixed_theory.specs.Claims.{IsPairBelow};
ghost use Rattle.mixed_claims.specs.Terms.{IsTermOf, IsPairOn};

use crate::sums::{Reading, is_sum_below};
use prog_tree::Term;
use trop_row::Gens;
use trop_scalar::Numeric;

/// Which pairs of a term of one side and a term of another are asked for.
#[derive(Clone, Copy)]
pub(crate) enum Pairs {
    /// Each of them.
    Every,
    /// Some one of them.
    One,
}

// Whether the first term is at most the second, by their inequality or by that of their opposites.
fn is_pair_below<S: Numeric>(vars: u32, left: &Term, right: &Term, rows: &Gens<S>) -> bool
    requires few { vars ≤ 31 }
    requires left_fits { IsTermOf vars (term_of left.now) }
    requires right_fits { IsTermOf vars (term_of right.now) }
    requires wide { rows.now.n ≡ suc (2 * vars) }
    requires size { rows_size S.ring rows.now.rows ≤ most_entry }
    ensures { IsTrue result ↔ IsPairOn S.ring S.numbering vars rows.now left.now right.now }
{
    let first = [*left];
    let second = [*right];
    is_sum_below(Reading::Own, vars, &first, &second, rows)
        || is_sum_below(Reading::Opposite, vars, &second, &first, rows)
}

// Whether the term is at most each of the others.
fn is_below_each<S: Numeric>(vars: u32, left: &Term, right: &[Term], rows: &Gens<S>) -> bool
    requires few { vars ≤ 31 }
    requires left_fits { IsTermOf vars (term_of left.now) }
    requires right_fits { All (IsTermOf vars) (map term_of right.now) }
    requires wide { rows.now.n ≡ suc (2 * vars) }
    requires size { rows_size S.ring rows.now.rows ≤ most_entry }
    ensures { IsTrue result ↔ All (IsPairOn S.ring S.numbering vars rows.now left.now) right.now }
{
    for term in right {
        if !is_pair_below(vars, left, term, rows) {
            return false;
        }
    }
    true
}

// Whether each of the terms is at most each of the others.
pub(crate) fn is_each_below<S: Numeric>(
    vars: u32,
    left: &[Term],
    right: &[Term],
    rows: &Gens<S>,
) -> bool
    requires few { vars ≤ 31 }
    requires left_fits { All (IsTermOf vars) (map term_of left.now) }
    requires right_fits { All (IsTermOf vars) (map term_of right.now) }
    requires wide { rows.now.n ≡ suc (2 * vars) }
    requires size { rows_size S.ring rows.now.rows ≤ most_entry }
    ensures { IsTrue result ↔
        All (λ l. All (IsPairOn S.ring S.numbering vars rows.now l) right.now) left.now }
{
    for term in left {
        if !is_below_each(vars, term, right, rows) {
            return false;
        }
    }
    true
}

// Whether the term is at most some other.
fn is_below_some<S: Numeric>(vars: u32, left: &Term, right: &[Term], rows: &Gens<S>) -> bool
    requires few { vars ≤ 31 }
    requires left_fits { IsTermOf vars (term_of left.now) }
    requires right_fits { All (IsTermOf vars) (map term_of right.now) }
    requires wide { rows.now.n ≡ suc (2 * vars) }
    requires size { rows_size S.ring rows.now.rows ≤ most_entry }
    ensures { IsTrue result ↔ Any (IsPairOn S.ring S.numbering vars rows.now left.now) right.now }
{
    for term in right {
        if is_pair_below(vars, left, term, rows) {
            return true;
        }
    }
    false
}

// Whether some of the terms is at most some other.
pub(crate) fn is_some_below<S: Numeric>(
    vars: u32,
    left: &[Term],
    right: &[Term],
    rows: &Gens<S>,
) -> bool
    requires few { vars ≤ 31 }
    requires left_fits { All (IsTermOf vars) (map term_of left.now) }
    requires right_fits { All (IsTermOf vars) (map term_of right.now) }
    requires wide { rows.now.n ≡ suc (2 * vars) }
    requires size { rows_size S.ring rows.now.rows ≤ most_entry }
    ensures { IsTrue result ↔
        Any (λ l. Any (IsPairOn S.ring S.numbering vars rows.now l) right.now) left.now }
{
    for term in left {
        if is_below_some(vars, term, right, rows) {
            return true;
        }
    }
    false
}
