// Whether rows prove a claim.
ghost use Rattle.std.specs.Prelude.{◌≡◌, ◌↔◌, ◌≤◌, ◌*◌, suc, IsTrue};
ghost use Rattle.trop_theory.specs.Vectors.{rows_size};
ghost use Rattle.trop_theory.specs.Combinations.{IsCombination};
ghost use Rattle.trop_theory.specs.Sizes.{most_entry};
ghost use Rattle.prog_theory.specs.Statements.{Greatest, Least};
ghost use Rattle.prog_tree.specs.Claims.{claim_of};
ghost use Rattle.prog_tree.specs.Words.{word_of};
ghost use Rattle.mixed_theory.specs.Claims.{IsReadAs, IsSumBelow, IsOppositeBelow, IsEachBelow, IsSomeBelow, IsSideBelow, IsProvedOn};
ghost use Rattle.mixed_claims.specs.Terms.{IsClaimOf, IsAlikeBelow, IsMixedBelow, ArePairsBelow, pairs_for};
ghost use Rattle.mixed_claims.specs.Sides.{AreSidesOn};

use crate::pairs::{Pairs, is_each_below, is_some_below};
use crate::sums::{Reading, is_sum_below};
use prog_tree::{Claim, Rel, Side, SideWord};
use trop_row::Gens;
use trop_scalar::Numeric;

// Whether the side is read as one with this word, which is its own, or it has one term.
fn is_read_as(side: &Side, word: SideWord) -> bool
    ensures { IsTrue result ↔ IsReadAs (word_of word) side.now }
{
    side.word() == word || side.terms().len() == 1
}

// Whether the greatest of the first terms is at most that of the others.
fn sums_below<S: Numeric>(vars: u32, left: &Side, right: &Side, rows: &Gens<S>) -> bool
    requires sides { AreSidesOn S.ring vars rows.now left.now.terms right.now.terms }
    ensures { IsTrue result ↔ IsSumBelow S.ring S.numbering vars rows.now.n
        (IsCombination S.ring rows.now.n rows.now.rows) left.now.terms right.now.terms }
{
    let (first, second) = (left.terms().as_slice(), right.terms().as_slice());
    is_sum_below(Reading::Own, vars, first, second, rows)
}

// Whether the greatest of the opposites of the other terms is at most that of the opposites of the first.
fn opposites_below<S: Numeric>(vars: u32, left: &Side, right: &Side, rows: &Gens<S>) -> bool
    requires sides { AreSidesOn S.ring vars rows.now left.now.terms right.now.terms }
    ensures { IsTrue result ↔ IsOppositeBelow S.ring S.numbering vars rows.now.n
        (IsCombination S.ring rows.now.n rows.now.rows) left.now.terms right.now.terms }
{
    let (first, second) = (left.terms().as_slice(), right.terms().as_slice());
    is_sum_below(Reading::Opposite, vars, second, first, rows)
}

// Whether each of the first terms is at most each of the others.
fn each_below<S: Numeric>(vars: u32, left: &Side, right: &Side, rows: &Gens<S>) -> bool
    requires sides { AreSidesOn S.ring vars rows.now left.now.terms right.now.terms }
    ensures { IsTrue result ↔ IsEachBelow S.ring S.numbering vars rows.now.n
        (IsCombination S.ring rows.now.n rows.now.rows) left.now.terms right.now.terms }
{
    let (first, second) = (left.terms().as_slice(), right.terms().as_slice());
    is_each_below(vars, first, second, rows)
}

// Whether some of the first terms is at most some of the others.
fn some_below<S: Numeric>(vars: u32, left: &Side, right: &Side, rows: &Gens<S>) -> bool
    requires sides { AreSidesOn S.ring vars rows.now left.now.terms right.now.terms }
    ensures { IsTrue result ↔ IsSomeBelow S.ring S.numbering vars rows.now.n
        (IsCombination S.ring rows.now.n rows.now.rows) left.now.terms right.now.terms }
{
    let (first, second) = (left.terms().as_slice(), right.terms().as_slice());
    is_some_below(vars, first, second, rows)
}

// Whether the first side is at most the second by these pairs of terms.
fn pairs_below<S: Numeric>(
    pairs: Pairs,
    vars: u32,
    left: &Side,
    right: &Side,
    rows: &Gens<S>,
) -> bool
    requires sides { AreSidesOn S.ring vars rows.now left.now.terms right.now.terms }
    ensures { IsTrue result ↔ ArePairsBelow S.ring S.numbering vars rows.now pairs left.now.terms right.now.terms }
{
    match pairs {
        Pairs::Every => each_below(vars, left, right, rows),
        Pairs::One => some_below(vars, left, right, rows),
    }
}

// Whether both sides are read as those with these words.
fn are_read_as(left: &Side, word: SideWord, right: &Side, other: SideWord) -> bool
    ensures { IsTrue result ↔ (IsReadAs (word_of word) left.now × IsReadAs (word_of other) right.now) }
{
    is_read_as(left, word) && is_read_as(right, other)
}

// Whether the sides are so read, and the greatest of the first side is at most the greatest of the other, by their
// sums.
fn greatest_by_greatest<S: Numeric>(vars: u32, left: &Side, right: &Side, rows: &Gens<S>) -> bool
    requires sides { AreSidesOn S.ring vars rows.now left.now.terms right.now.terms }
    ensures { IsTrue result ↔ ((IsReadAs Greatest left.now × IsReadAs Greatest right.now)
        × IsSumBelow S.ring S.numbering vars rows.now.n (IsCombination S.ring rows.now.n rows.now.rows) left.now.terms
        right.now.terms) }
{
    are_read_as(left, SideWord::Max, right, SideWord::Max) && sums_below(vars, left, right, rows)
}

// Whether the sides are so read, and the least of the first side is at most the least of the other, by the sums of
// their opposites.
fn least_by_least<S: Numeric>(vars: u32, left: &Side, right: &Side, rows: &Gens<S>) -> bool
    requires sides { AreSidesOn S.ring vars rows.now left.now.terms right.now.terms }
    ensures { IsTrue result ↔ ((IsReadAs Least left.now × IsReadAs Least right.now)
        × IsOppositeBelow S.ring S.numbering vars rows.now.n (IsCombination S.ring rows.now.n rows.now.rows)
        left.now.terms right.now.terms) }
{
    are_read_as(left, SideWord::Min, right, SideWord::Min)
        && opposites_below(vars, left, right, rows)
}

// The pairs that are asked for where the first side is read as its greatest or as its least, and the other one
// otherwise.
fn pairs_asked(word: SideWord) -> Pairs
    ensures { result ≡ pairs_for (word_of word) }
{
    match word {
        SideWord::Min => Pairs::One,
        SideWord::Max | SideWord::One => Pairs::Every,
    }
}

// Whether the sides are so read, and the first is at most the second by the pairs of terms that are asked for then.
fn by_pairs<S: Numeric>(
    word: SideWord,
    other: SideWord,
    vars: u32,
    left: &Side,
    right: &Side,
    rows: &Gens<S>,
) -> bool
    requires sides { AreSidesOn S.ring vars rows.now left.now.terms right.now.terms }
    ensures { IsTrue result ↔ ((IsReadAs (word_of word) left.now × IsReadAs (word_of other) right.now)
        × ArePairsBelow S.ring S.numbering vars rows.now (pairs_for (word_of word)) left.now.terms right.now.terms) }
{
    are_read_as(left, word, right, other) && pairs_below(pairs_asked(word), vars, left, right, rows)
}

// Whether the first side is at most the second where both are read alike.
fn is_alike_below<S: Numeric>(vars: u32, left: &Side, right: &Side, rows: &Gens<S>) -> bool
    requires sides { AreSidesOn S.ring vars rows.now left.now.terms right.now.terms }
    ensures { IsTrue result ↔ IsAlikeBelow S.ring S.numbering vars rows.now left.now right.now }
{
    greatest_by_greatest(vars, left, right, rows) || least_by_least(vars, left, right, rows)
}

// Whether the first side is at most the second where they are read otherwise.
fn is_mixed_below<S: Numeric>(vars: u32, left: &Side, right: &Side, rows: &Gens<S>) -> bool
    requires sides { AreSidesOn S.ring vars rows.now left.now.terms right.now.terms }
    ensures { IsTrue result ↔ IsMixedBelow S.ring S.numbering vars rows.now left.now right.now }
{
    by_pairs(SideWord::Max, SideWord::Min, vars, left, right, rows)
        || by_pairs(SideWord::Min, SideWord::Max, vars, left, right, rows)
}

// Whether the first side is at most the second, as one of the readings of their words proves it.
fn is_side_below<S: Numeric>(vars: u32, left: &Side, right: &Side, rows: &Gens<S>) -> bool
    requires sides { AreSidesOn S.ring vars rows.now left.now.terms right.now.terms }
    ensures { IsTrue result ↔ IsSideBelow S.ring S.numbering vars rows.now.n
        (IsCombination S.ring rows.now.n rows.now.rows) left.now right.now }
{
    is_alike_below(vars, left, right, rows) || is_mixed_below(vars, left, right, rows)
}

// Whether each side is at most the other.
fn is_same<S: Numeric>(vars: u32, left: &Side, right: &Side, rows: &Gens<S>) -> bool
    requires sides { AreSidesOn S.ring vars rows.now left.now.terms right.now.terms }
    ensures { IsTrue result ↔ (IsSideBelow S.ring S.numbering vars rows.now.n
        (IsCombination S.ring rows.now.n rows.now.rows) left.now right.now
        × IsSideBelow S.ring S.numbering vars rows.now.n
        (IsCombination S.ring rows.now.n rows.now.rows) right.now left.now) }
{
    is_side_below(vars, left, right, rows) && is_side_below(vars, right, left, rows)
}

/// Whether the claim is proved on the combinations of the rows, in a coordinate 0, one for each variable and one for
/// its opposite: by the sums of its sides, by those of their opposites, or by pairs of terms, as the words of its sides
/// allow. A side of one term is its greatest and its least.
pub fn proved_by<S: Numeric>(vars: u32, rows: &Gens<S>, claim: &Claim) -> bool
    requires few { vars ≤ 31 }
    requires fits { IsClaimOf vars (claim_of claim.now) }
    requires wide { rows.now.n ≡ suc (2 * vars) }
    requires size { rows_size S.ring rows.now.rows ≤ most_entry }
    ensures { IsTrue result ↔ IsProvedOn S.ring S.numbering vars rows.now.n
        (IsCombination S.ring rows.now.n rows.now.rows) (claim_of claim.now) }
{
    match claim.rel {
        Rel::Le => is_side_below(vars, &claim.left, &claim.right, rows),
        Rel::Ge => is_side_below(vars, &claim.right, &claim.left, rows),
        Rel::Same => is_same(vars, &claim.left, &claim.right, rows),
    }
}
