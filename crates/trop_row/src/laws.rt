//! Laws of cones that no code needs, each the contract of a function that does nothing. They hold for every semiring
//! that has the laws of `Scalar`.
ghost use Rattle.std.specs.Prelude.{◌≡◌, ◌↔◌, ℕ, List};
ghost use Rattle.trop_theory.specs.Vectors.{AreWide};
ghost use Rattle.trop_theory.specs.Inequalities.{Inequality, Solves, InGuard, IsIn};
ghost use Rattle.trop_theory.specs.Combinations.{IsCombination};
ghost use Rattle.trop_theory.specs.Canonical.{IsCanonical, RowBelow};
ghost use Rattle.trop_theory.specs.Compare.{compare_rows};
ghost use Rattle.std.specs.declared.cmp.Ordering.TheVariants.{Less, Equal};
ghost use Rattle.trop_theory.specs.StepList.{IsStepList};

use trop_scalar::Scalar;

/// The comparison of rows is their order, and rows are equal where they have the same entries.
pub fn comparison_of_rows<S: Scalar>()
    ensures below { (x y : List S) → (compare_rows S.eq S.ring x y ≡ Less) ↔ RowBelow S.ring x y }
    ensures same { (x y : List S) → (compare_rows S.eq S.ring x y ≡ Equal) ↔ (x ≡ y) }
{}

/// The combinations of the list that the elementary step gives are exactly the combinations of the rows at which the
/// inequality is true (Allamigeon, Gaubert, Goubault, The tropical double description method, 2010).
pub fn step_generates_guard<S: Scalar>()
    ensures { (n : ℕ) (p : Inequality S) (rows others : List (List S)) → IsIn n p → AreWide n rows →
        IsStepList S.ring p rows others → (x : List S) → IsCombination S.ring n others x ↔
        InGuard S.ring (IsCombination S.ring n rows) p x }
{}

/// Lists of rows with the same combinations have the same canonical list.
pub fn canonical_list_of_rows_is_unique<S: Scalar>()
    ensures { (n : ℕ) (rows others first second : List (List S)) →
        ((x : List S) → IsCombination S.ring n rows x ↔ IsCombination S.ring n others x) →
        IsCanonical S.ring (IsCombination S.ring n rows) first →
        IsCanonical S.ring (IsCombination S.ring n others) second → first ≡ second }
{}

/// Systems with the same solutions have the same canonical list.
pub fn canonical_list_of_system_is_unique<S: Scalar>()
    ensures { (n : ℕ) (system other : List (Inequality S)) (first second : List (List S)) →
        ((x : List S) → Solves S.ring n system x ↔ Solves S.ring n other x) →
        IsCanonical S.ring (Solves S.ring n system) first → IsCanonical S.ring (Solves S.ring n other) second →
        first ≡ second }
{}

/// The canonical list of the combinations of some rows has the same combinations, so it determines the cone.
pub fn canonical_list_generates<S: Scalar>()
    ensures { (n : ℕ) (rows others : List (List S)) → AreWide n rows →
        IsCanonical S.ring (IsCombination S.ring n rows) others → (x : List S) → IsCombination S.ring n rows x ↔
        IsCombination S.ring n others x }
{}
