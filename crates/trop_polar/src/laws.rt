//! Laws of polars that no code needs, each the contract of a function that does nothing. They hold for every semiring
//! that has the laws of `Scalar`.
ghost use Rattle.std.specs.Prelude.{◌≡◌, ◌↔◌, ℕ, List};
ghost use Rattle.trop_theory.specs.Vectors.{AreWide};
ghost use Rattle.trop_theory.specs.Inequalities.{Inequality, Solves};
ghost use Rattle.trop_theory.specs.Combinations.{IsCombination};
ghost use Rattle.trop_theory.specs.Canonical.{IsCanonical};
ghost use Rattle.trop_duality.specs.External.{IsExternal};

use trop_scalar::Scalar;

/// The solutions of the external list of a generated cone are exactly the cone (Gaubert, Katz, The tropical analogue of
/// polar cones, 2009).
pub fn bipolar<S: Scalar>()
    ensures { (n : ℕ) (rows : List (List S)) (system : List (Inequality S)) → AreWide n rows → IsExternal S.ring n (IsCombination S.ring n rows) system → (x : List S) → Solves S.ring n system x ↔ IsCombination S.ring n rows x }
{}

/// A generated cone has an external list.
pub fn external_list_exists<S: Scalar>()
    ensures { (n : ℕ) (rows : List (List S)) → AreWide n rows → (system : List (Inequality S)) × IsExternal S.ring n (IsCombination S.ring n rows) system }
{}

/// Lists of rows with the same combinations have the same external list.
pub fn external_list_is_unique<S: Scalar>()
    ensures { (n : ℕ) (rows others : List (List S)) (first second : List (Inequality S)) → ((x : List S) → IsCombination S.ring n rows x ↔ IsCombination S.ring n others x) → IsExternal S.ring n (IsCombination S.ring n rows) first → IsExternal S.ring n (IsCombination S.ring n others) second → first ≡ second }
{}

/// The canonical list of the solutions of an external list is the canonical list of its cone: the way from rows to
/// inequalities and back.
pub fn canonical_list_of_external_list<S: Scalar>()
    ensures { (n : ℕ) (rows others : List (List S)) (system : List (Inequality S)) → AreWide n rows → IsExternal S.ring n (IsCombination S.ring n rows) system → IsCanonical S.ring (Solves S.ring n system) others ↔ IsCanonical S.ring (IsCombination S.ring n rows) others }
{}
