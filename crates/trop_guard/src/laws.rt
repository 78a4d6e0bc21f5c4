//! The law of minimal rows, as the contract of a function that does nothing. It holds for every semiring that has the
//! laws of `Scalar`.
ghost use Rattle.std.specs.Prelude.{◌≡◌, ◌↔◌, ℕ, List, All, Contains};
ghost use Rattle.trop_theory.specs.Vectors.{AreWide};
ghost use Rattle.trop_theory.specs.Normal.{IsNormal};
ghost use Rattle.trop_theory.specs.Combinations.{IsCombination};
ghost use Rattle.trop_theory.specs.Extreme.{IsType};
ghost use Rattle.trop_theory.specs.Canonical.{IsCanonical};
ghost use Rattle.trop_cones.specs.Minimal.{IsMinimalAt};

use trop_scalar::Scalar;

/// The canonical list of the combinations of rows in normal form has exactly the rows that are minimal at some
/// coordinate: where all rows are scaled to the one there, no other is below (Butkovic, Schneider, Sergeev, Generators,
/// extremals and bases of max cones, 2007).
pub fn canonical_rows_are_minimal<S: Scalar>()
    ensures { (n : ℕ) (rows others : List (List S)) → AreWide n rows → All (IsNormal S.ring) rows →
        IsCanonical S.ring (IsCombination S.ring n rows) others → (x : List S) →
        Contains others x ↔ (Contains rows x × ((t : ℕ) × IsMinimalAt S.ring rows x t)) }
{}

/// The coordinates at which a combination of the rows is minimal are its types.
pub fn minimal_coordinates_are_types<S: Scalar>()
    ensures { (n : ℕ) (rows : List (List S)) → AreWide n rows → (x : List S) (t : ℕ) → IsCombination S.ring n rows x →
        IsType S.ring (IsCombination S.ring n rows) x t ↔ IsMinimalAt S.ring rows x t }
{}
