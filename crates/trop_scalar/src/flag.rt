// Truth values.
ghost use Rattle.std.specs.Prelude.{◌≡◌, ◌↔◌, true, false, IsTrue};
ghost use Rattle.trop_theory.specs.TruthValues.{truth_ring, truth_numbering};
ghost use Rattle.trop_theory.proofs.TruthValueLaws.{truth_laws, truth_number_laws, both_alike, true_false, false_true};

use crate::Scalar;
use smallvec::SmallVec;
use std::marker::Model;

/// A truth value: an element of the Boolean semiring, with "or" and "and" as its sum and product.
#[derive(Clone, Copy, PartialEq, Eq)]
pub struct Flag {
    set: bool,
}

impl Model for Flag {
    ghost use Rattle.std.specs.Prelude.{Bool};

    ghost Value = { Bool };

    ghost view = { λ a. a.set };

    ghost inverse = { λ v. record { set = v } };
}

impl Flag {
    /// The element that is this truth value.
    pub fn of(set: bool) -> Flag
        ensures { result ≡ set }
    {
        Flag { set }
    }

    /// The truth value.
    pub fn is_set(self) -> bool
        ensures { result ≡ self }
    {
        self.set
    }
}

impl Default for Flag {
    ghost is_default = { λ x. x ≡ false };

    fn default() -> Flag {
        Flag { set: false }
    }
}

impl Scalar for Flag {
    type Store = SmallVec<Flag, 8>;

    ghost ring = { truth_ring };

    ghost numbering = { truth_numbering };

    ghost REVERSED = { false };

    const REVERSED: bool = false;

    ghost ring_laws = { truth_laws };

    ghost number_laws = { truth_number_laws };

    ghost decides = { elim [ true ↦ elim [ true ↦ both_alike true | false ↦ true_false ] | false ↦ elim [ true ↦ false_true | false ↦ both_alike false ] ] };

    ghost default_is_zero = { λ x e. e };

    fn zero() -> Flag {
        Flag { set: false }
    }

    fn one() -> Flag {
        Flag { set: true }
    }

    fn delta() -> Flag {
        Flag { set: false }
    }

    fn plus(self, other: Flag) -> Flag {
        Flag {
            set: self.set || other.set,
        }
    }

    fn times(self, other: Flag) -> Flag {
        Flag {
            set: self.set && other.set,
        }
    }

    fn inverse(self) -> Flag {
        self
    }

    fn le(self, other: Flag) -> bool {
        !self.set || other.set
    }

    fn size(self) -> u64 {
        0
    }

    fn of_number(_: i64) -> Flag {
        Flag { set: true }
    }

    fn number(self) -> Option<i64> {
        if self.set { Some(0) } else { None }
    }
}
