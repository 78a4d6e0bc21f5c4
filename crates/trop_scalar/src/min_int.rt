// Whole numbers with the minimum as sum.
ghost use Rattle.std.specs.Prelude.{◌≡◌, ◌↔◌, ◌≤◌, ◌^◌, ◌+◌, true, false, None, Some, pos, IsTrue};
ghost use Rattle.std.specs.Cmp.{partial_equiv_from_equiv};
ghost use Rattle.trop_scalar.specs.MaxPlus.{max_numbering, magnitude, opposite, same_element};
ghost use Rattle.trop_scalar.specs.MinPlus.{min_ring};
ghost use Rattle.trop_theory.specs.Sizes.{most_element};
ghost use Rattle.trop_theory.proofs.MaxPlusLaws.{decides_same, same_is_equivalence};
ghost use Rattle.trop_theory.proofs.MinPlusLaws.{min_number_laws, min_numeric_laws, min_laws};

use crate::lanes::{Worded, sum_by_lanes};
use crate::{MaxInt, Numeric, Scalar};
use smallvec::SmallVec;
use std::marker::Model;

/// An element of the min-plus semiring: a whole number, or `oo` above all of them, with the minimum as sum and
/// the ordinary sum as product. It is held as its opposite, an element of the max-plus semiring, whose sums, products and
/// order are the opposites of its own.
#[derive(Clone, Copy)]
pub struct MinInt {
    mirrored: MaxInt,
}

impl Model for MinInt {
    ghost use Rattle.std.specs.Prelude.{ℤ, Option};
    ghost use Rattle.std.proofs.Common.{ap};
    ghost use Rattle.trop_scalar.specs.MaxPlus.{opposite};
    ghost use Rattle.trop_theory.proofs.MinPlusLaws.{opposite-opposite};
    ghost use Rattle.trop_scalar.specs.declared.min_int.MinInt.TheInside.{Inside};

    ghost Value = { Option ℤ };

    ghost view = { λ a. opposite a.mirrored };

    ghost inverse = { λ v. record { mirrored = opposite v } };

    ghost inverse_ok = { λ a h. let wrap : Option ℤ → Inside = λ w. record { mirrored = w } in ap wrap (opposite-opposite a.mirrored) };
}

impl MinInt {
    /// The element that is this number.
    pub fn of(n: i64) -> MinInt
        requires { magnitude (Some n) ≤ most_element }
        ensures { result ≡ Some n }
    {
        MinInt {
            mirrored: MaxInt::of(-n),
        }
    }
}

impl Default for MinInt {
    ghost is_default = { λ x. x ≡ None };

    fn default() -> MinInt {
        MinInt {
            mirrored: MaxInt::zero(),
        }
    }
}

impl PartialEq for MinInt {
    ghost eq = { same_element };

    ghost laws = { partial_equiv_from_equiv same_is_equivalence };

    fn eq(&self, other: &MinInt) -> bool {
        self.mirrored == other.mirrored
    }
}

impl Eq for MinInt {
    ghost laws = { same_is_equivalence };
}

impl Scalar for MinInt {
    type Store = SmallVec<MinInt, 8>;

    ghost ring = { min_ring };

    ghost numbering = { max_numbering };

    ghost REVERSED = { true };

    const REVERSED: bool = true;

    ghost number_laws = { min_number_laws };

    ghost ring_laws = { min_laws };

    ghost decides = { decides_same };

    ghost default_is_zero = { λ x e. e };

    fn zero() -> MinInt {
        MinInt {
            mirrored: MaxInt::zero(),
        }
    }

    fn one() -> MinInt {
        MinInt {
            mirrored: MaxInt::one(),
        }
    }

    fn delta() -> MinInt {
        MinInt {
            mirrored: MaxInt::delta(),
        }
    }

    fn plus(self, other: MinInt) -> MinInt {
        MinInt {
            mirrored: self.mirrored.plus(other.mirrored),
        }
    }

    fn times(self, other: MinInt) -> MinInt {
        MinInt {
            mirrored: self.mirrored.times(other.mirrored),
        }
    }

    fn inverse(self) -> MinInt {
        MinInt {
            mirrored: self.mirrored.inverse(),
        }
    }

    fn le(self, other: MinInt) -> bool {
        self.mirrored.le(other.mirrored)
    }

    fn size(self) -> u64 {
        self.mirrored.size()
    }

    fn of_number(n: i64) -> MinInt {
        MinInt {
            mirrored: MaxInt::of_number(-n),
        }
    }

    fn number(self) -> Option<i64> {
        match self.mirrored.finite() {
            None => None,
            Some(n) => Some(-n),
        }
    }

    fn sum_of_products(coeffs: &[MinInt], entries: &[MinInt]) -> MinInt {
        MinInt {
            mirrored: MaxInt::of_word(sum_by_lanes(coeffs, entries)),
        }
    }
}

impl Worded for MinInt {
    ghost held = { opposite };

    fn word(self) -> i64 {
        self.mirrored.word()
    }
}

impl Numeric for MinInt {
    ghost numeric_laws = { min_numeric_laws };
}
