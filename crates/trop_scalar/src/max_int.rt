// Whole numbers with the maximum as sum.
ghost use Rattle.std.specs.Prelude.{◌≡◌, ◌↔◌, ◌≤◌, ◌^◌, ◌+◌, true, false, None, Some, pos, IsTrue, IfSome, unsigned_abs};
ghost use Rattle.trop_theory.specs.Sizes.{most_element};
ghost use Rattle.trop_scalar.specs.Words.{word_value};
ghost use Rattle.trop_theory.specs.MaxPlus.{max_numbering, max_ring, magnitude, same_element};
ghost use Rattle.std.specs.Cmp.{partial_equiv_from_equiv};
ghost use Rattle.trop_theory.proofs.MaxPlusLaws.{max_number_laws, max_numeric_laws, max_laws, decides_same, same_is_equivalence};

use crate::lanes::{Worded, sum_by_lanes};
use crate::{Numeric, Scalar};
use smallvec::SmallVec;
use std::marker::Model;

/// An element of the max-plus semiring: a whole number, or `-oo` below all of them, with the maximum as sum and
/// the ordinary sum as product. It is held as one signed word, whose least value stands for `-oo`.
#[derive(Clone, Copy)]
pub struct MaxInt {
    word: i64,
}

impl Model for MaxInt {
    ghost use Rattle.std.specs.Prelude.{ℤ, Option, ◌≤◌, ◌^◌};

    ghost Value = { Option ℤ };

    ghost use Rattle.trop_theory.specs.MaxPlus.{magnitude};
    ghost use Rattle.trop_scalar.specs.Words.{word_value, word_of, word_of-word_value};
    ghost use Rattle.std.proofs.Common.{ap};
    ghost use Rattle.trop_scalar.specs.declared.max_int.MaxInt.TheInside.{Inside};

    ghost view = { λ a. word_value a.word };

    ghost invariant = { λ a. magnitude (word_value a.word) ≤ 2 ^ 62 };

    ghost inverse = { λ v. record { word = word_of v } };

    ghost inverse_ok = { λ a h. let wrap : ℤ → Inside = λ w. record { word = w } in ap wrap (word_of-word_value a.word) };
}

impl MaxInt {
    /// The element that is this number.
    pub fn of(n: i64) -> MaxInt
        requires { magnitude (Some n) ≤ most_element }
        ensures { result ≡ Some n }
    {
        MaxInt { word: n }
    }

    // The element that is held as the word.
    pub(crate) fn of_word(word: i64) -> MaxInt
        requires { magnitude (word_value word) ≤ most_element }
        ensures { result ≡ word_value word }
    {
        MaxInt { word }
    }

    // The number, which is at most 2^62 in size; none for the zero.
    pub(crate) fn finite(self) -> Option<i64>
        ensures value { result ≡ self }
        ensures bounded { IfSome result (λ n. unsigned_abs n ≤ most_element) }
    {
        if self.word == i64::MIN {
            None
        } else {
            Some(self.word)
        }
    }
}

impl Default for MaxInt {
    ghost is_default = { λ x. x ≡ None };

    fn default() -> MaxInt {
        MaxInt { word: i64::MIN }
    }
}

impl PartialEq for MaxInt {
    ghost eq = { same_element };

    ghost laws = { partial_equiv_from_equiv same_is_equivalence };

    fn eq(&self, other: &MaxInt) -> bool {
        self.word == other.word
    }
}

impl Eq for MaxInt {
    ghost laws = { same_is_equivalence };
}

impl Scalar for MaxInt {
    type Store = SmallVec<MaxInt, 8>;

    ghost ring = { max_ring };

    ghost numbering = { max_numbering };

    ghost REVERSED = { false };

    const REVERSED: bool = false;

    ghost number_laws = { max_number_laws };

    ghost ring_laws = { max_laws };

    ghost decides = { decides_same };

    ghost default_is_zero = { λ x e. e };

    fn zero() -> MaxInt {
        MaxInt { word: i64::MIN }
    }

    fn one() -> MaxInt {
        MaxInt { word: 0 }
    }

    fn delta() -> MaxInt {
        MaxInt { word: -1 }
    }

    fn plus(self, other: MaxInt) -> MaxInt {
        if self.word < other.word { other } else { self }
    }

    fn times(self, other: MaxInt) -> MaxInt {
        if self.word == i64::MIN || other.word == i64::MIN {
            MaxInt { word: i64::MIN }
        } else {
            MaxInt {
                word: self.word + other.word,
            }
        }
    }

    fn inverse(self) -> MaxInt {
        if self.word == i64::MIN {
            self
        } else {
            MaxInt { word: -self.word }
        }
    }

    fn le(self, other: MaxInt) -> bool {
        self.word <= other.word
    }

    fn size(self) -> u64 {
        if self.word == i64::MIN {
            0
        } else {
            self.word.unsigned_abs()
        }
    }

    fn of_number(n: i64) -> MaxInt {
        MaxInt { word: n }
    }

    fn number(self) -> Option<i64> {
        self.finite()
    }

    fn sum_of_products(coeffs: &[MaxInt], entries: &[MaxInt]) -> MaxInt {
        MaxInt {
            word: sum_by_lanes(coeffs, entries),
        }
    }
}

impl Worded for MaxInt {
    ghost held = { λ a. a };

    fn word(self) -> i64 {
        self.word
    }
}

impl Numeric for MaxInt {
    ghost numeric_laws = { max_numeric_laws };
}
