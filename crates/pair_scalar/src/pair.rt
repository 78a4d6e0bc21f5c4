//! A fourth semiring: pairs of whole numbers in lexicographic order.
ghost use Rattle.std.specs.Prelude.{◌≡◌, ◌↔◌, ◌≤◌, ◌^◌, ◌+◌, ◌+ℤ◌, nat_abs, true, false, None, Some, IsTrue};
ghost use Rattle.std.specs.Cmp.{partial_equiv_from_equiv};
ghost use Rattle.trop_theory.specs.Sizes.{most_element};
ghost use Rattle.trop_theory.specs.OrderedGroups.{size_of};
ghost use Rattle.pair_theory.specs.Pairs.{pairs, pair_less, pair_size, pair_sum, pair_ring, pair_numbering, same_pair};
ghost use Rattle.pair_theory.proofs.PairLaws.{pair_laws, pair_number_laws, decides_pair, same_pair_is_equivalence};

use smallvec::SmallVec;
use std::marker::Model;
use trop_scalar::Scalar;

/// A pair of whole numbers, or an element below all pairs. The first numbers decide which of two pairs is the greater,
/// and where they are equal the second ones. The sum is the greater pair, the product the sum number by number.
#[derive(Clone, Copy)]
pub struct Pair {
    numbers: Option<(i64, i64)>,
}

impl Model for Pair {
    ghost use Rattle.std.specs.Prelude.{ℤ, Option, ◌≤◌, ◌^◌};
    ghost use Rattle.trop_theory.specs.OrderedGroups.{size_of};
    ghost use Rattle.pair_theory.specs.Pairs.{pairs};

    ghost Value = { Option (ℤ × ℤ) };

    ghost view = { λ a. a.numbers };

    ghost invariant = { λ a. size_of pairs a.numbers ≤ 2 ^ 62 };

    ghost inverse = { λ v. record { numbers = v } };
}

// Whether the first pair is the lesser.
fn is_less(a: (i64, i64), b: (i64, i64)) -> bool
    ensures { result ≡ pair_less a b }
{
    if a.0 < b.0 {
        true
    } else if b.0 < a.0 {
        false
    } else {
        a.1 < b.1
    }
}

// The sum of two numbers.
fn add(x: i64, y: i64) -> i64
    requires { nat_abs x + nat_abs y ≤ 2 ^ 62 }
    ensures { result ≡ x +ℤ y }
{
    x + y
}

impl Pair {
    /// The pair of these numbers.
    pub fn of(first: i32, second: i32) -> Pair
        ensures { result ≡ Some (first, second) }
    {
        Pair {
            numbers: Some((i64::from(first), i64::from(second))),
        }
    }
}

impl Default for Pair {
    ghost is_default = { λ x. x ≡ None };

    fn default() -> Pair {
        Pair { numbers: None }
    }
}

impl PartialEq for Pair {
    ghost eq = { same_pair };

    ghost laws = { partial_equiv_from_equiv same_pair_is_equivalence };

    fn eq(&self, other: &Pair) -> bool {
        match (self.numbers, other.numbers) {
            (None, None) => true,
            (None, Some(_)) => false,
            (Some(_), None) => false,
            (Some(a), Some(b)) => a.0 == b.0 && a.1 == b.1,
        }
    }
}

impl Eq for Pair {
    ghost laws = { same_pair_is_equivalence };
}

impl Scalar for Pair {
    type Store = SmallVec<Pair, 8>;

    ghost ring = { pair_ring };

    ghost numbering = { pair_numbering };

    ghost REVERSED = { false };

    const REVERSED: bool = false;

    ghost ring_laws = { pair_laws };

    ghost number_laws = { pair_number_laws };

    ghost decides = { decides_pair };

    ghost default_is_zero = { λ x e. e };

    fn zero() -> Pair {
        Pair { numbers: None }
    }

    fn one() -> Pair {
        Pair {
            numbers: Some((0, 0)),
        }
    }

    fn delta() -> Pair {
        Pair {
            numbers: Some((0, -1)),
        }
    }

    fn plus(self, other: Pair) -> Pair {
        match (self.numbers, other.numbers) {
            (None, _) => other,
            (Some(_), None) => self,
            (Some(a), Some(b)) => { if is_less(a, b) { other } else { self } }
        }
    }

    #[tactic(auto, using(pair_theory::proofs::PairLaws::size_of_sum))]
    fn times(self, other: Pair) -> Pair {
        match (self.numbers, other.numbers) {
            (None, _) => self,
            (Some(_), None) => other,
            (Some(a), Some(b)) => Pair {
                numbers: Some((add(a.0, b.0), add(a.1, b.1))),
            },
        }
    }

    fn inverse(self) -> Pair {
        match self.numbers {
            None => self,
            Some(a) => Pair {
                numbers: Some((-a.0, -a.1)),
            },
        }
    }

    #[tactic(auto, using(pair_theory::proofs::PairLaws::pair_le))]
    fn le(self, other: Pair) -> bool {
        match (self.numbers, other.numbers) {
            (None, _) => true,
            (Some(_), None) => false,
            (Some(a), Some(b)) => !is_less(b, a),
        }
    }

    fn size(self) -> u64 {
        match self.numbers {
            None => 0,
            Some(a) => a.0.unsigned_abs() + a.1.unsigned_abs(),
        }
    }

    fn of_number(n: i64) -> Pair {
        Pair {
            numbers: Some((n, 0)),
        }
    }

    fn number(self) -> Option<i64> {
        match self.numbers {
            None => None,
            Some(a) => Some(a.0),
        }
    }
}
