// The traits of the elements of semirings.
ghost use Rattle.std.specs.Prelude.{◌≡◌, ◌≢◌, ◌+◌, ◌^◌, ◌≤◌, ◌↔◌, ℕ, true, IsTrue, Bool, unsigned_abs, length};
ghost use Rattle.trop_theory.specs.Vectors.{dot, row_size};
ghost use Rattle.trop_theory.specs.Semiring.{Semiring, SemiringLaws, Le};
ghost use Rattle.trop_theory.specs.Sizes.{most_element};
ghost use Rattle.trop_theory.specs.Numbers.{Numbering, NumberLaws, NumericLaws};

use trop_entries::Entries;

/// The elements of an idempotent semiring: `plus` picks one of its arguments, and each element other than the zero
/// has an inverse for `times`. Contracts see an element as its value, which has no bound; one that a program holds
/// has size at most 2^62. "Finite" means other than the zero. The default value, which fills places that hold no element yet, is
/// the zero. No call takes memory or refuses.
pub trait Scalar: Copy + Eq + Default {
    /// Where the entries of a row stand, up to 8 of them without memory.
    type Store: Entries<Self>;

    /// The operations on values.
    ghost ring: { Semiring Self };

    /// Which numbers its elements stand for.
    ghost numbering: { Numbering Self };

    /// Whether the order of the semiring is that of numbers reversed.
    ghost REVERSED: { Bool };

    /// Whether the order of the semiring is that of numbers reversed.
    const REVERSED: bool;

    /// The neutral element of `plus`, below every other element.
    fn zero() -> Self
        ensures { result ≡ ring.zero };

    /// The neutral element of `times`.
    fn one() -> Self
        ensures { result ≡ ring.one };

    /// An element below the one, so near that nothing lies between `delta` times an element and the element.
    fn delta() -> Self
        ensures { result ≡ ring.delta };

    /// The sum: the greater of the two in the semiring's order.
    fn plus(self, other: Self) -> Self
        ensures { result ≡ ring.plus self other };

    /// The product.
    fn times(self, other: Self) -> Self
        requires { ring.size self + ring.size other ≤ most_element }
        ensures { result ≡ ring.times self other };

    /// The element whose product with this one is the one.
    fn inverse(self) -> Self
        requires { self ≢ ring.zero }
        ensures { result ≡ ring.inverse self };

    /// Whether it is at most the other in the semiring's order, so that their sum is the other.
    fn le(self, other: Self) -> bool
        ensures { IsTrue result ↔ Le ring self other };

    /// Its absolute value as a number; 0 for the zero and for truth values.
    fn size(self) -> u64
        ensures size { result ≡ ring.size self }
        ensures bounded { result ≤ most_element };

    /// The element that stands for the number.
    fn of_number(n: i64) -> Self
        requires { unsigned_abs n ≤ most_element }
        ensures { result ≡ numbering.of n };

    /// The number that it stands for; none exactly for the zero.
    fn number(self) -> Option<i64>
        ensures { result ≡ numbering.to self };

    /// The sum of the products of coefficients and entries, the zero of none.
    fn sum_of_products(coeffs: &[Self], entries: &[Self]) -> Self
        requires lengths { length coeffs.now ≡ length entries.now }
        requires sizes { row_size ring coeffs.now + row_size ring entries.now ≤ most_element }
        ensures { result ≡ dot ring coeffs.now entries.now }
    {
        let mut sum = Self::zero();
        for i in 0..coeffs.len() {
            sum = sum.plus(coeffs[i].times(entries[i]));
        }
        sum
    }

    /// The laws of `plus`, `times`, `inverse`, `delta` and `size`.
    ghost ring_laws: { SemiringLaws ring };

    /// `==` is equality of values.
    ghost decides: { (a b : Self) → (Self.eq a b ≡ true) ↔ (a ≡ b) };

    /// The default value is the zero.
    ghost default_is_zero: { (x : Self) → Self.is_default x → x ≡ ring.zero };

    /// Just the zero has no number.
    ghost number_laws: { NumberLaws ring numbering };
}

/// A semiring whose finite elements are the whole numbers, with the ordinary sum as product.
pub trait Numeric: Scalar {
    /// The laws by which elements are numbers.
    ghost numeric_laws: { NumericLaws Self.ring Self.numbering Self.REVERSED };
}
