// Sums of products, eight entries at a time. Each semiring of numbers holds its elements as those of the max-plus
// semiring, as words, and these are summed here.
ghost use Rattle.std.specs.Prelude.{◌≡◌, ◌+◌, ◌*◌, ◌≤◌, ℤ, Option, length, map, drop};
ghost use Rattle.std.specs.Simd.Lanes.{chunk};
ghost use Rattle.trop_theory.specs.Sizes.{most_element};
ghost use Rattle.trop_theory.specs.Vectors.{dot, joined, row_size};
ghost use Rattle.trop_theory.specs.MaxPlus.{max_plus, sum_of, max_ring, magnitude};
ghost use Rattle.trop_scalar.specs.Sums.{total, products};
ghost use Rattle.trop_scalar.specs.Words.{word_value};

use std::simd::prelude::*;

/// An element that is held as the word of an element of the max-plus semiring.
pub(crate) trait Worded: Copy {
    /// The element of the max-plus semiring that it is held as.
    ghost held: { Self → Option ℤ };

    /// The word.
    fn word(self) -> i64
        ensures { word_value result ≡ held self };
}

// The words of eight entries.
fn lanes_at<S: Worded>(xs: &[S], at: usize) -> i64x8
    requires { at + 8 ≤ length xs.now }
    ensures length { length result ≡ 8 }
    ensures values { map word_value result ≡ chunk at 8 (map S.held xs.now) }
{
    i64x8::from_array([
        xs[at].word(),
        xs[at + 1].word(),
        xs[at + 2].word(),
        xs[at + 3].word(),
        xs[at + 4].word(),
        xs[at + 5].word(),
        xs[at + 6].word(),
        xs[at + 7].word(),
    ])
}

// The sums of `best` and the products of the lanes. A sum that wraps has a factor that is the zero, and is not taken.
fn raised(best: i64x8, x: i64x8, y: i64x8) -> i64x8
    requires lengths { (length best ≡ 8) × (length x ≡ 8) × (length y ≡ 8) }
    requires best_size { row_size max_ring (map word_value best) ≤ most_element }
    requires sizes { row_size max_ring (map word_value x) + row_size max_ring (map word_value y) ≤ most_element }
    ensures length { length result ≡ 8 }
    ensures lanes { map word_value result ≡ joined max_ring (map word_value best)
        (products max_ring (map word_value x) (map word_value y)) }
{
    let least = i64x8::splat(i64::MIN);
    let sum = x + y;
    let rises = x.simd_ne(least) & y.simd_ne(least) & best.simd_lt(sum);
    rises.select(sum, best)
}

// The sum of two words.
fn greater(a: i64, b: i64) -> i64
    requires size_left { magnitude (word_value a) ≤ most_element }
    requires size_right { magnitude (word_value b) ≤ most_element }
    ensures sum { word_value result ≡ max_plus (word_value a) (word_value b) }
    ensures size { magnitude (word_value result) ≤ most_element }
{
    if a < b { b } else { a }
}

// The sum of the lanes.
fn sum_of_lanes(lanes: i64x8) -> i64
    requires length { length lanes ≡ 8 }
    requires size { row_size max_ring (map word_value lanes) ≤ most_element }
    ensures sum { word_value result ≡ total max_ring (map word_value lanes) }
    ensures size { magnitude (word_value result) ≤ most_element }
{
    let words = lanes.to_array();
    let mut sum = i64::MIN;
    for i in 0..words.len() {
        sum = greater(sum, words[i]);
    }
    sum
}

// The sum of the first products, eight of them for each of `count` steps.
fn sum_of_first<S: Worded>(coeffs: &[S], entries: &[S], count: usize) -> i64
    requires lengths { length coeffs.now ≡ length entries.now }
    requires within { count * 8 ≤ length coeffs.now }
    requires sizes { row_size max_ring (map S.held coeffs.now) + row_size max_ring (map S.held entries.now) ≤
        most_element }
    ensures sum { max_plus (word_value result) (dot max_ring (drop (count * 8) (map S.held coeffs.now))
        (drop (count * 8) (map S.held entries.now))) ≡
        dot max_ring (map S.held coeffs.now) (map S.held entries.now) }
    ensures size { magnitude (word_value result) ≤ most_element }
{
    let mut best = i64x8::splat(i64::MIN);
    for k in 0..count {
        best = raised(best, lanes_at(coeffs, k * 8), lanes_at(entries, k * 8));
    }
    sum_of_lanes(best)
}

// The sum of a word and the product of two others.
fn raised_by(best: i64, x: i64, y: i64) -> i64
    requires best_size { magnitude (word_value best) ≤ most_element }
    requires sizes { magnitude (word_value x) + magnitude (word_value y) ≤ most_element }
    ensures sum { word_value result ≡ max_plus (word_value best) (sum_of (word_value x) (word_value y)) }
    ensures size { magnitude (word_value result) ≤ most_element }
{
    if x == i64::MIN {
        best
    } else if y == i64::MIN {
        best
    } else {
        greater(best, x + y)
    }
}

// The sum of the products from a place on, added to that of those before.
fn sum_of_rest<S: Worded>(coeffs: &[S], entries: &[S], from: usize, before: i64) -> i64
    requires lengths { length coeffs.now ≡ length entries.now }
    requires within { from ≤ length coeffs.now }
    requires sizes { row_size max_ring (map S.held coeffs.now) + row_size max_ring (map S.held entries.now) ≤
        most_element }
    requires before { max_plus (word_value before) (dot max_ring (drop from (map S.held coeffs.now))
        (drop from (map S.held entries.now))) ≡ dot max_ring (map S.held coeffs.now) (map S.held entries.now) }
    requires before_size { magnitude (word_value before) ≤ most_element }
    ensures sum { word_value result ≡ dot max_ring (map S.held coeffs.now) (map S.held entries.now) }
    ensures size { magnitude (word_value result) ≤ most_element }
{
    let mut sum = before;
    for i in from..coeffs.len() {
        sum = raised_by(sum, coeffs[i].word(), entries[i].word());
    }
    sum
}

/// The word of the sum of the products of coefficients and entries, by lanes while eight are left.
pub(crate) fn sum_by_lanes<S: Worded>(coeffs: &[S], entries: &[S]) -> i64
    requires lengths { length coeffs.now ≡ length entries.now }
    requires sizes { row_size max_ring (map S.held coeffs.now) + row_size max_ring (map S.held entries.now) ≤
        most_element }
    ensures sum { word_value result ≡ dot max_ring (map S.held coeffs.now) (map S.held entries.now) }
    ensures size { magnitude (word_value result) ≤ most_element }
{
    let count = coeffs.len() / 8;
    let first = sum_of_first(coeffs, entries, count);
    sum_of_rest(coeffs, entries, count * 8, first)
}
