// Whether a mixed row is lower than another where both are scaled to the one at a coordinate, by products alone.
ghost use Rattle.std.specs.Prelude.{◌≡◌, ◌≢◌, ◌^◌, ◌<◌, ◌≤◌, ◌↔◌, ℕ, IsTrue, length};
ghost use Rattle.trop_theory.specs.Semiring.{Le};
ghost use Rattle.trop_theory.specs.Vectors.{entry, dot, joined, scaled, row_size};
ghost use Rattle.trop_theory.specs.Inequalities.{IsIn, inequality_size};
ghost use Rattle.trop_theory.specs.Steps.{mixed};
ghost use Rattle.trop_theory.specs.Residual.{Meets};
ghost use Rattle.trop_guard.specs.Fresh.{IsLower, HasLowerWith, HasLower};
ghost use Rattle.trop_guard.specs.Parts.{AreParts};
ghost use Rattle.trop_guard.specs.Pairs.{CanCompare};

use crate::parts::Parts;
use trop_row::{Ineq, Row, meets};
use trop_scalar::Scalar;

// Whether it is the zero.
pub fn is_zero<S: Scalar>(x: S) -> bool
    ensures { IsTrue result ↔ (x ≡ S.ring.zero) }
{
    x == S::zero()
}

// Entry j of left times v plus right times w.
fn mixed_entry<S: Scalar>(v: &Row<S>, left: S, w: &Row<S>, right: S, j: u32) -> S
    requires pair { CanCompare S.ring v.now left w.now right }
    requires within { j < length v.now }
    ensures value { result ≡ entry S.ring (joined S.ring (scaled S.ring left v.now) (scaled S.ring right w.now)) j }
    ensures small { S.ring.size result ≤ 2 ^ 59 }
{
    left.times(v.get(j)).plus(right.times(w.get(j)))
}

// Whether left times v plus right times w, whose entry t is `top`, is below x where both are scaled to the one at t.
fn is_under<S: Scalar>(
    v: &Row<S>,
    left: S,
    w: &Row<S>,
    right: S,
    top: S,
    x: &Row<S>,
    t: u32,
) -> bool
    requires pair { CanCompare S.ring v.now left w.now right }
    requires long { length x.now ≡ length v.now }
    requires within { t < length v.now }
    requires size { row_size S.ring x.now ≤ 2 ^ 60 }
    requires top_size { S.ring.size top ≤ 2 ^ 59 }
    ensures { IsTrue result ↔ ((j : ℕ) → j < length x.now →
        Le S.ring (S.ring.times (entry S.ring (joined S.ring (scaled S.ring left v.now) (scaled S.ring right w.now)) j)
        (entry S.ring x.now t)) (S.ring.times (entry S.ring x.now j) top)) }
{
    for j in 0..x.len() {
        let mixed = mixed_entry(v, left, w, right, j);
        if !mixed.times(x.get(t)).le(x.get(j).times(top)) {
            return false;
        }
    }
    true
}

// Whether it is above x.
fn is_over<S: Scalar>(v: &Row<S>, left: S, w: &Row<S>, right: S, top: S, x: &Row<S>, t: u32) -> bool
    requires pair { CanCompare S.ring v.now left w.now right }
    requires long { length x.now ≡ length v.now }
    requires within { t < length v.now }
    requires size { row_size S.ring x.now ≤ 2 ^ 60 }
    requires top_size { S.ring.size top ≤ 2 ^ 59 }
    ensures { IsTrue result ↔ ((j : ℕ) → j < length x.now →
        Le S.ring (S.ring.times (entry S.ring x.now j) top)
        (S.ring.times (entry S.ring (joined S.ring (scaled S.ring left v.now) (scaled S.ring right w.now)) j)
        (entry S.ring x.now t))) }
{
    for j in 0..x.len() {
        let mixed = mixed_entry(v, left, w, right, j);
        if !x.get(j).times(top).le(mixed.times(x.get(t))) {
            return false;
        }
    }
    true
}

// Whether it is lower than x at t.
fn is_lower<S: Scalar>(v: &Row<S>, left: S, w: &Row<S>, right: S, x: &Row<S>, t: u32) -> bool
    requires pair { CanCompare S.ring v.now left w.now right }
    requires long { length x.now ≡ length v.now }
    requires within { t < length v.now }
    requires finite { entry S.ring x.now t ≢ S.ring.zero }
    requires size { row_size S.ring x.now ≤ 2 ^ 60 }
    ensures { IsTrue result ↔ IsLower S.ring x.now t
        (joined S.ring (scaled S.ring left v.now) (scaled S.ring right w.now)) }
{
    let top = mixed_entry(v, left, w, right, t);
    if is_zero(top) {
        return false;
    }
    if !is_under(v, left, w, right, top, x, t) {
        return false;
    }
    if is_over(v, left, w, right, top, x, t) {
        return false;
    }
    true
}

// Whether v, whose right side is finite then, gives with w a mixed row that is lower than x at t.
fn gives_lower<S: Scalar>(
    ineq: &Ineq<S>,
    v: &Row<S>,
    right: S,
    w: &Row<S>,
    left: S,
    x: &Row<S>,
    t: u32,
) -> bool
    requires pair { CanCompare S.ring v.now left w.now right }
    requires left { left ≡ dot S.ring ineq.now.left w.now }
    requires right { right ≡ dot S.ring ineq.now.right v.now }
    requires long { length x.now ≡ length v.now }
    requires within { t < length v.now }
    requires finite { entry S.ring x.now t ≢ S.ring.zero }
    requires size { row_size S.ring x.now ≤ 2 ^ 60 }
    ensures { IsTrue result ↔ ((dot S.ring ineq.now.right v.now ≢ S.ring.zero)
        × IsLower S.ring x.now t (mixed S.ring ineq.now.left ineq.now.right v.now w.now)) }
{
    if is_zero(right) {
        return false;
    }
    is_lower(v, left, w, right, x, t)
}

// Whether some kept row gives with w, whose left sum is given, a mixed row that is lower than x at t.
fn has_lower_with<S: Scalar>(
    ineq: &Ineq<S>,
    parts: &Parts<S>,
    w: &Row<S>,
    left: S,
    x: &Row<S>,
    t: u32,
) -> bool
    requires parts { AreParts S.ring parts.now.kept.n ineq.now parts.now.kept.rows parts.now.rights.items
        parts.now.dropped.rows }
    requires sum { left ≡ dot S.ring ineq.now.left w.now }
    requires lengths { length w.now ≡ parts.now.kept.n }
    requires w_size { row_size S.ring w.now ≤ 2 ^ 57 }
    requires long { length x.now ≡ parts.now.kept.n }
    requires within { t < parts.now.kept.n }
    requires finite { entry S.ring x.now t ≢ S.ring.zero }
    requires size { row_size S.ring x.now ≤ 2 ^ 60 }
    ensures { IsTrue result ↔ HasLowerWith S.ring ineq.now parts.now.kept.rows x.now t w.now }
{
    let rows = parts.kept.as_slice();
    let rights = parts.rights.as_slice();
    for k in 0..rows.len() {
        if gives_lower(ineq, &rows[k], rights[k], w, left, x, t) {
            return true;
        }
    }
    false
}

// Whether w meets x at t, and some kept row gives with it a mixed row that is lower there.
fn meets_with_lower<S: Scalar>(
    ineq: &Ineq<S>,
    parts: &Parts<S>,
    w: &Row<S>,
    x: &Row<S>,
    t: u32,
) -> bool
    requires parts { AreParts S.ring parts.now.kept.n ineq.now parts.now.kept.rows parts.now.rights.items
        parts.now.dropped.rows }
    requires lengths { length w.now ≡ parts.now.kept.n }
    requires w_size { row_size S.ring w.now ≤ 2 ^ 57 }
    requires long { length x.now ≡ parts.now.kept.n }
    requires within { t < parts.now.kept.n }
    requires finite { entry S.ring x.now t ≢ S.ring.zero }
    requires size { row_size S.ring x.now ≤ 2 ^ 60 }
    ensures { IsTrue result ↔ (Meets S.ring x.now t w.now
        × HasLowerWith S.ring ineq.now parts.now.kept.rows x.now t w.now) }
{
    if !meets(w, x, t) {
        return false;
    }
    has_lower_with(ineq, parts, w, w.dot(ineq.left()), x, t)
}

// Whether some kept row and some dropped row that meets x at t give a mixed row that is lower than x at t.
pub fn has_lower<S: Scalar>(ineq: &Ineq<S>, parts: &Parts<S>, x: &Row<S>, t: u32) -> bool
    requires parts { AreParts S.ring parts.now.kept.n ineq.now parts.now.kept.rows parts.now.rights.items
        parts.now.dropped.rows }
    requires long { length x.now ≡ parts.now.kept.n }
    requires within { t < parts.now.kept.n }
    requires finite { entry S.ring x.now t ≢ S.ring.zero }
    requires size { row_size S.ring x.now ≤ 2 ^ 60 }
    ensures { IsTrue result ↔ HasLower S.ring ineq.now parts.now.kept.rows parts.now.dropped.rows x.now t }
{
    for w in parts.dropped.as_slice() {
        if meets_with_lower(ineq, parts, w, x, t) {
            return true;
        }
    }
    false
}
