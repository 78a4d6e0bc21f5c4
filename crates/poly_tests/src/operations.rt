//! Operations on cones with few rows, worked out by hand.
ghost use Rattle.std.specs.Prelude.{◌≡◌, ◌≤◌};
ghost use Rattle.trop_theory.specs.Vectors.{rows_size};

use crate::cones::{cone, has_rows};
use Call::{Assign, Copy, Forget, Guard, Join, Meet};
use row_examples::{inequality_of, row_of};
use std::alloc::Global;
use std::test::Fail;
use trop_poly::Poly;
use trop_scalar::{Flag, MaxInt, MinInt, Scalar};

/// An operation on a cone.
enum Call {
    /// The cone itself.
    Copy,
    /// The join with the cone of these rows.
    Join(&'static str),
    /// The meet with the cone of these rows.
    Meet(&'static str),
    /// The projection along a coordinate.
    Forget(u32),
    /// The assignment to a coordinate, of a coordinate, and a number.
    Assign(u32, u32, &'static str),
    /// The part where this inequality is true.
    Guard(&'static str),
}

/// What a case shows, the rows of a cone, a call on it, and the rows of the answer.
type Case = (&'static str, &'static str, Call, &'static str);

const IN_MAX: [Case; 20] = [
    (
        "the point in the middle goes",
        "0 0 . ., 0 1 . ., 0 2 . .",
        Copy,
        "0 0 . ., 0 2 . .",
    ),
    (
        "two points joined",
        "0 0 . .",
        Join("0 2 . ."),
        "0 0 . ., 0 2 . .",
    ),
    (
        "a join that adds nothing",
        "0 0 0 ., 0 2 2 .",
        Join("0 1 1 ."),
        "0 0 0 ., 0 2 2 .",
    ),
    (
        "nothing joined with a row, which is scaled",
        ". . . .",
        Join("1 2 3 4"),
        "0 1 2 3",
    ),
    (
        "segments that overlap",
        "0 0 . ., 0 2 . .",
        Meet("0 1 . ., 0 5 . ."),
        "0 1 . ., 0 2 . .",
    ),
    ("points apart", "0 0 . .", Meet("0 1 . ."), ""),
    (
        "x at most y, and y at most x",
        ". . 0 ., . 0 0 ., 0 . . .",
        Meet(". 0 . ., . 0 0 ., 0 . . ."),
        ". 0 0 ., 0 . . .",
    ),
    ("a meet with nothing", "0 2 3 .", Meet(". . . ."), ""),
    (
        "a point forgets x",
        "0 2 3 .",
        Forget(1),
        ". 0 . ., 0 . 3 .",
    ),
    ("nothing forgets x", ". . . .", Forget(1), ". 0 . ."),
    (
        "points that differ in x alone",
        "0 0 1 ., 0 5 1 .",
        Forget(1),
        ". 0 . ., 0 . 1 .",
    ),
    ("x becomes y and 1", "0 2 3 .", Assign(1, 2, "1"), "0 4 3 ."),
    ("x becomes 5", "0 . . .", Assign(1, 0, "5"), "0 5 . ."),
    (
        "x becomes x less 3",
        "0 2 . ., 0 4 . .",
        Assign(1, 1, "-3"),
        "0 -1 . ., 0 1 . .",
    ),
    (
        "y becomes the zero",
        "0 2 3 ., 0 1 7 .",
        Assign(2, 0, "."),
        "0 1 . ., 0 2 . .",
    ),
    (
        "a segment with x at most 1",
        "0 0 . ., 0 2 . .",
        Guard(". 0 . . < 1 . . ."),
        "0 0 . ., 0 1 . .",
    ),
    ("a point above 1", "0 2 . .", Guard(". 0 . . < 1 . . ."), ""),
    (
        "everything with x at most y",
        "0 . . ., . 0 . ., . . 0 .",
        Guard(". 0 . . < . . 0 ."),
        ". . 0 ., . 0 0 ., 0 . . .",
    ),
    (
        "everything with x and y at most 3",
        "0 . . ., . 0 . ., . . 0 .",
        Guard(". 0 0 . < 3 . . ."),
        "0 . . ., 0 . 3 ., 0 3 . .",
    ),
    (
        "no coefficient at all",
        "0 2 . .",
        Guard(". . . . < . . . ."),
        "0 2 . .",
    ),
];

// The lesser number is the greater element.
const IN_MIN: [Case; 12] = [
    (
        "the point in the middle goes",
        "0 0 . ., 0 1 . ., 0 2 . .",
        Copy,
        "0 2 . ., 0 0 . .",
    ),
    (
        "two points joined",
        "0 0 . .",
        Join("0 2 . ."),
        "0 2 . ., 0 0 . .",
    ),
    (
        "segments that overlap",
        "0 0 . ., 0 2 . .",
        Meet("0 1 . ., 0 5 . ."),
        "0 2 . ., 0 1 . .",
    ),
    ("points apart", "0 0 . .", Meet("0 1 . ."), ""),
    (
        "x at least y, and y at least x",
        ". . 0 ., . 0 0 ., 0 . . .",
        Meet(". 0 . ., . 0 0 ., 0 . . ."),
        ". 0 0 ., 0 . . .",
    ),
    (
        "a point forgets x",
        "0 2 3 .",
        Forget(1),
        ". 0 . ., 0 . 3 .",
    ),
    ("nothing forgets z", ". . . .", Forget(3), ". . . 0"),
    ("x becomes y and 1", "0 2 3 .", Assign(1, 2, "1"), "0 4 3 ."),
    (
        "x becomes x less 3",
        "0 2 . ., 0 4 . .",
        Assign(1, 1, "-3"),
        "0 1 . ., 0 -1 . .",
    ),
    (
        "a segment with x at least 1",
        "0 0 . ., 0 2 . .",
        Guard(". 0 . . < 1 . . ."),
        "0 2 . ., 0 1 . .",
    ),
    ("a point below 1", "0 0 . .", Guard(". 0 . . < 1 . . ."), ""),
    (
        "everything with x and y at least 3",
        "0 . . ., . 0 . ., . . 0 .",
        Guard(". 0 0 . < 3 . . ."),
        "0 . . ., 0 . 3 ., 0 3 . .",
    ),
];

// 0 stands for true, each number does.
const IN_TRUTH_VALUES: [Case; 12] = [
    (
        "numbers all stand for true",
        "0 0 . ., 0 5 . ., 0 . . .",
        Copy,
        "0 . . ., 0 0 . .",
    ),
    (
        "a sum of two goes",
        ". 0 . .",
        Join(". . 0 ., . 0 0 ."),
        ". . 0 ., . 0 . .",
    ),
    (
        "a meet in the sum of both",
        ". 0 . ., . . 0 .",
        Meet(". 0 0 ."),
        ". 0 0 .",
    ),
    ("points apart", "0 0 . .", Meet("0 . 0 ."), ""),
    (
        "x implies y, and y implies x",
        ". . 0 ., . 0 0 ., 0 . . .",
        Meet(". 0 . ., . 0 0 ., 0 . . ."),
        ". 0 0 ., 0 . . .",
    ),
    (
        "a point forgets x",
        "0 0 0 .",
        Forget(1),
        ". 0 . ., 0 . 0 .",
    ),
    ("nothing forgets y", ". . . .", Forget(2), ". . 0 ."),
    ("x becomes y", "0 . 0 .", Assign(1, 2, "0"), "0 0 0 ."),
    (
        "x becomes y, which is false",
        "0 0 . .",
        Assign(1, 2, "0"),
        "0 . . .",
    ),
    (
        "everything where x implies y",
        "0 . . ., . 0 . ., . . 0 .",
        Guard(". 0 . . < . . 0 ."),
        ". . 0 ., . 0 0 ., 0 . . .",
    ),
    (
        "a point where x does not imply y",
        "0 0 . .",
        Guard(". 0 . . < . . 0 ."),
        "",
    ),
    (
        "everything where x and y imply the constant",
        "0 . . ., . 0 . ., . . 0 .",
        Guard(". 0 0 . < 0 . . ."),
        "0 . . ., 0 . 0 ., 0 0 . .",
    ),
];

fn joined<S: Scalar>(alloc: Global, operand: &Poly<S>, rows: &str) -> Result<Poly<S>, Fail>
    requires width { operand.now.n ≡ 4 }
    requires size { rows_size S.ring operand.now.rows ≤ 131070 }
{
    let other = cone(alloc, rows)?;
    Ok(operand.join(alloc, &other)?)
}

fn met<S: Scalar>(alloc: Global, operand: &Poly<S>, rows: &str) -> Result<Poly<S>, Fail>
    requires width { operand.now.n ≡ 4 }
    requires size { rows_size S.ring operand.now.rows ≤ 131070 }
{
    let other = cone(alloc, rows)?;
    Ok(operand.meet(alloc, &other)?)
}

fn forgotten<S: Scalar>(alloc: Global, operand: &Poly<S>, i: u32) -> Result<Poly<S>, Fail>
    requires width { operand.now.n ≡ 4 }
    requires size { rows_size S.ring operand.now.rows ≤ 131070 }
{
    Ok(operand.forget(alloc, i % 4)?)
}

fn assigned<S: Scalar>(
    alloc: Global,
    operand: &Poly<S>,
    i: u32,
    from: u32,
    number: &str,
) -> Result<Poly<S>, Fail>
    requires width { operand.now.n ≡ 4 }
    requires size { rows_size S.ring operand.now.rows ≤ 131070 }
{
    let c: S = row_of(alloc, 1, number)?.get(0);
    if c.size() > 65_535 {
        return Err("a large number")?;
    }
    Ok(operand.assign(alloc, i % 4, from % 4, c)?)
}

fn guarded<S: Scalar>(alloc: Global, operand: &Poly<S>, text: &str) -> Result<Poly<S>, Fail>
    requires width { operand.now.n ≡ 4 }
    requires size { rows_size S.ring operand.now.rows ≤ 131070 }
{
    let ineq = inequality_of(alloc, 4, text)?;
    Ok(operand.guard(alloc, &ineq)?)
}

fn called<S: Scalar>(alloc: Global, operand: &Poly<S>, call: &Call) -> Result<Poly<S>, Fail>
    requires width { operand.now.n ≡ 4 }
    requires size { rows_size S.ring operand.now.rows ≤ 131070 }
{
    match call {
        Copy => Ok(operand.copy(alloc)?),
        Join(rows) => joined(alloc, operand, rows),
        Meet(rows) => met(alloc, operand, rows),
        Forget(i) => forgotten(alloc, operand, *i),
        Assign(i, from, number) => assigned(alloc, operand, *i, *from, number),
        Guard(ineq) => guarded(alloc, operand, ineq),
    }
}

fn answers<S: Scalar>(alloc: Global, case: &Case) -> Result<(), Fail> {
    let (why, rows, call, wanted) = case;
    let operand = cone::<S>(alloc, rows)?;
    let got = called(alloc, &operand, call)?;
    has_rows(alloc, why, wanted, &got)
}

#[test]
fn operations_in_max(rt: HostRuntime) -> Result<(), Fail> {
    for case in &IN_MAX {
        answers::<MaxInt>(rt.alloc(), case)?;
    }
    Ok(())
}

#[test]
fn operations_in_min(rt: HostRuntime) -> Result<(), Fail> {
    for case in &IN_MIN {
        answers::<MinInt>(rt.alloc(), case)?;
    }
    Ok(())
}

#[test]
fn operations_in_truth_values(rt: HostRuntime) -> Result<(), Fail> {
    for case in &IN_TRUTH_VALUES {
        answers::<Flag>(rt.alloc(), case)?;
    }
    Ok(())
}
