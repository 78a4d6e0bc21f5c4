//! Worked rows of the plane, where coordinate 0 is that of constants and coordinate 1 is x, in each semiring.
ghost use Rattle.std.specs.Prelude.{◌≡◌, ◌∷◌, [], IfOk};

use crate::{inequality_of, laws, polar_system, separate};
use std::alloc::{AllocError, Global};
use std::test::Fail;
use trop_row::{Gens, Ineq, Row};
use trop_scalar::{Flag, MaxInt, MinInt, Scalar};

fn pair<S: Scalar>(alloc: Global, a: S, b: S) -> Result<Row<S>, AllocError>
    ensures { IfOk result (λ row. row ≡ a ∷ b ∷ []) }
{
    let mut entries = Vec::new(alloc);
    entries.push(a)?;
    entries.push(b)?;
    Row::from_entries(alloc, entries.as_slice())
}

fn one_row<S: Scalar>(alloc: Global, a: S, b: S) -> Result<Gens<S>, AllocError>
    ensures width { IfOk result (λ gens. gens.n ≡ 2) }
    ensures rows { IfOk result (λ gens. gens.rows ≡ (a ∷ b ∷ []) ∷ []) }
{
    let mut gens = Gens::new(alloc, 2);
    gens.push(pair(alloc, a, b)?)?;
    Ok(gens)
}

// The coefficients of the left side and then those of the right, as numbers; the zero has none.
fn numbers<S: Scalar>(alloc: Global, ineq: &Ineq<S>) -> Result<Vec<Option<i64>>, AllocError> {
    let mut out = Vec::new(alloc);
    for c in ineq.left().as_slice() {
        out.push(c.number())?;
    }
    for c in ineq.right().as_slice() {
        out.push(c.number())?;
    }
    Ok(out)
}

// The same of an inequality that may be missing; none has no coefficient.
fn numbers_of<S: Scalar>(
    alloc: Global,
    found: Option<Ineq<S>>,
) -> Result<Vec<Option<i64>>, AllocError> {
    match found {
        Some(ineq) => numbers(alloc, &ineq),
        None => Ok(Vec::new(alloc)),
    }
}

// The point 2 against the point 3: x is at most 2 there. Mirrored in min; in truth values x is false.
#[test]
fn point_is_separated(rt: HostRuntime) -> Result<(), Fail> {
    let alloc = rt.alloc();
    let (zero, two, three) = (MaxInt::of(0), MaxInt::of(2), MaxInt::of(3));
    let gens = one_row(alloc, zero, two)?;
    let max = numbers_of(alloc, separate(alloc, &gens, &pair(alloc, zero, three)?)?)?;
    assert_eq!(rt; max.as_slice(), [None, Some(0), Some(2), None].as_slice());
    let itself = numbers_of(alloc, separate(alloc, &gens, &pair(alloc, zero, two)?)?)?;
    assert_eq!(rt; itself.len(), 0);
    let (zero, two, three) = (MinInt::of(0), MinInt::of(-2), MinInt::of(-3));
    let gens = one_row(alloc, zero, two)?;
    let min = numbers_of(alloc, separate(alloc, &gens, &pair(alloc, zero, three)?)?)?;
    assert_eq!(rt; min.as_slice(), [None, Some(0), Some(-2), None].as_slice());
    let gens = one_row(alloc, Flag::of(true), Flag::of(false))?;
    let both = pair(alloc, Flag::of(true), Flag::of(true))?;
    let flag = numbers_of(alloc, separate(alloc, &gens, &both)?)?;
    assert_eq!(rt; flag.as_slice(), [None, Some(0), None, None].as_slice());
    Ok(())
}

// The polar of the point 2 at x, and the bound that a row of it gives.
#[test]
fn polar_of_a_point(rt: HostRuntime) -> Result<(), Fail> {
    let alloc = rt.alloc();
    laws::bipolar::<MaxInt>();
    laws::external_list_exists::<MinInt>();
    laws::external_list_is_unique::<Flag>();
    laws::canonical_list_of_external_list::<MaxInt>();
    let gens = one_row(alloc, MaxInt::of(0), MaxInt::of(2))?;
    let system = polar_system(alloc, &gens, 1)?;
    assert_eq!(rt; system.len(), 1);
    for ineq in system.as_slice() {
        let shown = numbers(alloc, ineq)?;
        assert_eq!(rt; shown.as_slice(), [None, Some(2), Some(0), None].as_slice());
    }
    let bound = inequality_of(alloc, &pair(alloc, MaxInt::of(0), MaxInt::of(-2))?, 1)?;
    let shown = numbers(alloc, &bound)?;
    assert_eq!(rt; shown.as_slice(), [None, Some(0), Some(2), None].as_slice());
    Ok(())
}
