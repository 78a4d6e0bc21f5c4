//! Drawn cones. What two systems have in common solves both, so the system of all their inequalities, converted, gives
//! the rows of the meet without an external list; and one more inequality gives those of the guard without a test of
//! rows against rows.
ghost use Rattle.std.specs.Prelude.{◌≡◌, ◌≤◌, IfOk};
ghost use Rattle.trop_theory.specs.Vectors.{rows_size};

use crate::draws::{both_of, first_of};
use row_examples::{inequality_of, rows_text, same_text, system_of};
use std::alloc::Global;
use std::test::Fail;
use trop_poly::Poly;
use trop_scalar::{Flag, MaxInt, MinInt, Scalar};

// How many pairs of systems are drawn in each semiring.
const PAIRS: u32 = 240;

// A seed for the second system of a pair.
fn other_of(seed: u32) -> u32 {
    seed.wrapping_mul(7).wrapping_add(1_000)
}

// The solutions of the system.
fn solutions<S: Scalar>(alloc: Global, text: &str) -> Result<Poly<S>, Fail>
    ensures width { IfOk result (λ cone. cone.n ≡ 4) }
    ensures size { IfOk result (λ cone. rows_size S.ring cone.rows ≤ 1000000) }
{
    let system = system_of::<S>(alloc, 4, text)?;
    let cone = Poly::from_system(alloc, &system)?;
    if cone.size() > 1_000_000 {
        return Err("a large cone")?;
    }
    Ok(cone)
}

// That the rows of the cone are the solutions of the system.
fn solves<S: Scalar>(alloc: Global, what: &str, text: &str, cone: &Poly<S>) -> Result<(), Fail> {
    let wanted = solutions::<S>(alloc, text)?;
    let wanted = rows_text(alloc, wanted.rows())?;
    let got = rows_text(alloc, cone.rows())?;
    let what = format!(in alloc; "{what} of {text}")?;
    same_text(alloc, what.as_str(), wanted.as_str(), got.as_str())
}

fn meets_are_those_of_both_systems<S: Scalar>(alloc: Global, seed: u32) -> Result<(), Fail> {
    let first = solutions::<S>(alloc, first_of(alloc, seed, 2)?.as_str())?;
    let second = solutions::<S>(alloc, first_of(alloc, other_of(seed), 2)?.as_str())?;
    let both = both_of(alloc, seed, other_of(seed), 2)?;
    let met = first.meet(alloc, &second)?;
    solves(alloc, "the meet", both.as_str(), &met)?;
    let turned = second.meet(alloc, &first)?;
    solves(alloc, "the meet turned round", both.as_str(), &turned)
}

fn guards_are_those_of_the_longer_system<S: Scalar>(alloc: Global, seed: u32) -> Result<(), Fail> {
    let first = solutions::<S>(alloc, first_of(alloc, seed, 2)?.as_str())?;
    let ineq = inequality_of(alloc, 4, first_of(alloc, other_of(seed), 1)?.as_str())?;
    let longer = both_of(alloc, seed, other_of(seed), 1)?;
    let guarded = first.guard(alloc, &ineq)?;
    solves(alloc, "the guard", longer.as_str(), &guarded)
}

#[test]
fn meets_in_each_semiring(rt: HostRuntime) -> Result<(), Fail> {
    for seed in 0..PAIRS {
        meets_are_those_of_both_systems::<MaxInt>(rt.alloc(), seed)?;
        meets_are_those_of_both_systems::<MinInt>(rt.alloc(), seed)?;
        meets_are_those_of_both_systems::<Flag>(rt.alloc(), seed)?;
    }
    Ok(())
}

#[test]
fn guards_in_each_semiring(rt: HostRuntime) -> Result<(), Fail> {
    for seed in 0..PAIRS {
        guards_are_those_of_the_longer_system::<MaxInt>(rt.alloc(), seed)?;
        guards_are_those_of_the_longer_system::<MinInt>(rt.alloc(), seed)?;
        guards_are_those_of_the_longer_system::<Flag>(rt.alloc(), seed)?;
    }
    Ok(())
}
