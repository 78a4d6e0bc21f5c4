//! The snippet of README, with the answer that was worked out by hand.
use std::alloc::Global;
use std::test::Fail;
use trop_dd::{DdErr, extreme_rows};
use trop_hyper::Looks;
use trop_row::{Gens, Ineq, Row, System};
use trop_scalar::{MaxInt, Scalar};

// The snippet of README: the solutions of x + 3 <= y, in the coordinates of constants, of x and of y.
fn three_later(alloc: Global) -> Result<Gens<MaxInt>, DdErr> {
    let none = MaxInt::zero();
    let left = Row::from_entries(alloc, &[none, MaxInt::of(3), none])?;
    let right = Row::from_entries(alloc, &[none, none, MaxInt::one()])?;
    let mut system = System::new(alloc, 3);
    system.push(Ineq::new(left, right))?;
    extreme_rows(alloc, &system, &mut Looks::new())
}

// Two rays, and the point that has neither x nor y.
#[test]
fn snippet_of_the_readme(rt: HostRuntime) -> Result<(), Fail> {
    let alloc = rt.alloc();
    let rows = three_later(alloc).map_err(|_| "no rows")?;
    let (none, one) = (MaxInt::zero(), MaxInt::one());
    assert_eq!(rt; rows.len(), 3);
    assert!(rt; rows.get(0).as_slice() == [none, none, one].as_slice());
    assert!(rt; rows.get(1).as_slice() == [none, one, MaxInt::of(3)].as_slice());
    assert!(rt; rows.get(2).as_slice() == [one, none, none].as_slice());
    Ok(())
}
