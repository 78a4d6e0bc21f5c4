//! Samples that were worked out by hand.
use row_examples::{row_text, same_text};
use std::alloc::{AllocError, Global};
use std::test::Fail;
use trop_row::System;
use trop_sample::make;
use trop_scalar::{MaxInt, Scalar};

// The number of coordinates, and the inequalities.
fn system_text<S: Scalar>(alloc: Global, system: &System<S>) -> Result<String, AllocError> {
    let mut text = format!(in alloc; "{}:", system.n())?;
    for ineq in system.as_slice() {
        let (left, right) = (
            row_text(alloc, ineq.left())?,
            row_text(alloc, ineq.right())?,
        );
        text = format!(in alloc; "{text} {left} < {right},")?;
    }
    Ok(text)
}

// The greater of -10 and x + 6 is at most y + 1.
#[test]
fn first_sample_in_two_variables(rt: HostRuntime) -> Result<(), Fail> {
    let system = make(rt.alloc(), 0, 2, 1)?;
    let got = system_text(rt.alloc(), &system)?;
    same_text(rt.alloc(), "the first", "3: -10 6 . < . . 1,", got.as_str())
}

#[test]
fn no_inequality_is_asked_for(rt: HostRuntime) -> Result<(), Fail> {
    let system: System<MaxInt> = make(rt.alloc(), 1, 3, 0)?;
    let got = system_text(rt.alloc(), &system)?;
    same_text(rt.alloc(), "none", "4:", got.as_str())
}
