//! The coefficients that a draw gives.
ghost use Rattle.std.specs.Prelude.{◌≡◌, ◌^◌, ◌<◌};
ghost use Rattle.trop_sample.specs.Samples.{coefficient, left_coefficient, right_coefficient};

use trop_scalar::{MaxInt, Scalar};

fn coefficient(draw: u32) -> MaxInt
    requires { draw < 2 ^ 15 }
    ensures { result ≡ coefficient draw }
{
    MaxInt::of(i64::from(draw / 3 % 21) - 10)
}

pub fn left_coefficient(draw: u32) -> MaxInt
    requires { draw < 2 ^ 15 }
    ensures { result ≡ left_coefficient draw }
{
    if draw % 3 == 0 {
        coefficient(draw)
    } else {
        MaxInt::zero()
    }
}

pub fn right_coefficient(draw: u32) -> MaxInt
    requires { draw < 2 ^ 15 }
    ensures { result ≡ right_coefficient draw }
{
    if draw % 3 == 1 {
        coefficient(draw)
    } else {
        MaxInt::zero()
    }
}
