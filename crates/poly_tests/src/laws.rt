//! Each law of the crates of cones, called once at a concrete semiring.

use std::test::Fail;
use trop_guard::laws::{canonical_rows_are_minimal, minimal_coordinates_are_types};
use trop_polar::laws::{
    bipolar, canonical_list_of_external_list, external_list_exists, external_list_is_unique,
};
use trop_sample::first_numbers;
use trop_scalar::{Flag, MaxInt, MinInt};

#[test]
fn laws_at_a_semiring(_rt: HostRuntime) -> Result<(), Fail> {
    canonical_rows_are_minimal::<Flag>();
    minimal_coordinates_are_types::<MaxInt>();
    bipolar::<MinInt>();
    external_list_exists::<Flag>();
    external_list_is_unique::<MaxInt>();
    canonical_list_of_external_list::<MinInt>();
    first_numbers();
    Ok(())
}
