//! Each law of the library, called once at a concrete semiring.
use std::test::Fail;
use tplib_laws::{
    check_takes_analyze, equal_bytes_are_equal_cones, equal_bytes_are_equal_solutions,
    ext_takes_back_int, int_takes_back_ext,
};
use trop_dd::equal_rows_are_equal_solutions;
use trop_row::laws::{
    canonical_list_generates, canonical_list_of_rows_is_unique, canonical_list_of_system_is_unique,
    comparison_of_rows, step_generates_guard,
};
use trop_scalar::{Flag, MaxInt, MinInt};
use trop_tangent::{extreme_entries_are_near, extreme_rows_are_small};

#[test]
fn laws_at_a_semiring(_rt: HostRuntime) -> Result<(), Fail> {
    comparison_of_rows::<MaxInt>();
    step_generates_guard::<MinInt>();
    canonical_list_of_rows_is_unique::<Flag>();
    canonical_list_of_system_is_unique::<MaxInt>();
    canonical_list_generates::<MinInt>();
    extreme_entries_are_near::<Flag>();
    extreme_rows_are_small::<MaxInt>();
    equal_rows_are_equal_solutions::<MinInt>();
    equal_bytes_are_equal_solutions();
    equal_bytes_are_equal_cones();
    int_takes_back_ext();
    ext_takes_back_int();
    check_takes_analyze();
    Ok(())
}
