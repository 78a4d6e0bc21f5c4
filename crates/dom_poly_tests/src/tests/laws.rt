//! The law of the images of polyhedra, called once.
use dom_poly::images_grow;
use std::test::Fail;
use trop_scalar::MaxInt;

#[test]
fn laws_at_a_semiring(_rt: HostRuntime) -> Result<(), Fail> {
    images_grow::<MaxInt>();
    Ok(())
}
