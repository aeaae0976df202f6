//! Copies that allocate nothing: they are made whichever growth is refused.
use crate::refused::SHORT;
use crate::runs::{CUBE, city_of};
use city_members::copied::Copied;
use city_model::city::City;
use std::alloc::Global;
use std::test::Fail;

/// Whether ten copies of the body of each object, and of its geometries, are made.
fn are_bodies_copied(alloc: Global, city: &City) -> bool {
    city.iter().all(|(_, object)| {
        (0..10).all(|_| object.body.copy(alloc).is_ok()
            && object.body.get().geometry.copy(alloc).is_ok())
    })
}

#[test]
fn copies_of_a_body_take_no_memory(rt: HostRuntime) -> Result<(), Fail> {
    let city = city_of(rt.alloc(), CUBE.document).ok_or(SHORT)?;
    let copied = are_bodies_copied(rt.alloc(), &city);
    assert!(rt; copied);
    Ok(())
}
