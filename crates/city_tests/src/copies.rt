//! Copies share what they copy.
use city_members::OutOfMemory;
use city_members::copied::Copied;
use city_members::shared::Shared;
use std::alloc::Global;
use std::test::Fail;

/// A number of which no copy can be made.
#[derive(Drop)]
struct Single {
    number: u64,
}

impl Copied for Single {
    fn copy(&self, _alloc: Global) -> Result<Single, OutOfMemory> {
        Err(OutOfMemory)
    }
}

/// How many of ten copies, each of the one before, give the number.
fn copies_of(alloc: Global, shared: Shared<Single>, number: u64) -> Result<u64, OutOfMemory> {
    let mut count = 0u64;
    let mut last = shared;
    for _ in 0..10 {
        last = last.copy(alloc)?;
        if last.get().number == number {
            count = count.wrapping_add(1);
        }
    }
    Ok(count)
}

#[test]
fn a_copy_of_a_shared_value_copies_no_value(rt: HostRuntime) -> Result<(), Fail> {
    let shared = Shared::new(rt.alloc(), Single { number: 7 })?;
    assert_eq!(rt; copies_of(rt.alloc(), shared, 7)?, 10);
    Ok(())
}

#[test]
fn a_copy_of_an_unshared_value_copies_it(rt: HostRuntime) {
    let unshared = Shared::unshared(Single { number: 7 });
    assert!(rt; copies_of(rt.alloc(), unshared, 7).is_err());
}
