//! Values of 0, 8 and 4,096 bytes.

use cqs_pool::Placed;
use cqs_pool_values::{ItemTaking, ValuePool};
use cqs_rule::Config;
use std::alloc::{AllocFailed, Global};
use std::test::Fail;

const CONFIG: Config = Config {
    passes: 1,
    limit: 8,
    slots: 8,
};

/// Whether a pool of the first value gives it out, and then the second, which took its place. Where
/// no pool was made, nothing is said.
fn hands_on<T: Copy + PartialEq + Send + Drop>(
    alloc: Global,
    first: T,
    second: T,
) -> Result<bool, AllocFailed<T>> {
    let mut values = Vec::new(alloc);
    values.push(first)?;
    let Ok((pool, mut pass)) = ValuePool::new(alloc, values, CONFIG) else {
        return Ok(true);
    };
    let Ok(ItemTaking::Took(mut item)) = pool.take(&mut pass) else {
        return Ok(false);
    };
    let came = *item.get() == first;
    *item.get_mut() = second;
    let Ok(Placed::Left(_)) = pool.put(&mut pass, item) else {
        return Ok(false);
    };
    let Ok(ItemTaking::Took(item)) = pool.take(&mut pass) else {
        return Ok(false);
    };
    Ok(came && *item.get() == second)
}

#[test]
fn values_of_each_size_are_handed_on(rt: HostRuntime) -> Result<(), Fail> {
    assert!(rt; hands_on(rt.alloc(), (), ())?);
    assert!(rt; hands_on(rt.alloc(), 5u64, u64::MAX)?);
    assert!(rt; hands_on(rt.alloc(), [1u8; 4096], [2u8; 4096])?);
    Ok(())
}
