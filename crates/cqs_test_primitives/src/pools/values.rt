//! A pool of values, call by call.

use cqs_pool::Placed;
use cqs_pool_values::{ItemLeft, ItemPolled, ItemTaking, ValuePool};
use cqs_rule::Config;
use std::test::Fail;

const CONFIG: Config = Config {
    passes: 2,
    limit: 8,
    slots: 8,
};

#[test]
fn a_value_goes_to_the_first_who_waits(rt: HostRuntime) -> Result<(), Fail> {
    let mut values = Vec::new(rt.alloc());
    values.push(7u64)?;
    let Ok((pool, mut pass)) = ValuePool::new(rt.alloc(), values, CONFIG) else {
        return Ok(());
    };
    let Ok(ItemTaking::Took(mut item)) = pool.take(&mut pass) else {
        panic!(rt; "the element is free");
    };
    assert!(rt; *item.get() == 7);
    let Ok(ItemTaking::Later(wait)) = pool.take(&mut pass) else {
        panic!(rt; "none is free");
    };
    let ItemPolled::Pending(wait) = pool.poll(&mut pass, wait) else {
        panic!(rt; "nothing came");
    };
    *item.get_mut() = 8;
    let Ok(Placed::Sent(number)) = pool.put(&mut pass, item) else {
        panic!(rt; "a caller waits");
    };
    assert!(rt; number == 1);
    let ItemPolled::Granted(item) = pool.poll(&mut pass, wait) else {
        panic!(rt; "the element came");
    };
    assert!(rt; *item.get() == 8);
    Ok(())
}

#[test]
fn a_value_that_came_too_early_to_leave(rt: HostRuntime) -> Result<(), Fail> {
    let mut values = Vec::new(rt.alloc());
    values.push(7u64)?;
    let Ok((pool, mut pass)) = ValuePool::new(rt.alloc(), values, CONFIG) else {
        return Ok(());
    };
    let Ok(ItemTaking::Took(mut item)) = pool.take(&mut pass) else {
        panic!(rt; "the element is free");
    };
    let Ok(ItemTaking::Later(wait)) = pool.take(&mut pass) else {
        panic!(rt; "none is free");
    };
    *item.get_mut() = 9;
    let Ok(Placed::Sent(_)) = pool.put(&mut pass, item) else {
        panic!(rt; "a caller waits");
    };
    let ItemLeft::TooLate(item) = pool.cancel(&mut pass, wait) else {
        panic!(rt; "the element came first");
    };
    assert!(rt; *item.get() == 9);
    let Ok(Placed::Left(_)) = pool.put(&mut pass, item) else {
        panic!(rt; "nobody waits");
    };
    Ok(())
}

#[test]
fn a_value_put_by_who_met_its_taker(rt: HostRuntime) -> Result<(), Fail> {
    let mut values = Vec::new(rt.alloc());
    values.push(7u64)?;
    let Ok((pool, mut pass)) = ValuePool::new(rt.alloc(), values, CONFIG) else {
        return Ok(());
    };
    let Ok(mut other) = pool.split(&mut pass) else {
        panic!(rt; "two passes may be made");
    };
    let Ok(ItemTaking::Took(_item)) = pool.take(&mut other) else {
        panic!(rt; "the element is free");
    };
    let Ok(()) = pool.meet(&mut pass, other) else {
        panic!(rt; "the other pass waits for nothing");
    };
    assert!(rt; pool.sole(&mut pass));
    Ok(())
}
