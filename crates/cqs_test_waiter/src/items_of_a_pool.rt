//! Callers who wait for an item of a pool: by a future, and by a call that sleeps.

use cqs_pool_values::{ItemTaking, ValuePool};
use cqs_rule::Config;
use cqs_waiter::{TakeFuture, take_wait};
use std::test::Fail;
use std::thread;
use std::time::Duration;

const CONFIG: Config = Config {
    passes: 2,
    limit: 4,
    slots: 8,
};

/// So many milliseconds are far longer than a caller looks: who still waits then sleeps.
const ASLEEP: u64 = 10;

#[test]
fn a_free_item_comes_without_sleep(rt: HostRuntime) -> Result<(), Fail> {
    let mut values = Vec::new(rt.alloc());
    values.push(5u64)?;
    let Ok((pool, mut pass)) = ValuePool::new(rt.alloc(), values, CONFIG) else {
        return Ok(());
    };
    let Ok(item) = take_wait(&rt, &pool, &mut pass) else {
        panic!(rt; "it is free");
    };
    assert_eq!(rt; (*item.get(), item.number()), (5, 0));
    Ok(())
}

#[test]
fn a_put_wakes_who_sleeps(rt: HostRuntime) -> Result<(), Fail> {
    let mut values = Vec::new(rt.alloc());
    values.push(5u64)?;
    let Ok((pool, mut pass)) = ValuePool::new(rt.alloc(), values, CONFIG) else {
        return Ok(());
    };
    let Ok(mut second) = pool.split(&mut pass) else {
        panic!(rt; "one was made of two");
    };
    let Ok(ItemTaking::Took(mut item)) = pool.take(&mut pass) else {
        panic!(rt; "it is free");
    };
    *item.get_mut() = 6;
    let (shared, host) = (&pool, &rt);
    let (came, gave) = thread::join(
        host,
        move || match take_wait(host, shared, &mut second) {
            Ok(item) => Some(*item.get()),
            Err(_) => None,
        },
        move || {
            thread::sleep(host, Duration::from_millis(ASLEEP));
            shared.put(&mut pass, item).is_ok()
        },
    );
    assert!(rt; gave);
    assert_eq!(rt; came, Some(6));
    Ok(())
}

#[test]
fn a_future_that_never_took_hands_its_pass_back(rt: HostRuntime) -> Result<(), Fail> {
    let mut values = Vec::new(rt.alloc());
    values.push(5u64)?;
    let Ok((pool, pass)) = ValuePool::new(rt.alloc(), values, CONFIG) else {
        return Ok(());
    };
    let (pass, answer) = TakeFuture::new(&pool, pass).give_up();
    assert!(rt; answer.is_none());
    assert_eq!(rt; (pass.number(), pass.waits()), (0, 0));
    Ok(())
}
