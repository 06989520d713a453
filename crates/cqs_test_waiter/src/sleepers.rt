//! Threads that sleep until their permit has come.

use cqs_rule::Config;
use cqs_semaphore::{Acquired, Semaphore};
use cqs_waiter::acquire_wait;
use std::test::Fail;
use std::thread;
use std::time::Duration;

const CONFIG: Config = Config {
    passes: 2,
    limit: 4,
    slots: 6,
};

/// So many milliseconds are far longer than a caller looks: who still waits then sleeps.
const ASLEEP: u64 = 10;

#[test]
fn a_free_permit_comes_without_sleep(rt: HostRuntime) -> Result<(), Fail> {
    let (semaphore, mut pass) = Semaphore::new(rt.alloc(), 1, CONFIG)?;
    let Ok(permit) = acquire_wait(&rt, &semaphore, &mut pass) else {
        panic!(rt; "it is free");
    };
    assert_eq!(rt; permit.number(), None);
    assert_eq!(rt; pass.held(), 1);
    Ok(())
}

#[test]
fn a_release_wakes_who_sleeps(rt: HostRuntime) -> Result<(), Fail> {
    let (semaphore, mut pass) = Semaphore::new(rt.alloc(), 1, CONFIG)?;
    let Ok(mut second) = semaphore.split(&mut pass) else {
        panic!(rt; "one was made of two");
    };
    let Ok(Acquired::Now(permit)) = semaphore.acquire(&mut pass) else {
        panic!(rt; "it is free");
    };
    let (shared, host) = (&semaphore, &rt);
    let (came, gave) = thread::join(
        host,
        move || acquire_wait(host, shared, &mut second).is_ok(),
        move || {
            thread::sleep(host, Duration::from_millis(ASLEEP));
            shared.release(&mut pass, permit).is_ok()
        },
    );
    assert!(rt; came && gave);
    Ok(())
}
