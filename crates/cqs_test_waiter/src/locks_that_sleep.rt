//! Threads that sleep until the mutex has come.

use cqs_mutex::{Locked, Mutex};
use cqs_rule::Config;
use cqs_waiter::lock_wait;
use std::test::Fail;
use std::thread;
use std::time::Duration;

const CONFIG: Config = Config {
    passes: 2,
    limit: 4,
    slots: 6,
};

/// So many milliseconds are far longer than a caller looks: who still waits then sleeps.
const ASLEEP: u64 = 10;

#[test]
fn a_free_mutex_comes_without_sleep(rt: HostRuntime) -> Result<(), Fail> {
    let Ok((mutex, mut pass)) = Mutex::new(rt.alloc(), 5u64, CONFIG) else {
        return Ok(());
    };
    let Ok(guard) = lock_wait(&rt, &mutex, &mut pass) else {
        panic!(rt; "it is free");
    };
    assert_eq!(rt; (*guard.get(), pass.held()), (5, 1));
    Ok(())
}

#[test]
fn an_unlock_wakes_who_sleeps(rt: HostRuntime) -> Result<(), Fail> {
    let Ok((mutex, mut pass)) = Mutex::new(rt.alloc(), 5u64, CONFIG) else {
        return Ok(());
    };
    let Ok(mut second) = mutex.split(&mut pass) else {
        panic!(rt; "one was made of two");
    };
    let Ok(Locked::Now(mut guard)) = mutex.lock(&mut pass) else {
        panic!(rt; "it is free");
    };
    *guard.get_mut() = 6;
    let (shared, host) = (&mutex, &rt);
    let (came, gave) = thread::join(
        host,
        move || match lock_wait(host, shared, &mut second) {
            Ok(guard) => Some(*guard.get()),
            Err(_) => None,
        },
        move || {
            thread::sleep(host, Duration::from_millis(ASLEEP));
            shared.unlock(&mut pass, guard).is_ok()
        },
    );
    assert!(rt; gave);
    assert_eq!(rt; came, Some(6));
    Ok(())
}
