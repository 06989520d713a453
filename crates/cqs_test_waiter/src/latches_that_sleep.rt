//! Threads that sleep until a latch was opened.

use cqs_latch::{Down, Latch};
use cqs_rule::{CancelMode, Config};
use cqs_waiter::wait_open;
use std::test::Fail;
use std::thread;
use std::time::Duration;

const CONFIG: Config = Config {
    passes: 2,
    limit: 4,
    slots: 6,
};

/// So many milliseconds are far longer than a caller looks: who still waits then sleeps.
const ASLEEP: u64 = 10;

#[test]
fn an_open_latch_is_passed_without_sleep(rt: HostRuntime) -> Result<(), Fail> {
    let Ok((latch, mut pass)) = Latch::new(rt.alloc(), 0, CancelMode::Smart, CONFIG) else {
        return Ok(());
    };
    assert!(rt; wait_open(&rt, &latch, &mut pass).is_ok());
    Ok(())
}

#[test]
fn the_last_count_wakes_who_sleeps(rt: HostRuntime) -> Result<(), Fail> {
    let Ok((latch, mut pass)) = Latch::new(rt.alloc(), 1, CancelMode::Smart, CONFIG) else {
        return Ok(());
    };
    let Ok(mut second) = latch.split(&mut pass) else {
        panic!(rt; "one was made of two");
    };
    let (shared, host) = (&latch, &rt);
    let (came, opened) = thread::join(
        host,
        move || wait_open(host, shared, &mut second).is_ok(),
        move || {
            thread::sleep(host, Duration::from_millis(ASLEEP));
            matches!(shared.count_down(&mut pass), Ok(Down::Last))
        },
    );
    assert!(rt; came && opened);
    Ok(())
}
