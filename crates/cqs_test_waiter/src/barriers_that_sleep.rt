//! Parties that sleep until the last has arrived.

use cqs_barrier::{Arrived, Barrier};
use cqs_rule::Config;
use cqs_waiter::{Passage, arrive_wait};
use std::test::Fail;
use std::thread;
use std::time::Duration;

const CONFIG: Config = Config {
    passes: 2,
    limit: 4,
    slots: 6,
};

/// So many milliseconds are far longer than a party looks: who still waits then sleeps.
const ASLEEP: u64 = 10;

#[test]
fn a_party_of_one_goes_through_at_once(rt: HostRuntime) -> Result<(), Fail> {
    let Ok((barrier, mut pass)) = Barrier::new(rt.alloc(), 1, CONFIG) else {
        return Ok(());
    };
    let came = arrive_wait(&rt, &barrier, &mut pass);
    assert!(rt; matches!(came, Ok(Passage::Through)));
    assert_eq!(rt; pass.held(), 0);
    Ok(())
}

#[test]
fn the_last_party_wakes_who_sleeps(rt: HostRuntime) -> Result<(), Fail> {
    let Ok((barrier, mut pass)) = Barrier::new(rt.alloc(), 2, CONFIG) else {
        return Ok(());
    };
    let Ok(mut second) = barrier.split(&mut pass, 1) else {
        panic!(rt; "one was made of two");
    };
    let (shared, host) = (&barrier, &rt);
    let (came, last) = thread::join(
        host,
        move || matches!(arrive_wait(host, shared, &mut second), Ok(Passage::Through)),
        move || {
            thread::sleep(host, Duration::from_millis(ASLEEP));
            matches!(shared.arrive(&mut pass), Ok(Arrived::Last))
        },
    );
    assert!(rt; came && last);
    Ok(())
}
