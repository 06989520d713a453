//! When the value of a mutex is dropped.

use cqs_mutex::{Locked, Mutex};
use cqs_rule::Config;
use cqs_semaphore::Released;
use std::alloc::Global;
use std::sync::atomic::{AtomicU64, Ordering};
use std::test::Fail;

const CONFIG: Config = Config {
    passes: 1,
    limit: 4,
    slots: 4,
};

/// A value that counts that it was dropped.
struct Counted<'a> {
    drops: &'a AtomicU64,
}

impl Drop for Counted<'_> {
    fn drop(self) {
        self.drops.fetch_add(1, Ordering::SeqCst);
        let Counted { drops: _ } = self;
    }
}

/// Locks a mutex around a counted value, and unlocks it or keeps it locked. Says how often the
/// value was dropped before the mutex and all that there is of it were.
fn drops_before_the_end(alloc: Global, drops: &AtomicU64, unlocks: bool) -> u64 {
    let Ok((mutex, mut pass)) = Mutex::new(alloc, Counted { drops }, CONFIG) else {
        return 0;
    };
    let Ok(Locked::Now(guard)) = mutex.lock(&mut pass) else {
        return u64::MAX;
    };
    if unlocks {
        let Ok(Released::Freed) = mutex.unlock(&mut pass, guard) else {
            return u64::MAX;
        };
    } else {
        drop(guard);
    }
    drops.load(Ordering::SeqCst)
}

#[test]
fn a_value_is_dropped_once_with_its_mutex(rt: HostRuntime) -> Result<(), Fail> {
    let drops = AtomicU64::new(0);
    assert!(rt; drops_before_the_end(rt.alloc(), &drops, true) == 0);
    assert!(rt; drops.load(Ordering::SeqCst) == 1);
    Ok(())
}

#[test]
fn a_value_is_dropped_once_with_its_guard(rt: HostRuntime) -> Result<(), Fail> {
    let drops = AtomicU64::new(0);
    let before = drops_before_the_end(rt.alloc(), &drops, false);
    assert!(rt; before <= 1);
    assert!(rt; drops.load(Ordering::SeqCst) == 1);
    Ok(())
}
