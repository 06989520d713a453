//! Values of 0, 8 and 4,096 bytes.

use cqs_mutex::{Locked, Mutex, TriedLock};
use cqs_rule::Config;
use cqs_semaphore::Released;
use std::alloc::Global;
use std::test::Fail;

const CONFIG: Config = Config {
    passes: 1,
    limit: 4,
    slots: 4,
};

/// Whether a mutex around the first value gives it out, and then the second one, which took its
/// place. Where no mutex was made, nothing is said.
fn hands_on<T: Copy + PartialEq + Send + Drop>(alloc: Global, first: T, second: T) -> bool {
    let Ok((mutex, mut pass)) = Mutex::new(alloc, first, CONFIG) else {
        return true;
    };
    let Ok(Locked::Now(mut guard)) = mutex.lock(&mut pass) else {
        return false;
    };
    let came = *guard.get() == first;
    *guard.get_mut() = second;
    let Ok(Released::Freed) = mutex.unlock(&mut pass, guard) else {
        return false;
    };
    let TriedLock::Got(guard) = mutex.try_lock(&mut pass) else {
        return false;
    };
    came && *guard.get() == second
}

#[test]
fn values_of_each_size_are_handed_on(rt: HostRuntime) -> Result<(), Fail> {
    assert!(rt; hands_on(rt.alloc(), (), ()));
    assert!(rt; hands_on(rt.alloc(), 5u64, u64::MAX));
    assert!(rt; hands_on(rt.alloc(), [1u8; 4096], [2u8; 4096]));
    Ok(())
}
