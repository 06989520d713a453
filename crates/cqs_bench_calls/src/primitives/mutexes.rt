//! Rounds of a mutex, with one pass.

ghost use Rattle.std.specs.Prelude.{IsTrue};
ghost use Rattle.cqs_bench_calls.specs.Idle.{IsIdleAtMutex};

use cqs_bench_rows::nanoseconds_since;
use cqs_mutex::{Locked, Mutex, MutexPass};
use cqs_rule::Config;
use cqs_semaphore::Released;
use std::rt::Clock;
use std::time::Instant;

/// One pass.
const CONFIG: Config = Config {
    passes: 1,
    limit: 64,
    slots: 4,
};

// The mutex is free: it is locked and unlocked.
#[inline(always)]
fn free_round(mutex: &Mutex<u64>, pass: &mut MutexPass<u64>) -> bool
    requires idle { IsIdleAtMutex mutex.now pass.old }
    ensures idle { IsTrue result → IsIdleAtMutex mutex.now pass.new }
{
    match mutex.lock(pass) {
        Ok(Locked::Now(guard)) => matches!(mutex.unlock(pass, guard), Ok(Released::Freed)),
        _ => false,
    }
}

// So many of them.
#[inline(always)]
fn free_rounds(mutex: &Mutex<u64>, pass: &mut MutexPass<u64>, count: u64) -> bool
    requires idle { IsIdleAtMutex mutex.now pass.old }
{
    for _ in 0..count {
        if !free_round(mutex, pass) {
            return false;
        }
    }
    true
}

/// The nanoseconds of so many rounds in which a free mutex around a number is locked and unlocked.
pub fn time_free<R: Clock + AllocGlobal>(rt: &R, count: u64) -> anyhow::Result<u64> {
    let Ok((mutex, mut pass)) = Mutex::new(rt.alloc(), 0u64, CONFIG) else {
        anyhow::bail!("no memory for the mutex");
    };
    let start = Instant::now(rt)?;
    let done = free_rounds(&mutex, &mut pass, count);
    nanoseconds_since(rt, start, done)
}
