//! A permit that comes to the one who waits past many who gave up: how long that takes, by how many
//! did.

ghost use Rattle.cqs_semaphore.specs.Callers.{IsIdle};

use crate::primitives::rounds::{leave_rounds, served_round};
use cqs_bench_rows::nanoseconds_since;
use cqs_rule::Config;
use cqs_semaphore::{Acquired, SemPass, Semaphore};
use std::rt::Clock;
use std::time::Instant;

/// As many waits as a queue may have, on few slots.
const CONFIG: Config = Config {
    passes: 1,
    limit: 1 << 36,
    slots: 64,
};

/// How many rounds are made for so many that were asked for: in each of them so many waiters come
/// and leave before the clock starts.
pub fn rounds_of(left: u64, count: u64) -> u64 {
    (count / left.max(1)).max(1)
}

/// The nanoseconds of so many rounds, on a semaphore of one permit of its own. In each the pass
/// that has the permit waits for it past so many who left, gives it to this wait, and looks.
pub fn time<R: Clock + AllocGlobal>(rt: &R, left: u64, count: u64) -> anyhow::Result<u64> {
    let Ok((semaphore, mut pass)) = Semaphore::new(rt.alloc(), 1, CONFIG) else {
        anyhow::bail!("no memory for the semaphore");
    };
    time_rounds(rt, &semaphore, &mut pass, left, count)
}

fn time_rounds(
    rt: &impl Clock,
    semaphore: &Semaphore,
    pass: &mut SemPass,
    left: u64,
    count: u64,
) -> anyhow::Result<u64>
    requires idle { IsIdle semaphore.now pass.old }
{
    let Ok(Acquired::Now(first)) = semaphore.acquire(pass) else {
        anyhow::bail!("no permit was free");
    };
    let mut permit = first;
    let mut nanoseconds = 0u64;
    for _ in 0..count {
        let went = leave_rounds(semaphore, pass, left);
        if !went || pass.held() == 0 {
            anyhow::bail!("a waiter didn't leave");
        }
        let start = Instant::now(rt)?;
        let Some(next) = served_round(semaphore, pass, permit) else {
            anyhow::bail!("the wait wasn't served");
        };
        permit = next;
        nanoseconds = nanoseconds.saturating_add(nanoseconds_since(rt, start, true)?);
    }
    Ok(nanoseconds)
}
