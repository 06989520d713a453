//! Rounds of a semaphore of one permit, with one pass, as they are timed.

ghost use Rattle.cqs_semaphore.specs.Callers.{IsIdle};

use crate::primitives::rounds::{free_rounds, leave_rounds, line_up, served_rounds, stand};
use cqs_bench_rows::nanoseconds_since;
use cqs_rule::Config;
use cqs_semaphore::{Acquired, SemPass, Semaphore};
use std::rt::Clock;
use std::time::Instant;

/// So many waiters stand in line where rounds are made behind them.
const LIVE: u64 = 1000;

/// As many waits as a queue may have, on slots for those who stand in line at once.
const CONFIG: Config = Config {
    passes: 5,
    limit: 1 << 36,
    slots: 64,
};

/// What a round is.
#[derive(Clone, Copy, Drop)]
pub enum Round {
    /// A free permit is taken and given back.
    Free,
    /// A waiter looks once and leaves.
    Leave,
    /// The same behind others who wait.
    LeaveBehind,
    /// A wait is served.
    Served,
}

/// The nanoseconds of so many rounds, on a semaphore of one permit of its own.
pub fn time<R: Clock + AllocGlobal>(rt: &R, round: Round, count: u64) -> anyhow::Result<u64> {
    let Ok((semaphore, mut pass)) = Semaphore::new(rt.alloc(), 1, CONFIG) else {
        anyhow::bail!("no memory for the semaphore");
    };
    match round {
        Round::Free => time_free(rt, &semaphore, &mut pass, count),
        Round::Leave => time_leave(rt, &semaphore, &mut pass, 0, count),
        Round::LeaveBehind => time_leave(rt, &semaphore, &mut pass, LIVE, count),
        Round::Served => time_served(rt, &semaphore, &mut pass, count),
    }
}

#[inline(always)]
fn time_free(
    rt: &impl Clock,
    semaphore: &Semaphore,
    pass: &mut SemPass,
    count: u64,
) -> anyhow::Result<u64>
    requires idle { IsIdle semaphore.now pass.old }
{
    let start = Instant::now(rt)?;
    let done = free_rounds(semaphore, pass, count);
    nanoseconds_since(rt, start, done)
}

/// The pass takes the permit, and so many waiters come before the rounds begin.
#[inline(always)]
fn time_leave(
    rt: &impl Clock,
    semaphore: &Semaphore,
    pass: &mut SemPass,
    live: u64,
    count: u64,
) -> anyhow::Result<u64>
    requires idle { IsIdle semaphore.now pass.old }
{
    let Ok(Acquired::Now(_)) = semaphore.acquire(pass) else {
        anyhow::bail!("no permit was free");
    };
    stand(semaphore, pass, live);
    let start = Instant::now(rt)?;
    let done = leave_rounds(semaphore, pass, count);
    nanoseconds_since(rt, start, done)
}

/// The pass takes the permit before the rounds begin.
#[inline(always)]
fn time_served(
    rt: &impl Clock,
    semaphore: &Semaphore,
    pass: &mut SemPass,
    count: u64,
) -> anyhow::Result<u64>
    requires idle { IsIdle semaphore.now pass.old }
{
    let Ok(Acquired::Now(permit)) = semaphore.acquire(pass) else {
        anyhow::bail!("no permit was free");
    };
    let start = Instant::now(rt)?;
    let done = served_rounds(semaphore, pass, permit, count);
    nanoseconds_since(rt, start, done)
}

/// The nanoseconds in which so many waiters come, who all stand in line at the end. It has a
/// function of its own, since its call gets the pass by its address: beside it the pass of the
/// other rounds would lie in memory, too.
#[inline(never)]
pub fn time_waiting<R: Clock + AllocGlobal>(rt: &R, count: u64) -> anyhow::Result<u64> {
    // A segment has cells for 32 of them.
    let slots = (count / 32).min(65_000) as u32 + 16;
    let config = Config { slots, ..CONFIG };
    let Ok((semaphore, mut pass)) = Semaphore::new(rt.alloc(), 1, config) else {
        anyhow::bail!("no memory for the semaphore");
    };
    let Ok(Acquired::Now(_)) = semaphore.acquire(&mut pass) else {
        anyhow::bail!("no permit was free");
    };
    let mut waits = Vec::with_capacity(rt.alloc(), count as usize)?;
    let start = Instant::now(rt)?;
    line_up(&semaphore, &mut pass, &mut waits, count)?;
    let done = waits.len() as u64 == count;
    nanoseconds_since(rt, start, done)
}
