//! Rounds of a synchronous semaphore of one permit, with one pass. A step that goes otherwise than
//! it should answers that, and the rounds end.

ghost use Rattle.std.specs.Prelude.{IfSome, IsTrue, OnSome};
ghost use Rattle.cqs_sync_semaphore.specs.Callers.{IsAtRest, IsWaiting};

use crate::made::{CONFIG, Round};
use cqs_bench_rows::nanoseconds_since;
use cqs_rule::Wait;
use cqs_semaphore::{Permit, Polled, SemPass};
use cqs_sync_semaphore::{SyncAcquired, SyncReleased, SyncSemaphore};
use std::rt::Clock;
use std::time::Instant;

/// So often a release looks at a permit that it holds out. In these rounds none is held out.
const LOOKS: u32 = 16;

/// The nanoseconds of so many rounds, on a semaphore of its own.
pub fn time<R: Clock + AllocGlobal>(rt: &R, round: Round, count: u64) -> anyhow::Result<u64> {
    let Ok((semaphore, mut pass)) = SyncSemaphore::new(rt.alloc(), 1, CONFIG, LOOKS) else {
        anyhow::bail!("no memory for the semaphore");
    };
    match round {
        Round::Free => time_free(rt, &semaphore, &mut pass, count),
        Round::Served => time_served(rt, &semaphore, &mut pass, count),
    }
}

#[inline(always)]
fn time_free(
    rt: &impl Clock,
    semaphore: &SyncSemaphore,
    pass: &mut SemPass,
    count: u64,
) -> anyhow::Result<u64>
    requires rest { IsAtRest semaphore.now 0 pass.old }
{
    let start = Instant::now(rt)?;
    let done = free_rounds(semaphore, pass, count);
    nanoseconds_since(rt, start, done)
}

// The pass takes the permit before the rounds begin.
#[inline(always)]
fn time_served(
    rt: &impl Clock,
    semaphore: &SyncSemaphore,
    pass: &mut SemPass,
    count: u64,
) -> anyhow::Result<u64>
    requires rest { IsAtRest semaphore.now 0 pass.old }
{
    let Some(permit) = take(semaphore, pass) else {
        anyhow::bail!("no permit was free");
    };
    let start = Instant::now(rt)?;
    let done = served_rounds(semaphore, pass, permit, count);
    nanoseconds_since(rt, start, done)
}

// A free permit is taken and given back.
#[inline(always)]
fn free_rounds(semaphore: &SyncSemaphore, pass: &mut SemPass, count: u64) -> bool
    requires rest { IsAtRest semaphore.now 0 pass.old }
{
    for _ in 0..count {
        let Some(permit) = take(semaphore, pass) else {
            return false;
        };
        if !give_back(semaphore, pass, permit) {
            return false;
        }
    }
    true
}

// The pass that has the permit waits for it, gives it to this wait, and looks.
#[inline(always)]
fn served_rounds(semaphore: &SyncSemaphore, pass: &mut SemPass, permit: Permit, count: u64) -> bool
    requires rest { IsAtRest semaphore.now 1 pass.old }
{
    let mut permit = permit;
    for _ in 0..count {
        let Some(wait) = stand(semaphore, pass) else {
            return false;
        };
        let Some(wait) = serve(semaphore, pass, permit, wait) else {
            return false;
        };
        match look(semaphore, pass, wait) {
            Some(next) => permit = next,
            None => return false,
        }
    }
    true
}

// A permit that was free.
#[inline(always)]
fn take(semaphore: &SyncSemaphore, pass: &mut SemPass) -> Option<Permit>
    requires rest { IsAtRest semaphore.now 0 pass.old }
    ensures rest { OnSome result (IsAtRest semaphore.now 1 pass.new) }
{
    match semaphore.acquire(pass) {
        Ok(SyncAcquired::Now(permit)) => Some(permit),
        _ => None,
    }
}

// Whether the permit is free again.
#[inline(always)]
fn give_back(semaphore: &SyncSemaphore, pass: &mut SemPass, permit: Permit) -> bool
    requires rest { IsAtRest semaphore.now 1 pass.old }
    ensures rest { IsTrue result → IsAtRest semaphore.now 0 pass.new }
{
    match semaphore.release(pass, permit) {
        Ok(SyncReleased::Freed) => true,
        _ => false,
    }
}

// A wait in line, since no permit is free.
#[inline(always)]
fn stand(semaphore: &SyncSemaphore, pass: &mut SemPass) -> Option<Wait>
    requires rest { IsAtRest semaphore.now 1 pass.old }
    ensures waits { IfSome result (λ wait. IsWaiting semaphore.now 1 wait pass.new) }
{
    match semaphore.acquire(pass) {
        Ok(SyncAcquired::Later(wait)) => Some(wait),
        _ => None,
    }
}

// The wait, once the permit is sent to the line.
#[inline(always)]
fn serve(semaphore: &SyncSemaphore, pass: &mut SemPass, permit: Permit, wait: Wait) -> Option<Wait>
    requires waits { IsWaiting semaphore.now 1 wait pass.old }
    ensures waits { IfSome result (λ same. IsWaiting semaphore.now 0 same pass.new) }
{
    match semaphore.release(pass, permit) {
        Ok(SyncReleased::Sent(_)) => Some(wait),
        _ => None,
    }
}

// The permit that has come to the wait.
#[inline(always)]
fn look(semaphore: &SyncSemaphore, pass: &mut SemPass, wait: Wait) -> Option<Permit>
    requires waits { IsWaiting semaphore.now 0 wait pass.old }
    ensures rest { OnSome result (IsAtRest semaphore.now 1 pass.new) }
{
    match semaphore.poll(pass, wait) {
        Polled::Granted(permit) => Some(permit),
        Polled::Pending(_) => None,
    }
}
