//! What a worker does, round for round.

ghost use Rattle.std.specs.Prelude.{◌<◌};
ghost use Rattle.cqs_rule.specs.Passes.{pass_view};
ghost use Rattle.cqs_sync_semaphore.specs.Callers.{IsAtRest, IsWaiting};
ghost use Rattle.cqs_test_sync.specs.Callers.{held_by, HasPassed};

use crate::counts::{Counts, count};
use crate::giving::give_back;
use cqs_rule::Wait;
use cqs_semaphore::{Permit, Polled, SemPass};
use cqs_sync_semaphore::{SyncAcquired, SyncLeft, SyncSemaphore};
use std::sync::Wait as MayWait;
use std::thread;

// A worker looks so often at its wait before it gives the wait up.
const LOOKS: u32 = 16;

/// Makes so many rounds: in each the worker acquires, and gives back what came.
pub fn work<R: MayWait>(
    rt: &R,
    semaphore: &SyncSemaphore,
    pass: SemPass,
    rounds: u32,
) -> (SemPass, Counts)
    requires rest { IsAtRest semaphore.now 0 pass }
    ensures rest { IsAtRest semaphore.now 0 result.0 }
{
    let mut pass = pass;
    let mut counts = Counts::default();
    for _ in 0..rounds {
        make_round(rt, semaphore, &mut pass, &mut counts);
    }
    (pass, counts)
}

fn make_round<R: MayWait>(
    rt: &R,
    semaphore: &SyncSemaphore,
    pass: &mut SemPass,
    counts: &mut Counts,
)
    requires rest { IsAtRest semaphore.now (held_by pass.old) pass.old }
    ensures rest { IsAtRest semaphore.now (held_by pass.old) pass.new }
{
    if let Some(permit) = seek(semaphore, pass, counts) {
        thread::yield_now();
        give_back(rt, semaphore, pass, permit, counts);
    }
}

// A permit, or none where the wait was given up, the number was broken, or no slot was free.
fn seek(semaphore: &SyncSemaphore, pass: &mut SemPass, counts: &mut Counts) -> Option<Permit>
    requires rest { IsAtRest semaphore.now (held_by pass.old) pass.old }
    ensures passed { HasPassed semaphore.now (held_by pass.old) result pass.new }
{
    match semaphore.acquire(pass) {
        Ok(SyncAcquired::Now(permit)) => Some(permit),
        Ok(SyncAcquired::Later(wait)) => wait_for(semaphore, pass, wait),
        Ok(SyncAcquired::Broke(_)) => {
            count(&mut counts.found_broken);
            None
        }
        Err(_) => None,
    }
}

// Looks at the wait for a while, and then gives it up.
fn wait_for(semaphore: &SyncSemaphore, pass: &mut SemPass, wait: Wait) -> Option<Permit>
    requires waits { IsWaiting semaphore.now (held_by pass.old) wait pass.old }
    ensures passed { HasPassed semaphore.now (held_by pass.old) result pass.new }
{
    let mut wait = wait;
    for _ in 0..LOOKS {
        match semaphore.poll(pass, wait) {
            Polled::Granted(permit) => return Some(permit),
            Polled::Pending(again) => wait = again,
        }
        thread::yield_now();
    }
    match semaphore.cancel(pass, wait) {
        SyncLeft::Cancelled => None,
        SyncLeft::TooLate(permit) => Some(permit),
    }
}
