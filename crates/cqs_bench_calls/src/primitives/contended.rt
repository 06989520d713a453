//! Threads that contend for the permits of one semaphore, each with a pass of its own.

ghost use Rattle.std.specs.Prelude.{All, IfOk, IfSome, IsTrue};
ghost use Rattle.cqs_rule.specs.Passes.{pass_view};
ghost use Rattle.cqs_rule.specs.Waits.{HasWait};
ghost use Rattle.cqs_semaphore.specs.Callers.{IsIdle, IsHolder};

use crate::primitives::waiting::{Waiting, work};
use cqs_bench_rows::nanoseconds_since;
use cqs_rule::{Config, Wait};
use cqs_semaphore::{Acquired, Permit, Polled, Released, SemPass, Semaphore};
use cqs_waiter::{Looks, acquire_wait};
use std::alloc::Global;
use std::rt::Clock;
use std::sync::Wait as MayWait;
use std::thread::{self, Threads};
use std::time::Instant;

/// One pass for each thread and one besides, and as many waits as a queue may have, on slots for
/// those who wait at once.
const CONFIG: Config = Config {
    passes: 5,
    limit: 1 << 36,
    slots: 32,
};

// Looks at the wait until it was served.
#[inline(always)]
fn look_on(semaphore: &Semaphore, pass: &mut SemPass, wait: Wait) -> Option<Permit>
    requires idle { IsIdle semaphore.now pass.old }
    requires has { HasWait (pass_view pass.old) wait }
    ensures holder { IfSome result (λ _. IsHolder semaphore.now pass.new) }
{
    let mut wait = wait;
    let mut looks = Looks::new();
    for _ in 0..u64::MAX {
        match semaphore.poll(pass, wait) {
            Polled::Granted(permit) => return Some(permit),
            Polled::Pending(again) => wait = again,
        }
        looks.go_on();
    }
    None
}

// Acquires, and waits by looks if no permit is free.
#[inline(always)]
fn seek(semaphore: &Semaphore, pass: &mut SemPass) -> Option<Permit>
    requires idle { IsIdle semaphore.now pass.old }
    ensures holder { IfSome result (λ _. IsHolder semaphore.now pass.new) }
{
    match semaphore.acquire(pass) {
        Ok(Acquired::Now(permit)) => Some(permit),
        Ok(Acquired::Later(wait)) => look_on(semaphore, pass, wait),
        Err(_) => None,
    }
}

// Acquires, and waits so if no permit is free.
#[inline(always)]
fn seek_so<R: MayWait>(
    rt: &R,
    semaphore: &Semaphore,
    pass: &mut SemPass,
    waiting: Waiting,
) -> Option<Permit>
    requires idle { IsIdle semaphore.now pass.old }
    ensures holder { IfSome result (λ _. IsHolder semaphore.now pass.new) }
{
    match waiting {
        Waiting::Looks => seek(semaphore, pass),
        Waiting::Sleeps => match acquire_wait(rt, semaphore, pass) {
            Ok(permit) => Some(permit),
            Err(_) => None,
        },
    }
}

// Gives the permit back. It answers whether it is free, or went to the first of the line.
#[inline(always)]
fn give_back(semaphore: &Semaphore, pass: &mut SemPass, permit: Permit) -> bool
    requires holder { IsHolder semaphore.now pass.old }
    ensures idle { IsTrue result → IsIdle semaphore.now pass.new }
{
    match semaphore.release(pass, permit) {
        Ok(Released::Freed) | Ok(Released::Sent(_)) | Ok(Released::Left(_)) => true,
        _ => false,
    }
}

// So many rounds in which a permit is acquired, worked with, and given back. It answers what the
// work came to, if each round went as it should.
fn contend<R: MayWait>(
    rt: &R,
    semaphore: &Semaphore,
    pass: SemPass,
    rounds: u64,
    waiting: Waiting,
) -> Option<u64>
    requires idle { IsIdle semaphore.now pass }
{
    let mut pass = pass;
    let mut word = 1;
    for _ in 0..rounds {
        let Some(permit) = seek_so(rt, semaphore, &mut pass, waiting) else {
            return None;
        };
        word = work(word);
        if !give_back(semaphore, &mut pass, permit) {
            return None;
        }
    }
    Some(word)
}

// So many new passes.
fn hire(
    alloc: Global,
    semaphore: &Semaphore,
    pass: &mut SemPass,
    count: u32,
) -> anyhow::Result<Vec<SemPass>>
    requires idle { IsIdle semaphore.now pass.old }
    ensures hired { IfOk result (λ passes. All (IsIdle semaphore.now) passes.items) }
{
    let mut passes = Vec::new(alloc);
    for _ in 0..count {
        passes.push(hire_one(semaphore, pass)?)?;
    }
    Ok(passes)
}

// A new pass.
fn hire_one(semaphore: &Semaphore, pass: &mut SemPass) -> anyhow::Result<SemPass>
    requires idle { IsIdle semaphore.now pass.old }
    ensures idle { IsIdle semaphore.now pass.new }
    ensures hired { IfOk result (λ made. IsIdle semaphore.now made) }
{
    match semaphore.split(pass) {
        Ok(made) => Ok(made),
        Err(_) => anyhow::bail!("no further pass may be made"),
    }
}

/// The nanoseconds of so many rounds that so many threads share, on a semaphore of their own.
#[inline(never)]
pub fn time_crew<R: Clock + Threads + MayWait + Sync + AllocGlobal>(
    rt: &R,
    threads: u32,
    waiting: Waiting,
    count: u64,
) -> anyhow::Result<u64> {
    let Ok((semaphore, mut pass)) = Semaphore::new(rt.alloc(), 1, CONFIG) else {
        anyhow::bail!("no memory for the semaphore");
    };
    let passes = hire(rt.alloc(), &semaphore, &mut pass, threads)?;
    let rounds = count / u64::from(threads.max(1));
    let start = Instant::now(rt)?;
    let words = thread::map_vec(
        rt,
        passes,
        &|pass| { contend(rt, &semaphore, pass, rounds, waiting) },
    )?;
    let done = words.iter().all(|word| word.is_some_and(|word| word != 0));
    nanoseconds_since(rt, start, done)
}
