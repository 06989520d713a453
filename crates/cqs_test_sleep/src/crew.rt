//! A crew of sleepers, and one who gives.

ghost use Rattle.std.specs.Prelude.{All, IfOk};
ghost use Rattle.cqs_semaphore.specs.Callers.{IsIdle};

use crate::Command;
use crate::sleeper::{give_back, sleep_all};
use cqs_rule::Config;
use cqs_semaphore::{Acquired, Permit, SemPass, Semaphore};
use std::alloc::{AllocError, Global};
use std::sync::Wait;
use std::thread::{self, Threads};

/// Before a permit is given the sleepers may run so often.
const PAUSES: u32 = 64;

/// What came of a crew.
#[derive(Clone, Copy, Drop)]
pub struct Slept {
    /// So often a permit came to a sleeper.
    pub came: u64,
    /// One pass is left.
    pub alone: bool,
    /// The state of the semaphore.
    pub state: i64,
}

/// Has a crew sleep on a semaphore of its own. At first the caller has all permits, and gives them
/// one after the other.
pub fn crew<R: Threads + Wait + Sync + AllocGlobal>(
    rt: &R,
    command: Command,
) -> anyhow::Result<Slept> {
    let config = Config {
        passes: 32,
        limit: 1 << 36,
        slots: 66,
    };
    let alloc = rt.alloc();
    let Ok((semaphore, mut pass)) = Semaphore::new(alloc, command.permits, config) else {
        anyhow::bail!("there is no such semaphore, or no memory for it");
    };
    let permits = take_all(alloc, &semaphore, &mut pass, command.permits)?;
    let passes = hire(alloc, &semaphore, &mut pass, command.threads)?;
    let (slept, mut pass) = all_at_once(rt, &semaphore, pass, permits, passes, command.rounds);
    let came = dismiss(&semaphore, &mut pass, slept?);
    Ok(Slept {
        came,
        alone: semaphore.sole(&mut pass),
        state: semaphore.state(&mut pass),
    })
}

// The sleepers sleep, while the permits are given.
fn all_at_once<R: Threads + Wait + Sync>(
    rt: &R,
    semaphore: &Semaphore,
    pass: SemPass,
    permits: Vec<Permit>,
    passes: Vec<SemPass>,
    rounds: u32,
) -> (Result<Vec<(SemPass, u64)>, AllocError>, SemPass)
    requires idle { IsIdle semaphore.now pass }
    requires sleepers { All (IsIdle semaphore.now) passes.items }
    ensures slept { IfOk result.0 (λ slept. All (λ one. IsIdle semaphore.now one.0) slept.items) }
    ensures idle { IsIdle semaphore.now result.1 }
{
    thread::join(
        rt,
        ||
            requires { All (IsIdle semaphore.now) passes.items }
        { together(rt, semaphore, passes, rounds) },
        ||
            requires { IsIdle semaphore.now pass }
        { give_all(rt, semaphore, pass, permits) },
    )
}

// Each thread sleeps in its rounds.
fn together<R: Threads + Wait + Sync>(
    rt: &R,
    semaphore: &Semaphore,
    passes: Vec<SemPass>,
    rounds: u32,
) -> Result<Vec<(SemPass, u64)>, AllocError>
    requires { All (IsIdle semaphore.now) passes.items }
    ensures { IfOk result (λ slept. All (λ one. IsIdle semaphore.now one.0) slept.items) }
{
    thread::map_vec(rt, passes, &|pass| sleep_all(rt, semaphore, pass, rounds))
}

// So many permits, which are free.
fn take_all(
    alloc: Global,
    semaphore: &Semaphore,
    pass: &mut SemPass,
    count: u32,
) -> anyhow::Result<Vec<Permit>>
    requires idle { IsIdle semaphore.now pass.old }
    ensures idle { IsIdle semaphore.now pass.new }
{
    let mut permits = Vec::new(alloc);
    for _ in 0..count {
        match semaphore.acquire(pass) {
            Ok(Acquired::Now(permit)) => permits.push(permit)?,
            _ => anyhow::bail!("a permit wasn't free"),
        }
    }
    Ok(permits)
}

// So many new passes.
fn hire(
    alloc: Global,
    semaphore: &Semaphore,
    pass: &mut SemPass,
    count: u32,
) -> anyhow::Result<Vec<SemPass>>
    requires idle { IsIdle semaphore.now pass.old }
    ensures idle { IsIdle semaphore.now pass.new }
    ensures hired { IfOk result (λ passes. All (IsIdle semaphore.now) passes.items) }
{
    let mut passes = Vec::new(alloc);
    for _ in 0..count {
        passes.push(hire_one(semaphore, pass)?)?;
    }
    Ok(passes)
}

// A new pass.
fn hire_one(semaphore: &Semaphore, pass: &mut SemPass) -> anyhow::Result<SemPass>
    requires idle { IsIdle semaphore.now pass.old }
    ensures idle { IsIdle semaphore.now pass.new }
    ensures hired { IfOk result (λ made. IsIdle semaphore.now made) }
{
    match semaphore.split(pass) {
        Ok(made) => Ok(made),
        Err(_) => anyhow::bail!("no further pass may be made"),
    }
}

// Gives the permits that the pass holds, one after the other; before each the sleepers may run.
fn give_all<R: Wait>(rt: &R, semaphore: &Semaphore, pass: SemPass, permits: Vec<Permit>) -> SemPass
    requires idle { IsIdle semaphore.now pass }
    ensures idle { IsIdle semaphore.now result }
{
    let mut pass = pass;
    for permit in permits {
        for _ in 0..PAUSES {
            thread::yield_now();
        }
        if pass.held() > 0 {
            give_back(rt, semaphore, &mut pass, permit);
        }
    }
    pass
}

// Takes the passes in again, and adds up how often a permit came to them.
fn dismiss(semaphore: &Semaphore, pass: &mut SemPass, slept: Vec<(SemPass, u64)>) -> u64
    requires idle { IsIdle semaphore.now pass.old }
    requires slept { All (λ one. IsIdle semaphore.now one.0) slept.items }
    ensures idle { IsIdle semaphore.now pass.new }
{
    let mut came = 0u64;
    for (given, times) in slept {
        take_in(semaphore, pass, given);
        came = came.saturating_add(times);
    }
    came
}

// Takes a pass in. One that waits would be refused, and left out.
fn take_in(semaphore: &Semaphore, pass: &mut SemPass, given: SemPass)
    requires idle { IsIdle semaphore.now pass.old }
    requires given { IsIdle semaphore.now given }
    ensures idle { IsIdle semaphore.now pass.new }
{
    let _ = semaphore.meet(pass, given);
}
