//! Workers, each with a thread and a pass of its own.

ghost use Rattle.std.specs.Prelude.{All, IfOk};
ghost use Rattle.cqs_sync_semaphore.specs.Callers.{IsAtRest};

use crate::counts::Counts;
use crate::working::work;
use cqs_semaphore::SemPass;
use cqs_sync_semaphore::SyncSemaphore;
use std::alloc::Global;
use std::sync::Wait;
use std::thread::{self, Threads};

/// Has so many threads make so many rounds each, with passes that are made of this one and meet it
/// again. It gives the sums of what they counted.
pub fn together<R: Threads + Wait + Sync>(
    rt: &R,
    alloc: Global,
    semaphore: &SyncSemaphore,
    pass: &mut SemPass,
    threads: u32,
    rounds: u32,
) -> anyhow::Result<Counts>
    requires rest { IsAtRest semaphore.now 0 pass.old }
    ensures rest { IfOk result (λ counts. IsAtRest semaphore.now 0 pass.new) }
{
    let passes = hire(alloc, semaphore, pass, threads)?;
    let worked = thread::map_vec(rt, passes, &|pass| work_on(rt, semaphore, pass, rounds))?;
    Ok(dismiss(semaphore, pass, worked))
}

// So many passes that hold nothing.
fn hire(
    alloc: Global,
    semaphore: &SyncSemaphore,
    pass: &mut SemPass,
    count: u32,
) -> anyhow::Result<Vec<SemPass>>
    requires rest { IsAtRest semaphore.now 0 pass.old }
    ensures rest { IsAtRest semaphore.now 0 pass.new }
    ensures hired { IfOk result (λ passes. All (IsAtRest semaphore.now 0) passes.items) }
{
    let mut passes = Vec::new(alloc);
    for _ in 0..count {
        passes.push(hire_one(semaphore, pass)?)?;
    }
    Ok(passes)
}

fn hire_one(semaphore: &SyncSemaphore, pass: &mut SemPass) -> anyhow::Result<SemPass>
    requires rest { IsAtRest semaphore.now 0 pass.old }
    ensures rest { IsAtRest semaphore.now 0 pass.new }
    ensures hired { IfOk result (λ made. IsAtRest semaphore.now 0 made) }
{
    match semaphore.split(pass) {
        Ok(made) => Ok(made),
        Err(_) => anyhow::bail!("no further pass may be made"),
    }
}

// What each thread does.
fn work_on<R: Wait>(
    rt: &R,
    semaphore: &SyncSemaphore,
    pass: SemPass,
    rounds: u32,
) -> (SemPass, Counts)
    requires rest { IsAtRest semaphore.now 0 pass }
    ensures rest { IsAtRest semaphore.now 0 result.0 }
{
    work(rt, semaphore, pass, rounds)
}

// Takes in the passes of all, and adds up what they counted.
fn dismiss(semaphore: &SyncSemaphore, pass: &mut SemPass, worked: Vec<(SemPass, Counts)>) -> Counts
    requires rest { IsAtRest semaphore.now 0 pass.old }
    requires worked { All (λ one. IsAtRest semaphore.now 0 one.0) worked.items }
    ensures rest { IsAtRest semaphore.now 0 pass.new }
{
    let mut counts = Counts::default();
    for (given, counted) in worked {
        take_in(semaphore, pass, given);
        counts = counts.with(counted);
    }
    counts
}

// Takes in a pass that holds nothing and has no wait.
fn take_in(semaphore: &SyncSemaphore, pass: &mut SemPass, given: SemPass)
    requires rest { IsAtRest semaphore.now 0 pass.old }
    requires given { IsAtRest semaphore.now 0 given }
    ensures rest { IsAtRest semaphore.now 0 pass.new }
{
    match semaphore.meet(pass, given) {
        Ok(()) => (),
        Err(_) => unreachable!(),
    }
}
