//! Crews of two and of four workers, each with a thread and three passes of its own.

ghost use Rattle.std.specs.Prelude.{◌≡◌, IfOk};
ghost use Rattle.cqs_test_threads.specs.Workers.{IsAtRest, AreAtRest};

use crate::pools::worker::{Hands, work};
use cqs_pool_values::{ValuePass, ValuePool};
use std::sync::Wait;
use std::thread::{self, Threads};

/// Two workers make their rounds.
pub fn two<R: Threads + Wait + Sync>(
    rt: &R,
    pool: &ValuePool<u64>,
    first: Hands,
    second: Hands,
) -> ((Hands, u64), (Hands, u64))
    requires first { AreAtRest pool.now first }
    requires second { AreAtRest pool.now second }
    ensures first { AreAtRest pool.now result.0.0 }
    ensures second { AreAtRest pool.now result.1.0 }
{
    thread::join(rt, || work(rt, pool, first), || work(rt, pool, second))
}

/// And four.
pub fn four<R: Threads + Wait + Sync>(
    rt: &R,
    pool: &ValuePool<u64>,
    early: (Hands, Hands),
    late: (Hands, Hands),
) -> (((Hands, u64), (Hands, u64)), ((Hands, u64), (Hands, u64)))
    requires first { AreAtRest pool.now early.0 }
    requires second { AreAtRest pool.now early.1 }
    requires third { AreAtRest pool.now late.0 }
    requires fourth { AreAtRest pool.now late.1 }
    ensures first { AreAtRest pool.now result.0.0.0 }
    ensures second { AreAtRest pool.now result.0.1.0 }
    ensures third { AreAtRest pool.now result.1.0.0 }
    ensures fourth { AreAtRest pool.now result.1.1.0 }
{
    let (first, second) = early;
    let (third, fourth) = late;
    thread::join(
        rt,
        ||
            requires first { AreAtRest pool.now first }
            requires second { AreAtRest pool.now second }
        { two(rt, pool, first, second) },
        ||
            requires third { AreAtRest pool.now third }
            requires fourth { AreAtRest pool.now fourth }
        { two(rt, pool, third, fourth) },
    )
}

/// The three passes of one worker.
pub fn hire(pool: &ValuePool<u64>, pass: &mut ValuePass<u64>) -> anyhow::Result<Hands>
    requires rest { IsAtRest pool.now pass.old }
    ensures rest { IsAtRest pool.now pass.new }
    ensures hired { IfOk result (λ hands. AreAtRest pool.now hands) }
{
    let first = part(pool, pass)?;
    let second = part(pool, pass)?;
    let third = part(pool, pass)?;
    Ok((first, second, third))
}

// A new pass, which has nothing.
fn part(pool: &ValuePool<u64>, pass: &mut ValuePass<u64>) -> anyhow::Result<ValuePass<u64>>
    requires rest { IsAtRest pool.now pass.old }
    ensures rest { IsAtRest pool.now pass.new }
    ensures hired { IfOk result (λ made. IsAtRest pool.now made) }
{
    match pool.split(pass) {
        Ok(made) => Ok(made),
        Err(_) => anyhow::bail!("no further pass may be made"),
    }
}

/// Takes in the passes of a worker.
pub fn dismiss(pool: &ValuePool<u64>, pass: &mut ValuePass<u64>, hands: Hands)
    requires rest { IsAtRest pool.now pass.old }
    requires hands { AreAtRest pool.now hands }
    ensures rest { IsAtRest pool.now pass.new }
{
    let (first, second, third) = hands;
    take_in(pool, pass, first);
    take_in(pool, pass, second);
    take_in(pool, pass, third);
}

// Takes in a pass that has nothing and waits for nothing.
fn take_in(pool: &ValuePool<u64>, pass: &mut ValuePass<u64>, given: ValuePass<u64>)
    requires rest { IsAtRest pool.now pass.old }
    requires given { IsAtRest pool.now given }
    ensures rest { IsAtRest pool.now pass.new }
{
    match pool.meet(pass, given) {
        Ok(()) => (),
        Err(_) => unreachable!(),
    }
}
