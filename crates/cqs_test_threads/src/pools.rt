//! Threads count on the values of a pool, which are plain numbers and no atomics: crews of two and
//! of four threads on four values, each thread with three passes. Many of their waits are given up,
//! and the values add up to what was taken all the same.

ghost use Rattle.std.specs.Prelude.{◌≡◌, IfOk};
ghost use Rattle.cqs_rule.specs.Passes.{pass_view};
ghost use Rattle.cqs_rule_laws.specs.CallRule.{IsReady};
ghost use Rattle.cqs_test_threads.specs.Workers.{IsAtRest};
ghost use Rattle.cqs_pool_values.specs.Pools.{Belongs};

mod crew;
mod giving;
mod waiting;
mod worker;

use crate::pools::crew::{dismiss, four, hire, two};
use crate::pools::worker::ROUNDS;
use cqs_pool_values::{ItemTaking, ValuePass, ValuePool};
use cqs_rule::Config;
use std::alloc::Global;
use std::sync::Wait;
use std::thread::Threads;

/// So many values there are.
const VALUES: u32 = 4;

/// Three passes for each of four threads, and one for the caller.
const PASSES: u32 = 13;

/// The fewest slots for so many passes and values: they are used again.
const CONFIG: Config = Config {
    passes: PASSES,
    limit: 1 << 36,
    slots: 2 * PASSES + 2 + VALUES / 32 + 1,
};

/// A pool of zeros, and its first pass.
fn open(alloc: Global) -> anyhow::Result<(ValuePool<u64>, ValuePass<u64>)>
    ensures rest { IfOk result (λ made. IsAtRest made.0 made.1) }
{
    let mut values = Vec::new(alloc);
    for _ in 0..VALUES {
        values.push(0u64)?;
    }
    match ValuePool::new(alloc, values, CONFIG) {
        Ok(made) => Ok(made),
        Err(_) => anyhow::bail!("no memory for the pool"),
    }
}

/// A crew of two counts on a pool of its own.
fn run_two<R: Threads + Wait + Sync + Print + AllocGlobal>(rt: &R) -> anyhow::Result<()> {
    let (pool, mut pass) = open(rt.alloc())?;
    let first = hire(&pool, &mut pass)?;
    let second = hire(&pool, &mut pass)?;
    let ((first, one), (second, other)) = two(rt, &pool, first, second);
    dismiss(&pool, &mut pass, first);
    dismiss(&pool, &mut pass, second);
    tell(rt, &pool, &mut pass, 2, one.wrapping_add(other))
}

/// A crew of four does.
fn run_four<R: Threads + Wait + Sync + Print + AllocGlobal>(rt: &R) -> anyhow::Result<()> {
    let (pool, mut pass) = open(rt.alloc())?;
    let first = hire(&pool, &mut pass)?;
    let second = hire(&pool, &mut pass)?;
    let third = hire(&pool, &mut pass)?;
    let fourth = hire(&pool, &mut pass)?;
    let (((first, a), (second, b)), ((third, c), (fourth, d))) = four(
        rt,
        &pool,
        (first, second),
        (third, fourth),
    );
    dismiss(&pool, &mut pass, first);
    dismiss(&pool, &mut pass, second);
    dismiss(&pool, &mut pass, third);
    dismiss(&pool, &mut pass, fourth);
    let taken = a.wrapping_add(b).wrapping_add(c).wrapping_add(d);
    tell(rt, &pool, &mut pass, 4, taken)
}

/// Prints what is sure of a crew of so many that took so many items.
fn tell<R: Print>(
    rt: &R,
    pool: &ValuePool<u64>,
    pass: &mut ValuePass<u64>,
    threads: u32,
    taken: u64,
) -> anyhow::Result<()>
    requires rest { IsAtRest pool.now pass.old }
{
    let alone = pool.sole(pass);
    let (free, sum) = take_all(pool, pass);
    println!(rt; "{threads} threads made {ROUNDS} rounds each, on {VALUES} values")?;
    println!(rt; "some were taken: {}", taken > 0)?;
    println!(rt; "the values add up to what was taken: {}", sum == taken)?;
    println!(rt; "one pass is left: {alone}")?;
    println!(rt; "values in the pool at the end: {free}")?;
    Ok(())
}

// How many items the pass has at once, and the sum of their values.
fn take_all(pool: &ValuePool<u64>, pass: &mut ValuePass<u64>) -> (u32, u64)
    requires belongs { Belongs pool.now pass.old }
    requires ready { IsReady (pass_view pass.old).facts }
{
    let mut free = 0u32;
    let mut sum = 0u64;
    for _taken in 0..VALUES {
        if let Ok(ItemTaking::Took(item)) = pool.take(pass) {
            free = free.saturating_add(1);
            sum = sum.wrapping_add(*item.get());
        }
    }
    (free, sum)
}

/// A crew of two counts, and then one of four.
pub fn run_pools<R: Threads + Wait + Sync + Print + AllocGlobal>(rt: &R) -> anyhow::Result<()> {
    run_two(rt)?;
    run_four(rt)
}
