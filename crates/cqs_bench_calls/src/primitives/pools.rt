//! Rounds of a pool of four numbers: with one pass, and by threads that each have a pass of their
//! own.

ghost use Rattle.std.specs.Prelude.{All, IfOk, IfSome, IsTrue};
ghost use Rattle.cqs_rule.specs.Passes.{pass_view};
ghost use Rattle.cqs_rule.specs.Waits.{HasWait};
ghost use Rattle.cqs_pool_values.specs.Items.{number_of};
ghost use Rattle.cqs_bench_calls.specs.Idle.{IsIdleAtPool, HasInHand};

use crate::primitives::waiting::{Waiting, work};
use cqs_bench_rows::nanoseconds_since;
use cqs_pool::Placed;
use cqs_pool_values::{Item, ItemPolled, ItemTaking, ValuePass, ValuePool};
use cqs_rule::{Config, Wait};
use cqs_waiter::{Looks, take_wait};
use std::alloc::Global;
use std::rt::Clock;
use std::sync::Wait as MayWait;
use std::thread::{self, Threads};
use std::time::Instant;

/// So many elements.
const ELEMENTS: u32 = 4;

/// A pass for each of eight threads and one besides, and as many takes as a queue may have, on
/// slots for those who wait at once.
const CONFIG: Config = Config {
    passes: 9,
    limit: 1 << 36,
    slots: 64,
};

// Looks at the wait until it was served.
#[inline(always)]
#[tactic(auto, using(crate::proofs::InHand::in_hand))]
fn look_on(pool: &ValuePool<u64>, pass: &mut ValuePass<u64>, wait: Wait) -> Option<Item<u64>>
    requires idle { IsIdleAtPool pool.now pass.old }
    requires has { HasWait (pass_view pass.old) wait }
    ensures came { IfSome result (λ item. HasInHand pool.now (number_of item) pass.new) }
{
    let mut wait = wait;
    let mut looks = Looks::new();
    for _ in 0..u64::MAX {
        match pool.poll(pass, wait) {
            ItemPolled::Granted(item) => return Some(item),
            ItemPolled::Pending(again) => wait = again,
        }
        looks.go_on();
    }
    None
}

// Takes an item, and waits by looks if none is free.
#[inline(always)]
#[tactic(auto, using(crate::proofs::InHand::in_hand))]
fn seek(pool: &ValuePool<u64>, pass: &mut ValuePass<u64>) -> Option<Item<u64>>
    requires idle { IsIdleAtPool pool.now pass.old }
    ensures came { IfSome result (λ item. HasInHand pool.now (number_of item) pass.new) }
{
    match pool.take(pass) {
        Ok(ItemTaking::Took(item)) => Some(item),
        Ok(ItemTaking::Later(wait)) => look_on(pool, pass, wait),
        Err(_) => None,
    }
}

// Takes an item, and waits so if none is free.
#[inline(always)]
fn seek_so<R: MayWait>(
    rt: &R,
    pool: &ValuePool<u64>,
    pass: &mut ValuePass<u64>,
    waiting: Waiting,
) -> Option<Item<u64>>
    requires idle { IsIdleAtPool pool.now pass.old }
    ensures came { IfSome result (λ item. HasInHand pool.now (number_of item) pass.new) }
{
    match waiting {
        Waiting::Looks => seek(pool, pass),
        Waiting::Sleeps => match take_wait(rt, pool, pass) {
            Ok(item) => Some(item),
            Err(_) => None,
        },
    }
}

// Puts the item back. It answers whether it is free, or went to the first of the line.
#[inline(always)]
fn give_back(pool: &ValuePool<u64>, pass: &mut ValuePass<u64>, item: Item<u64>) -> bool
    requires has { HasInHand pool.now (number_of item) pass.old }
    ensures idle { IsTrue result → IsIdleAtPool pool.now pass.new }
{
    matches!(pool.put(pass, item), Ok(Placed::Sent(_) | Placed::Left(_)))
}

// So many rounds in which an item is taken and put back, with one pass.
#[inline(always)]
fn free_rounds(pool: &ValuePool<u64>, pass: &mut ValuePass<u64>, count: u64) -> bool
    requires idle { IsIdleAtPool pool.now pass.old }
{
    for _ in 0..count {
        let Some(item) = seek(pool, pass) else {
            return false;
        };
        if !give_back(pool, pass, item) {
            return false;
        }
    }
    true
}

// So many rounds in which an item is taken, worked with, and put back. It answers what the work
// came to, if each round went as it should.
fn contend<R: MayWait>(
    rt: &R,
    pool: &ValuePool<u64>,
    pass: ValuePass<u64>,
    rounds: u64,
    waiting: Waiting,
) -> Option<u64>
    requires idle { IsIdleAtPool pool.now pass }
{
    let mut pass = pass;
    let mut word = 1;
    for _ in 0..rounds {
        let Some(item) = seek_so(rt, pool, &mut pass, waiting) else {
            return None;
        };
        word = work(word);
        if !give_back(pool, &mut pass, item) {
            return None;
        }
    }
    Some(word)
}

// A pool of zeros, and its first pass.
fn open(alloc: Global) -> anyhow::Result<(ValuePool<u64>, ValuePass<u64>)>
    ensures idle { IfOk result (λ made. IsIdleAtPool made.0 made.1) }
{
    let mut values = Vec::new(alloc);
    for _ in 0..ELEMENTS {
        values.push(0u64)?;
    }
    match ValuePool::new(alloc, values, CONFIG) {
        Ok(made) => Ok(made),
        Err(_) => anyhow::bail!("no memory for the pool"),
    }
}

// A new pass.
fn hire_one(pool: &ValuePool<u64>, pass: &mut ValuePass<u64>) -> anyhow::Result<ValuePass<u64>>
    requires idle { IsIdleAtPool pool.now pass.old }
    ensures idle { IsIdleAtPool pool.now pass.new }
    ensures hired { IfOk result (λ made. IsIdleAtPool pool.now made) }
{
    match pool.split(pass) {
        Ok(made) => Ok(made),
        Err(_) => anyhow::bail!("no further pass may be made"),
    }
}

// So many new passes.
fn hire(
    alloc: Global,
    pool: &ValuePool<u64>,
    pass: &mut ValuePass<u64>,
    count: u32,
) -> anyhow::Result<Vec<ValuePass<u64>>>
    requires idle { IsIdleAtPool pool.now pass.old }
    ensures hired { IfOk result (λ passes. All (IsIdleAtPool pool.now) passes.items) }
{
    let mut passes = Vec::new(alloc);
    for _ in 0..count {
        passes.push(hire_one(pool, pass)?)?;
    }
    Ok(passes)
}

/// The nanoseconds of so many rounds with one pass.
pub fn time_free<R: Clock + AllocGlobal>(rt: &R, count: u64) -> anyhow::Result<u64> {
    let (pool, mut pass) = open(rt.alloc())?;
    let start = Instant::now(rt)?;
    let done = free_rounds(&pool, &mut pass, count);
    nanoseconds_since(rt, start, done)
}

// Has a thread for each pass make so many rounds. It answers whether all went as they should.
fn contend_all<R: Threads + MayWait + Sync>(
    rt: &R,
    pool: &ValuePool<u64>,
    passes: Vec<ValuePass<u64>>,
    rounds: u64,
    waiting: Waiting,
) -> bool
    requires idle { All (IsIdleAtPool pool.now) passes.items }
{
    let made = thread::map_vec(
        rt,
        passes,
        &|pass: ValuePass<u64>| -> Option<u64>
            requires { IsIdleAtPool pool.now pass }
        { contend(rt, pool, pass, rounds, waiting) },
    );
    match made {
        Ok(words) => words.iter().all(|word| word.is_some_and(|word| word != 0)),
        Err(_) => false,
    }
}

/// The nanoseconds of so many rounds that so many threads share, on a pool of their own.
#[inline(never)]
pub fn time_crew<R: Clock + Threads + MayWait + Sync + AllocGlobal>(
    rt: &R,
    threads: u32,
    waiting: Waiting,
    count: u64,
) -> anyhow::Result<u64> {
    let (pool, mut pass) = open(rt.alloc())?;
    let passes = hire(rt.alloc(), &pool, &mut pass, threads)?;
    let rounds = count / u64::from(threads.max(1));
    let start = Instant::now(rt)?;
    let done = contend_all(rt, &pool, passes, rounds, waiting);
    nanoseconds_since(rt, start, done)
}
