//! How a wait ends: by a look that finds it served, or by a cancel.

ghost use Rattle.cqs_test_threads.specs.Workers.{IsWaiting, HasLooked, HasEnded};

use crate::pools::giving::finish_all;
use cqs_pool_values::{Item, ItemLeft, ItemPolled, ValuePass, ValuePool};
use cqs_rule::Wait;
use std::sync::Wait as MayWait;
use std::thread;

// A worker looks so often at a wait before it gives it up.
const LOOKS: u32 = 64;

// Looks at the wait until it was served, but no more than 64 times. Between two looks another
// thread may run.
fn look_on(pool: &ValuePool<u64>, pass: &mut ValuePass<u64>, wait: Wait) -> ItemPolled<u64>
    requires waits { IsWaiting pool.now wait pass.old }
    ensures looked { HasLooked pool.now result pass.new }
{
    let mut wait = wait;
    for _ in 0..LOOKS {
        match pool.poll(pass, wait) {
            ItemPolled::Granted(item) => return ItemPolled::Granted(item),
            ItemPolled::Pending(again) => {
                wait = again;
                thread::yield_now();
            }
        }
    }
    ItemPolled::Pending(wait)
}

/// Looks at the wait for a while, and then gives it up.
pub fn wait_for<R: MayWait>(
    rt: &R,
    pool: &ValuePool<u64>,
    pass: &mut ValuePass<u64>,
    wait: Wait,
) -> Option<Item<u64>>
    requires waits { IsWaiting pool.now wait pass.old }
    ensures ended { HasEnded pool.now result pass.new }
{
    match look_on(pool, pass, wait) {
        ItemPolled::Granted(item) => Some(item),
        ItemPolled::Pending(wait) => give_up(rt, pool, pass, wait),
    }
}

/// Gives the wait up. There is an item where one had come before.
pub fn give_up<R: MayWait>(
    rt: &R,
    pool: &ValuePool<u64>,
    pass: &mut ValuePass<u64>,
    wait: Wait,
) -> Option<Item<u64>>
    requires waits { IsWaiting pool.now wait pass.old }
    ensures ended { HasEnded pool.now result pass.new }
{
    match pool.cancel(pass, wait) {
        ItemLeft::Cancelled(None) => None,
        ItemLeft::Cancelled(Some(under)) => {
            finish_all(rt, pool, pass, under);
            None
        }
        ItemLeft::TooLate(item) => Some(item),
    }
}
