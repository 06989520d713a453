//! How an item is put back, to the end.

ghost use Rattle.cqs_pool_values.specs.Items.{number_of};
ghost use Rattle.cqs_test_threads.specs.Workers.{IsAtRest, HasInHand, IsOwing};

use cqs_pool::Placed;
use cqs_pool_values::{Item, ValuePass, ValuePool};
use cqs_rule::Under;
use std::sync::Wait;
use std::thread;

/// Puts the item back, as soon as there is a slot for that.
pub fn give_back<R: Wait>(rt: &R, pool: &ValuePool<u64>, pass: &mut ValuePass<u64>, item: Item<u64>)
    requires has { HasInHand pool.now (number_of item) pass.old }
    ensures rest { IsAtRest pool.now pass.new }
{
    let mut item = item;
    for _ in rt.forever() {
        match pool.put(pass, item) {
            Ok(Placed::Sent(_) | Placed::Left(_)) => return,
            Ok(Placed::Under(under)) => return finish_all(rt, pool, pass, under),
            Err((back, _)) => {
                item = back;
                thread::yield_now();
            }
        }
    }
    unreachable!()
}

/// Goes on with an element that is on its way until it has arrived.
pub fn finish_all<R: Wait>(rt: &R, pool: &ValuePool<u64>, pass: &mut ValuePass<u64>, under: Under)
    requires owes { IsOwing pool.now under pass.old }
    ensures rest { IsAtRest pool.now pass.new }
{
    let mut under = under;
    for _ in rt.forever() {
        match pool.finish(pass, under) {
            Placed::Under(again) => {
                under = again;
                thread::yield_now();
            }
            Placed::Sent(_) | Placed::Left(_) => return,
        }
    }
    unreachable!()
}
