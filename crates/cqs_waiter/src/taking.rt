//! A call that comes back with an item of a pool.

ghost use Rattle.std.specs.Prelude.{◌≡◌, None};
ghost use Rattle.cqs_rule.specs.Passes.{pass_view};
ghost use Rattle.cqs_rule.specs.Waits.{HasWait};
ghost use Rattle.cqs_rule_laws.specs.CallRule.{IsReady};
ghost use Rattle.cqs_pool_values.specs.Pools.{Belongs};
ghost use Rattle.cqs_waiter.specs.TakeFutures.{HasItem};
ghost use Rattle.cqs_waiter.specs.Takes.{ItemArrives};

use crate::looks::Looks;
use cqs_pool_values::{Item, ItemPolled, ItemTaking, ValuePass, ValuePool};
use cqs_rule::{AcquireError, Wait};
use std::sync::Wait as MayWait;

/// Takes, and where a wait came of that, looks a while and then may sleep until an item has come.
/// The thread parks on the cell of its wait; whoever serves the wait is to wake it. It is refused
/// as `take` is, and then no wait was made.
pub fn take_wait<R: MayWait, T: Send + Drop>(
    rt: &R,
    pool: &ValuePool<T>,
    pass: &mut ValuePass<T>,
) -> Result<Item<T>, AcquireError>
    requires belongs { Belongs pool.now pass.old }
    requires ready { IsReady (pass_view pass.old).facts }
    ensures belongs { Belongs pool.now pass.new }
    ensures ready { IsReady (pass_view pass.new).facts }
    ensures arrives { ItemArrives (pass_view pass.old) None result (pass_view pass.new) }
    ensures holds { HasItem result pass.new }
{
    let mut wait = match pool.take(pass) {
        Ok(ItemTaking::Later(wait)) => wait,
        Ok(ItemTaking::Took(item)) => return Ok(item),
        Err(refused) => return Err(refused),
    };
    let mut looks = Looks::new();
    for _ in rt.forever() {
        match pool.poll(pass, wait) {
            ItemPolled::Granted(item) => return Ok(item),
            ItemPolled::Pending(again) => wait = again,
        }
        pause(rt, pool, pass, &wait, &mut looks);
    }
    unreachable!()
}

// Before the next look: a pause, or a sleep once the looks before it are used up.
fn pause<R: MayWait, T: Send + Drop>(
    rt: &R,
    pool: &ValuePool<T>,
    pass: &mut ValuePass<T>,
    wait: &Wait,
    looks: &mut Looks,
)
    requires belongs { Belongs pool.now pass.old }
    requires has { HasWait (pass_view pass.old) wait.now }
    ensures same { pass.new ≡ pass.old }
{
    if !looks.once_more() {
        pool.park_wait(rt, pass, wait);
    }
}
