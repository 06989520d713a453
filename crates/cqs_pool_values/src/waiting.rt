//! What a caller does with a wait.

ghost use Rattle.std.specs.Prelude.{◌≡◌};
ghost use Rattle.cqs_rule_laws.specs.Crew.{IsBetween};
ghost use Rattle.cqs_rule.specs.Passes.{pass_view};
ghost use Rattle.cqs_rule.specs.Waits.{place_of, HasWait};
ghost use Rattle.cqs_rule_laws.specs.CallRule.{IsReady};
ghost use Rattle.cqs_pool_values.specs.Calls.{HasPolled, HasLeft, PolledLeaves, LeftLeaves};
ghost use Rattle.cqs_pool_values.specs.Pools.{Belongs};

use crate::answers::{ItemLeft, ItemPolled};
use crate::opening::{ValuePass, ValuePool};
use cqs_pool::{PoolLeft, PoolPolled};
use cqs_rule::Wait;
use std::sync::Wait as MayWait;

impl<T: Send + Drop> ValuePool<T> {
    /// Looks whether an element came.
    pub fn poll(&self, pass: &mut ValuePass<T>, wait: Wait) -> ItemPolled<T>
        requires belongs { Belongs self.now pass.old }
        requires ready { IsReady (pass_view pass.old).facts }
        requires has { HasWait (pass_view pass.old) wait }
        ensures belongs { Belongs self.now pass.new }
        ensures polled { HasPolled wait (pass_view pass.old) result (pass_view pass.new) }
        ensures leaves { PolledLeaves wait (pass_view pass.old) result (pass_view pass.new) }
        ensures ready { IsReady (pass_view pass.new).facts }
    {
        match self.pool.poll(pass, wait) {
            PoolPolled::Granted(element) => ItemPolled::Granted(self.take_out(pass, element)),
            PoolPolled::Pending(wait) => ItemPolled::Pending(wait),
        }
    }

    /// Parks the caller as long as it stands in the line. It may return for no reason, too, so one
    /// polls the wait after it.
    pub fn park_wait<R: MayWait>(&self, rt: &R, pass: &mut ValuePass<T>, wait: &Wait)
        requires belongs { Belongs self.now pass.old }
        requires has { HasWait (pass_view pass.old) wait.now }
        ensures same { pass.new ≡ pass.old }
    {
        self.pool.park_wait(rt, pass, wait);
    }

    /// Ends a wait: the caller leaves the line, or has the item that had come before. Where an
    /// element was left to the caller who leaves, it goes on to the next number, and its value
    /// stays in its slot.
    pub fn cancel(&self, pass: &mut ValuePass<T>, wait: Wait) -> ItemLeft<T>
        requires belongs { Belongs self.now pass.old }
        requires ready { IsReady (pass_view pass.old).facts }
        requires has { HasWait (pass_view pass.old) wait }
        ensures belongs { Belongs self.now pass.new }
        ensures left { HasLeft wait (pass_view pass.old) result (pass_view pass.new) }
        ensures leaves { LeftLeaves wait (pass_view pass.old) result (pass_view pass.new) }
        ensures between { IsBetween (pass_view pass.new).facts }
    {
        match self.pool.cancel(pass, wait) {
            PoolLeft::Cancelled(under) => ItemLeft::Cancelled(under),
            PoolLeft::TooLate(element) => ItemLeft::TooLate(self.take_out(pass, element)),
        }
    }
}
