//! A take that is polled.

ghost use Rattle.std.specs.Prelude.{◌≡◌, ◌⊎◌, true, Some, None, IsSome, IsSomeAnd};
ghost use mathlib.Core.Logic.{◌↔◌};
ghost use Rattle.cqs_rule_laws.specs.Crew.{IsBetween};
ghost use Rattle.cqs_rule.specs.Passes.{pass_view};
ghost use Rattle.futures.specs.Poll.{IfReady, OnPending};
ghost use Rattle.futures.specs.Task.{Covers, Keeps};
ghost use Rattle.cqs_rule_laws.specs.CallRule.{IsReady};
ghost use Rattle.cqs_pool_values.specs.Pools.{Belongs};
ghost use Rattle.cqs_waiter.specs.Futures.{CanPoll, GivesUp};
ghost use Rattle.cqs_waiter.specs.TakeFutures.{CanPollTake, EndsTakeWait, GivesItem, IsOfPool, ItemLeadsTo, TakePended, WaitsInPool};
ghost use Rattle.cqs_waiter.specs.Takes.{HasItsWait, ItemBegins};

use cqs_pool::PoolClient;
use cqs_pool_object::PoolEntry;
use cqs_pool_values::{Item, ItemLeft, ItemPolled, ItemTaking, ValuePass, ValuePool};
use cqs_rule::{AcquireError, ClientWords, Kept, Wait};
use futures::task::{Context, Poll};

/// What the future comes to: its pass again, and an item, or that no further number may be drawn.
#[derive(Drop)]
pub struct TakeOutcome<T: Drop>
where
    PoolClient<Kept<T>>: ClientWords<Slot = Kept<T>, Entry = PoolEntry>,
{
    pub pass: ValuePass<T>,
    pub got: Result<Item<T>, AcquireError>,
}

/// A future that takes an item of a pool. Its first poll takes, and where a wait came of that,
/// looks at it too; each later poll looks. A poll whose look is pending asks to be polled again at
/// once, so an executor that has nothing else to do keeps its processor busy.
///
/// A future that is dropped leaves its wait in the line, and its pass is gone with it: the pool has
/// one element fewer for good, once one comes to that wait. `give_up` ends the wait and hands the
/// pass back.
///
/// Its `poll` has the contract of a `Future`, and an executor polls it as it does a lock
/// (`LockFuture`).
#[derive(Drop)]
pub struct TakeFuture<'a, T: Drop>
where
    PoolClient<Kept<T>>: ClientWords<Slot = Kept<T>, Entry = PoolEntry>,
{
    pool: &'a ValuePool<T>,
    pass: Option<ValuePass<T>>,
    wait: Option<Wait>,
}

impl<'a, T: Send + Drop> TakeFuture<'a, T> {
    /// A future that hasn't begun. The pass comes back with what it took.
    pub fn new(pool: &'a ValuePool<T>, pass: ValuePass<T>) -> TakeFuture<'a, T>
        requires belongs { Belongs pool.now pass }
        requires ready { IsReady (pass_view pass).facts }
        ensures can_poll { CanPollTake result }
        ensures pool { result.pool.now ≡ pool.now }
        ensures pass { result.pass ≡ Some pass }
        ensures no_wait { result.wait ≡ None }
    {
        TakeFuture {
            pool,
            pass: Some(pass),
            wait: None,
        }
    }

    /// Takes or looks. It is pending where the look was, or an earlier poll was ready.
    pub fn poll(&mut self, cx: &mut Context<'_>) -> Poll<TakeOutcome<T>>
        requires can_poll { CanPollTake self.old }
        ensures value { IfReady result (GivesItem self.old) }
        ensures again { OnPending result (CanPollTake self.new) }
        ensures same { OnPending result (ItemLeadsTo self.old self.new) }
        ensures registered { OnPending result (Covers cx.new (λ _. ⊥)) }
        ensures kept { Keeps cx.old cx.new }
        ensures pending { (result ≡ Poll.Pending)
            ↔ ((self.old.pass ≡ None) ⊎ TakePended self.old self.new) }
        ensures yields { OnPending result (cx.new.is_woken ≡ true) }
    {
        let Some(mut pass) = self.pass.take() else {
            return cx.yield_now();
        };
        let wait = match begin(self.pool, &mut pass, self.wait.take()) {
            Ok(ItemTaking::Later(wait)) => wait,
            Ok(ItemTaking::Took(item)) => {
                let got = Ok(item);
                return Poll::Ready(TakeOutcome { pass, got });
            }
            Err(refused) => {
                let got = Err(refused);
                return Poll::Ready(TakeOutcome { pass, got });
            }
        };
        match self.pool.poll(&mut pass, wait) {
            ItemPolled::Granted(item) => {
                let got = Ok(item);
                Poll::Ready(TakeOutcome { pass, got })
            }
            ItemPolled::Pending(wait) => {
                self.pass = Some(pass);
                self.wait = Some(wait);
                cx.yield_now()
            }
        }
    }

    /// Ends the wait, if there is one, and hands the pass back.
    pub fn give_up(self) -> (ValuePass<T>, Option<ItemLeft<T>>)
        requires not_ready { IsSome self.pass }
        requires can_poll { CanPollTake self }
        ensures belongs { Belongs self.entry.pool.now result.0 }
        ensures between { IsBetween (pass_view result.0).facts }
        ensures gave_up { IsSomeAnd self.entry.pass
            (λ pass. GivesUp EndsTakeWait pass self.entry.wait result.0 result.1) }
        ensures none { (result.1 ≡ None) ↔ (self.entry.wait ≡ None) }
    {
        let TakeFuture { pool, pass, wait } = self;
        let Some(mut pass) = pass else { unreachable!() };
        match wait {
            None => (pass, None),
            Some(wait) => {
                let answer = pool.cancel(&mut pass, wait);
                (pass, Some(answer))
            }
        }
    }
}

// The wait that the future has, or what its take gets.
#[tactic(auto, using(crate::proofs::ItemWaits::take_begins))]
fn begin<T: Send + Drop>(
    pool: &ValuePool<T>,
    pass: &mut ValuePass<T>,
    wait: Option<Wait>,
) -> Result<ItemTaking<T>, AcquireError>
    requires can_poll { CanPoll (IsOfPool pool.now) WaitsInPool (Some pass.old) wait }
    ensures belongs { Belongs pool.now pass.new }
    ensures ready { IsReady (pass_view pass.new).facts }
    ensures begins { ItemBegins (pass_view pass.old) wait result (pass_view pass.new) }
    ensures waits { HasItsWait result (pass_view pass.new) }
{
    match wait {
        Some(wait) => Ok(ItemTaking::Later(wait)),
        None => pool.take(pass),
    }
}
