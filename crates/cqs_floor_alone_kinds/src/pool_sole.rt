//! A pool of the running queue with its one pass, as a resource of a floor.

ghost use Rattle.std.specs.Prelude.{◌≡◌, ◌⊎◌, ◌<◌, ◌≤◌, [], IfOk, Some, true};
ghost use Rattle.cqs_plan.specs.declared.plans.kind.Kind.TheVariants as kind;
ghost use Rattle.cqs_plan.specs.Floor.{size_of};
ghost use Rattle.cqs_pool.specs.Alone.{CanEnd};
ghost use Rattle.cqs_pool.specs.Answers.{IsInHand};
ghost use Rattle.cqs_rule_laws.specs.CallRule.{IsReady};
ghost use Rattle.cqs_pool.specs.Calls.{IsMine, plain_after};
ghost use Rattle.cqs_pool.specs.Elements.{number_of};
ghost use Rattle.cqs_rule.specs.Owed.{HasUnder, under_payload};
ghost use Rattle.cqs_rule.specs.Passes.{ample_of, pass_view};
ghost use Rattle.cqs_floor_alone_kinds.specs.PoolEnds.{HasEnded, HasPlaced};
ghost use Rattle.cqs_floor_alone_kinds.specs.PoolKinds.{IsPool};

use crate::sole_resource::{Left, Looked, Taken};
use cqs_core::Memory;
use cqs_floor_common::{HeldElement, take_out};
use cqs_plan::{FloorEnd, FloorGive, Kind};
use cqs_pool::{Element, Placed, Pool, PoolLeft, PoolPass, PoolPolled, Taking};
use cqs_rule::{Config, MakeError, Place, Under};
use std::alloc::Global;

/// A pool, its one pass, what the jobs hold of it, oldest first, and how many elements are free and
/// how many waits stand in the line.
#[derive(Drop)]
pub struct PoolSole {
    pub pool: Pool,
    pub pass: PoolPass,
    pub held: Vec<HeldElement>,
    pub free: u32,
    pub line: u32,
    // Its table has slots for all segments that can be wanted, so none of its calls is crowded.
    pub ghost ample_is: { ample_of pool.queue ≡ true },
}

impl PoolSole {
    ghost use Rattle.cqs_floor_alone_kinds.specs.Stores.{IsOpened};
    ghost use Rattle.cqs_floor_alone_kinds.specs.SolePool.{store_pool};

    /// A pool with so many elements, all of them free, and room for so many takes.
    pub fn open(alloc: Global, elements: u32, takes: u32) -> Result<Self, Memory>
        requires some { 0 < elements }
        requires few { elements ≤ 4096 }
        requires few_takes { takes ≤ 524288 }
        ensures { IfOk result (IsOpened store_pool (kind.Pool elements) takes) }
    {
        let config = Config {
            passes: 1,
            limit: u64::from(takes) + 1,
            slots: takes / 32 + elements / 32 + 8,
        };
        let (pool, pass) = match Pool::ample(alloc, elements, config) {
            Ok(made) => made,
            Err(MakeError::Memory) => return Err(Memory),
            Err(MakeError::BadConfig) => unreachable!(),
        };
        Ok(PoolSole {
            pool,
            pass,
            held: Vec::with_capacity(alloc, takes as usize)?,
            free: elements,
            line: 0,
        })
    }
}

impl PoolSole {
    ghost use Rattle.cqs_floor_alone_kinds.specs.Stores as stores;
    ghost use Rattle.cqs_floor_alone_kinds.specs.SolePool.{store_pool};

    /// The job takes what is free first, or else waits at the end of the line.
    pub fn take(&mut self, job: u32) -> Taken
        requires { stores.CanAcquire store_pool job self.old }
        ensures { stores.Acquires store_pool job self.old result self.new }
    {
        match self.pool.take(&mut self.pass) {
            Ok(Taking::Took(element)) => {
                let number = element.number();
                self.held.push_reserved(HeldElement { job, element });
                self.free -= 1;
                Taken::Now(number)
            }
            Ok(Taking::Later(wait)) => {
                self.line += 1;
                Taken::Waits(self.pool.queue().spend_wait(&mut self.pass, wait))
            }
            Err(_) => unreachable!(),
        }
    }

    /// The job gives back the oldest that it holds, to the first of the line if somebody waits.
    pub fn give(&mut self, job: u32) -> FloorGive
        requires { stores.CanRelease store_pool job self.old }
        ensures { stores.Releases store_pool job self.old result self.new }
    {
        let element = take_out(&mut self.held, job);
        let number = element.number();
        match put(&self.pool, &mut self.pass, element) {
            Some(wait) => {
                self.line -= 1;
                FloorGive::Sent(number, wait)
            }
            None => {
                self.free += 1;
                FloorGive::Free(number)
            }
        }
    }

    /// The job looks at its wait.
    pub fn look(&mut self, job: u32, _round: u32, wait: Place) -> Looked
        requires { stores.CanEnd store_pool job _round wait self.old }
        ensures { stores.Polls store_pool job self.old _round wait result self.new }
    {
        let token = self.pool.queue().wait_of(&mut self.pass, wait);
        match self.pool.poll(&mut self.pass, token) {
            PoolPolled::Pending(_) => Looked::Pending,
            PoolPolled::Granted(element) => {
                let number = element.number();
                self.held.push_reserved(HeldElement { job, element });
                Looked::Got(number)
            }
        }
    }

    /// The job gives its wait up.
    pub fn leave(&mut self, job: u32, _round: u32, wait: Place) -> Left
        requires { stores.CanEnd store_pool job _round wait self.old }
        ensures { stores.Cancels store_pool job self.old _round wait result self.new }
    {
        let token = self.pool.queue().wait_of(&mut self.pass, wait);
        match self.pool.cancel(&mut self.pass, token) {
            PoolLeft::Cancelled(None) => {
                self.line -= 1;
                Left::Gone
            }
            // Nobody leaves an element to a pass that is alone.
            PoolLeft::Cancelled(Some(_)) => unreachable!(),
            PoolLeft::TooLate(element) => {
                let number = element.number();
                self.held.push_reserved(HeldElement { job, element });
                Left::Late(number)
            }
        }
    }

    /// How it stands.
    pub fn end(&mut self, kind: Kind) -> FloorEnd
        requires { stores.CanTell store_pool kind self.old }
        ensures { stores.Tells store_pool kind self.old result self.new }
    {
        FloorEnd::Permits {
            free: self.free,
            held: elements(kind) - self.free,
            line: self.line,
        }
    }
}

/// How many elements there are of a pool.
fn elements(kind: Kind) -> u32
    requires { IsPool (Some kind) }
    ensures { result ≡ size_of (Some kind) }
{
    match kind {
        Kind::Pool(elements) => elements,
        Kind::Semaphore(_) | Kind::Mutex | Kind::Latch(_) | Kind::Rounds { .. } => unreachable!(),
    }
}

/// Puts an element back, and answers the number of the wait that it was sent to, if somebody waits.
fn put(pool: &Pool, pass: &mut PoolPass, element: Element) -> Option<u64>
    requires ample { ample_of pool.now.queue ≡ true }
    requires mine { IsMine pool.now pass.old }
    requires ready { IsReady (pass_view pass.old).facts }
    requires has { IsInHand (number_of element) (pass_view pass.old).facts }
    requires alone { (pass_view pass.old).alone ≡ true }
    requires still { ((plain_after (pass_view pass.old)).way ≡ [])
        ⊎ ((plain_after (pass_view pass.old)).line ≡ []) }
    ensures mine { IsMine pool.now pass.new }
    ensures placed { HasPlaced (number_of element) result (pass_view pass.old)
        (pass_view pass.new) }
{
    match pool.put(pass, element) {
        Ok(Placed::Sent(wait)) => Some(wait),
        Ok(Placed::Left(_)) => None,
        Ok(Placed::Under(under)) => finish(pool, pass, under),
        Err(_) => unreachable!(),
    }
}

/// Goes on with an element that is on its way, until that ends.
#[cold]
#[inline(never)]
fn finish(pool: &Pool, pass: &mut PoolPass, under: Under) -> Option<u64>
    requires ample { ample_of pool.now.queue ≡ true }
    requires mine { IsMine pool.now pass.old }
    requires owes { HasUnder (pass_view pass.old).facts under }
    requires further { (pass_view pass.old).facts.has.further ≡ 0 }
    requires alone { (pass_view pass.old).alone ≡ true }
    requires end { CanEnd (plain_after (pass_view pass.old)) }
    ensures mine { IsMine pool.now pass.new }
    ensures ended { HasEnded (under_payload under) result (pass_view pass.old)
        (pass_view pass.new) }
{
    let mut reached = under.reached();
    let mut under = under;
    loop {
        match pool.finish(pass, under) {
            Placed::Sent(number) => return Some(number),
            Placed::Left(_) => return None,
            Placed::Under(next) => {
                reached = next.reached();
                under = next;
            }
        }
    }
}
