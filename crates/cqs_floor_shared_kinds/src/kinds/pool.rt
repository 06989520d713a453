//! A pool of the running queue, and the pass of one worker, as a resource of its floor.

ghost use Rattle.std.specs.Prelude.{◌≡◌, true, [], Some};
ghost use Rattle.cqs_plan.specs.Floor.{size_of};
ghost use Rattle.cqs_pool.specs.Calls.{IsMine, Rests};
ghost use Rattle.cqs_pool.specs.Pool.{pool_object};
ghost use Rattle.cqs_rule.specs.Owed.{HasUnder, under_payload};
ghost use Rattle.cqs_rule.specs.Passes.{ample_of, pass_view};
ghost use Rattle.cqs_floor_shared_kinds.specs.PoolRuns.{IsPool, TellsArrived, as_give};
ghost use Rattle.cqs_floor_shared_kinds.specs.Runs.{Went};
ghost use Rattle.std.specs.Arc.{arc_value};

use crate::resource::Came;
use cqs_core::Memory;
use cqs_floor_common::{HeldElement, take_out, take_over};
use cqs_floor_shared::SharedGive;
use cqs_plan::{FloorDown, FloorEnd, FloorLeave, FloorLook, Kind};
use cqs_pool::{Placed, Pool, PoolLeft, PoolPass, PoolPolled, Taking};
use cqs_rule::{AcquireError, Config, MakeError, Place, Under};
use std::alloc::Global;
use std::sync::{Arc, Wait};

/// A pool that workers share, the pass of one of them, and what its jobs hold, oldest first. There
/// is memory for all elements of the pool, so that two can always meet.
#[derive(Drop)]
pub struct SharedPool {
    pub pool: Arc<Pool>,
    pub pass: PoolPass,
    pub held: Vec<HeldElement>,
    // Its table has slots for all segments that can be wanted, so none of its calls is crowded.
    pub ghost ample_is: { ample_of (arc_value pool).queue ≡ true },
}

/// Where an element arrived.
#[derive(Clone, Copy)]
pub enum Arrived {
    /// It went to the waiter of this number.
    Sent(u64),
    /// It was left in the cell of this number.
    Left(u64),
}

impl SharedPool {
    ghost use Rattle.std.specs.Prelude.{◌≤◌, IfOk};
    ghost use Rattle.cqs_plan.specs.Validity.{IsKind};
    ghost use Rattle.cqs_floor_shared_kinds.specs.PoolShares.{share_pool};
    ghost use Rattle.cqs_floor_shared_kinds.specs.ShareCalls.{IsOpened};

    /// A pool to which nothing has happened, for so many workers, with room for so many takes.
    pub fn open(alloc: Global, kind: Kind, workers: u32, takes: u32) -> Result<Self, Memory>
        requires sort { IsPool kind }
        requires sized { IsKind kind }
        requires some { 1 ≤ workers }
        requires few_workers { workers ≤ 16 }
        requires few { takes ≤ 524288 }
        ensures { IfOk result (IsOpened share_pool kind workers takes) }
    {
        let elements = elements(kind);
        let config = Config {
            passes: workers,
            limit: u64::from(takes) + 1,
            slots: takes / 32 + elements / 32 + 72,
        };
        let (pool, pass) = match Pool::ample(alloc, elements, config) {
            Ok(made) => made,
            Err(MakeError::Memory) => return Err(Memory),
            Err(MakeError::BadConfig) => unreachable!(),
        };
        let held = Vec::with_capacity(alloc, elements as usize)?;
        match Arc::new(alloc, pool) {
            Ok(pool) => Ok(SharedPool { pool, pass, held }),
            Err(_) => Err(Memory),
        }
    }
}

impl SharedPool {
    ghost use Rattle.std.specs.Prelude.{◌≡◌, IfOk};
    ghost use Rattle.cqs_floor_shared_kinds.specs.PoolShares.{share_pool};
    ghost use Rattle.cqs_floor_shared_kinds.specs.Shares.{IsLawful};
    ghost use Rattle.cqs_floor_shared_kinds.specs.ShareCalls.{CanEnd, CanGive, CanMeet, CanSplit, CanTake, CanTell, Gives, HasSplit, Leaves, Looks, Meets, Takes, Tells};

    /// The job takes what is free, or else waits at the end of the line.
    pub fn take<R: Wait>(&mut self, _rt: &R, job: u32) -> Came
        requires { CanTake share_pool job self.old }
        ensures { Takes share_pool job self.old result self.new }
    {
        match self.pool.take(&mut self.pass) {
            Ok(Taking::Took(element)) => {
                let number = element.number();
                self.held.push_reserved(HeldElement { job, element });
                Came::Now(number)
            }
            Ok(Taking::Later(wait)) => {
                Came::Waits(self.pool.queue().spend_wait(&mut self.pass, wait))
            }
            Err(AcquireError::Worn) => Came::Worn,
            Err(AcquireError::Crowded) => unreachable!(),
        }
    }

    /// The job gives back the oldest that it holds.
    pub fn give<R: Wait>(&mut self, rt: &R, job: u32) -> SharedGive
        requires { CanGive share_pool job self.old }
        ensures { Gives share_pool job self.old result self.new }
    {
        let element = take_out(&mut self.held, job);
        let number = element.number();
        match self.pool.put(&mut self.pass, element) {
            Ok(Placed::Sent(wait)) => SharedGive::Sent(number, wait),
            Ok(Placed::Left(wait)) => SharedGive::Left(number, wait),
            Ok(Placed::Under(under)) => {
                gave(number, finish(rt, &self.pool, &mut self.pass, under))
            }
            Err(_) => unreachable!(),
        }
    }

    /// The job looks at its wait.
    pub fn look(&mut self, job: u32, round: u32, wait: Place) -> FloorLook
        requires { CanEnd share_pool job round wait self.old }
        ensures { Looks share_pool job self.old round wait result self.new }
    {
        let token = self.pool.queue().wait_of(&mut self.pass, wait);
        match self.pool.poll(&mut self.pass, token) {
            PoolPolled::Pending(_) => FloorLook::Pending,
            PoolPolled::Granted(element) => {
                let number = element.number();
                self.held.push_reserved(HeldElement { job, element });
                FloorLook::Granted(number)
            }
        }
    }

    /// The job gives its wait up.
    pub fn leave<R: Wait>(&mut self, rt: &R, job: u32, round: u32, wait: Place) -> FloorLeave
        requires { CanEnd share_pool job round wait self.old }
        ensures { Leaves share_pool job self.old round wait result self.new }
    {
        let token = self.pool.queue().wait_of(&mut self.pass, wait);
        match self.pool.cancel(&mut self.pass, token) {
            PoolLeft::Cancelled(None) => FloorLeave::Gone,
            PoolLeft::Cancelled(Some(under)) => {
                finish(rt, &self.pool, &mut self.pass, under);
                FloorLeave::Gone
            }
            PoolLeft::TooLate(element) => {
                let number = element.number();
                self.held.push_reserved(HeldElement { job, element });
                FloorLeave::Late(number)
            }
        }
    }

    /// One with a new pass, for another worker.
    pub fn split(&mut self, alloc: Global, gives: u32) -> Result<Self, Memory>
        requires { CanSplit share_pool gives self.old }
        ensures { IfOk result (λ made. HasSplit share_pool gives self.old made self.new) }
    {
        let pool = Arc::try_clone(&self.pool)?;
        let held = Vec::with_capacity(alloc, self.held.capacity())?;
        match self.pool.split(&mut self.pass) {
            Ok(pass) => Ok(SharedPool { pool, pass, held }),
            // As many were made as may be: no worker is left to whom this one would go.
            Err(_) => Err(Memory),
        }
    }

    /// Takes in the pass of another worker, which has no wait.
    pub fn meet(&mut self, given: Self)
        requires { CanMeet share_pool given self.old }
        ensures { Meets share_pool given self.old self.new }
    {
        let SharedPool { pass, held, .. } = given;
        match self.pool.meet(&mut self.pass, pass) {
            Ok(()) => take_over(&mut self.held, held),
            Err(_) => unreachable!(),
        }
    }

    /// The number of its pass.
    pub fn number(&self) -> u32
        ensures { result ≡ share_pool.number self.now }
    {
        self.pass.number()
    }

    /// How it stands, once all workers have met.
    pub fn end(&self, kind: Kind) -> FloorEnd
        requires { CanTell share_pool kind self.now }
        ensures { Tells share_pool kind self.now result }
    {
        FloorEnd::Permits {
            free: elements(kind),
            held: 0,
            line: 0,
        }
    }

    /// What it keeps to.
    pub fn law()
        ensures { IsLawful share_pool }
    {}
}

/// How many elements there are of a pool.
fn elements(kind: Kind) -> u32
    requires { IsPool kind }
    ensures { result ≡ size_of (Some kind) }
{
    match kind {
        Kind::Pool(elements) => elements,
        Kind::Semaphore(_) | Kind::Mutex | Kind::Latch(_) | Kind::Rounds { .. } => unreachable!(),
    }
}

/// What it means for who gave the element back.
fn gave(element: u32, arrived: Arrived) -> SharedGive
    ensures { result ≡ as_give element arrived }
{
    match arrived {
        Arrived::Sent(wait) => SharedGive::Sent(element, wait),
        Arrived::Left(wait) => SharedGive::Left(element, wait),
    }
}

/// Goes on with an element that is on its way, until it has arrived. It answers where.
#[cold]
#[inline(never)]
fn finish<R: Wait>(rt: &R, pool: &Pool, pass: &mut PoolPass, under: Under) -> Arrived
    requires mine { IsMine pool.now pass.old }
    requires owes { HasUnder (pass_view pass.old).facts under }
    requires further { (pass_view pass.old).facts.has.further ≡ 0 }
    ensures mine { IsMine pool.now pass.new }
    ensures went { Went pool_object (pass_view pass.old) [] (pass_view pass.new) }
    ensures rests { Rests (pass_view pass.old) (pass_view pass.old).facts.has.slots
        (pass_view pass.old).facts.waits (pass_view pass.new) }
    ensures tells { TellsArrived (under_payload under) result (pass_view pass.new).seen }
{
    let mut under = under;
    for _ in rt.forever() {
        match pool.finish(pass, under) {
            Placed::Sent(number) => return Arrived::Sent(number),
            Placed::Left(number) => return Arrived::Left(number),
            Placed::Under(again) => under = again,
        }
    }
    unreachable!()
}
