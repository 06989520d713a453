//! A semaphore of the running queue, and the pass of one worker, as a resource of its floor.

ghost use Rattle.std.specs.Prelude.{◌≡◌, true, [], Some};
ghost use Rattle.cqs_plan.specs.Floor.{size_of};
ghost use Rattle.cqs_rule.specs.Owed.{HasUnder};
ghost use Rattle.cqs_rule.specs.Passes.{ample_of, pass_view};
ghost use Rattle.cqs_semaphore_client.specs.Semaphore.{semaphore_object};
ghost use Rattle.cqs_semaphore.specs.Calls.{IsMine, Rests};
ghost use Rattle.cqs_floor_shared_kinds.specs.PermitRuns.{IsOfPermits, TellsSent};
ghost use Rattle.cqs_floor_shared_kinds.specs.Runs.{Went};
ghost use Rattle.std.specs.Arc.{arc_value};

use crate::resource::Came;
use cqs_core::Memory;
use cqs_floor_shared::SharedGive;
use cqs_plan::{FloorDown, FloorEnd, FloorLeave, FloorLook, Kind};
use cqs_rule::{AcquireError, Config, MakeError, Place, Under};
use cqs_semaphore::{Acquired, CancelAnswer, Polled, Released, SemPass, Semaphore};
use std::alloc::Global;
use std::sync::{Arc, Wait};

/// A semaphore that workers share, and the pass of one of them. What the pass holds is what the
/// jobs hold, and permits that came with the number of a wait at which no job has looked yet.
#[derive(Drop)]
pub struct SharedPermits {
    pub semaphore: Arc<Semaphore>,
    pub pass: SemPass,
    // Its table has slots for all segments that can be wanted, so none of its calls is crowded.
    pub ghost ample_is: { ample_of (arc_value semaphore).queue ≡ true },
}

impl SharedPermits {
    ghost use Rattle.std.specs.Prelude.{◌≤◌, IfOk};
    ghost use Rattle.cqs_plan.specs.Validity.{IsKind};
    ghost use Rattle.cqs_floor_shared_kinds.specs.PermitShares.{share_permits};
    ghost use Rattle.cqs_floor_shared_kinds.specs.ShareCalls.{IsOpened};

    /// A semaphore or a mutex to which nothing has happened, for so many workers, with room for so
    /// many takes.
    pub fn open(alloc: Global, kind: Kind, workers: u32, takes: u32) -> Result<Self, Memory>
        requires sort { IsOfPermits kind }
        requires sized { IsKind kind }
        requires some { 1 ≤ workers }
        requires few_workers { workers ≤ 16 }
        requires few { takes ≤ 524288 }
        ensures { IfOk result (IsOpened share_permits kind workers takes) }
    {
        let config = Config {
            passes: workers,
            limit: u64::from(takes) + 1,
            slots: takes / 32 + 72,
        };
        let (semaphore, pass) = match Semaphore::ample(alloc, permits(kind), config) {
            Ok(made) => made,
            Err(MakeError::Memory) => return Err(Memory),
            Err(MakeError::BadConfig) => unreachable!(),
        };
        match Arc::new(alloc, semaphore) {
            Ok(semaphore) => Ok(SharedPermits { semaphore, pass }),
            Err(_) => Err(Memory),
        }
    }
}

impl SharedPermits {
    ghost use Rattle.std.specs.Prelude.{◌≡◌, IfOk};
    ghost use Rattle.cqs_floor_shared_kinds.specs.PermitShares.{share_permits};
    ghost use Rattle.cqs_floor_shared_kinds.specs.Shares.{IsLawful};
    ghost use Rattle.cqs_floor_shared_kinds.specs.ShareCalls.{CanEnd, CanGive, CanMeet, CanSplit, CanTake, CanTell, Gives, HasSplit, Leaves, Looks, Meets, Takes, Tells};

    /// The job takes what is free, or else waits at the end of the line.
    pub fn take<R: Wait>(&mut self, _rt: &R, job: u32) -> Came
        requires { CanTake share_permits job self.old }
        ensures { Takes share_permits job self.old result self.new }
    {
        match self.semaphore.acquire(&mut self.pass) {
            Ok(Acquired::Now(permit)) => match permit.number() {
                None => Came::Now(0),
                Some(number) => Came::Under(number),
            },
            Ok(Acquired::Later(wait)) => {
                Came::Waits(self.semaphore.queue().spend_wait(&mut self.pass, wait))
            }
            Err(AcquireError::Worn) => Came::Worn,
            Err(AcquireError::Crowded) => unreachable!(),
        }
    }

    /// The job gives back the oldest that it holds.
    pub fn give<R: Wait>(&mut self, rt: &R, job: u32) -> SharedGive
        requires { CanGive share_permits job self.old }
        ensures { Gives share_permits job self.old result self.new }
    {
        let permit = self.semaphore.permit_of(&self.pass);
        match self.semaphore.release(&mut self.pass, permit) {
            Ok(Released::Freed) => SharedGive::Free(0),
            Ok(Released::Sent(number)) => SharedGive::Sent(0, number),
            Ok(Released::Left(number)) => SharedGive::Left(0, number),
            Ok(Released::Void(number)) => SharedGive::Void(number),
            Ok(Released::Under(under)) => finish(rt, &self.semaphore, &mut self.pass, under),
            Err(_) => unreachable!(),
        }
    }

    /// The job looks at its wait.
    pub fn look(&mut self, job: u32, round: u32, wait: Place) -> FloorLook
        requires { CanEnd share_permits job round wait self.old }
        ensures { Looks share_permits job self.old round wait result self.new }
    {
        let token = self.semaphore.queue().wait_of(&mut self.pass, wait);
        match self.semaphore.poll(&mut self.pass, token) {
            Polled::Pending(_) => FloorLook::Pending,
            Polled::Granted(_) => FloorLook::Granted(0),
        }
    }

    /// The job gives its wait up.
    pub fn leave<R: Wait>(&mut self, rt: &R, job: u32, round: u32, wait: Place) -> FloorLeave
        requires { CanEnd share_permits job round wait self.old }
        ensures { Leaves share_permits job self.old round wait result self.new }
    {
        let token = self.semaphore.queue().wait_of(&mut self.pass, wait);
        match self.semaphore.cancel(&mut self.pass, token) {
            CancelAnswer::Cancelled(None) => FloorLeave::Gone,
            CancelAnswer::Cancelled(Some(under)) => {
                finish(rt, &self.semaphore, &mut self.pass, under);
                FloorLeave::Gone
            }
            CancelAnswer::TooLate(_) => FloorLeave::Late(0),
        }
    }

    /// One with a new pass, for another worker.
    pub fn split(&mut self, _alloc: Global, gives: u32) -> Result<Self, Memory>
        requires { CanSplit share_permits gives self.old }
        ensures { IfOk result (λ made. HasSplit share_permits gives self.old made self.new) }
    {
        let semaphore = Arc::try_clone(&self.semaphore)?;
        match self.semaphore.split(&mut self.pass) {
            Ok(pass) => Ok(SharedPermits { semaphore, pass }),
            // As many were made as may be: no worker is left to whom this one would go.
            Err(_) => Err(Memory),
        }
    }

    /// Takes in the pass of another worker, which has no wait.
    pub fn meet(&mut self, given: Self)
        requires { CanMeet share_permits given self.old }
        ensures { Meets share_permits given self.old self.new }
    {
        let SharedPermits { pass, .. } = given;
        match self.semaphore.meet(&mut self.pass, pass) {
            Ok(()) => {}
            Err(_) => unreachable!(),
        }
    }

    /// The number of its pass.
    pub fn number(&self) -> u32
        ensures { result ≡ share_permits.number self.now }
    {
        self.pass.number()
    }

    /// How it stands, once all workers have met.
    pub fn end(&self, kind: Kind) -> FloorEnd
        requires { CanTell share_permits kind self.now }
        ensures { Tells share_permits kind self.now result }
    {
        FloorEnd::Permits {
            free: permits(kind),
            held: 0,
            line: 0,
        }
    }

    /// What it keeps to.
    pub fn law()
        ensures { IsLawful share_permits }
    {}
}

/// How many permits there are: of a mutex it is one.
fn permits(kind: Kind) -> u32
    requires { IsOfPermits kind }
    ensures { result ≡ size_of (Some kind) }
{
    match kind {
        Kind::Semaphore(permits) => permits,
        Kind::Mutex => 1,
        Kind::Pool(_) | Kind::Latch(_) | Kind::Rounds { .. } => unreachable!(),
    }
}

/// Goes on with a permit that is on its way, until it has arrived. It answers where.
#[cold]
#[inline(never)]
fn finish<R: Wait>(rt: &R, semaphore: &Semaphore, pass: &mut SemPass, under: Under) -> SharedGive
    requires mine { IsMine semaphore.now pass.old }
    requires owes { HasUnder (pass_view pass.old).facts under }
    requires further { (pass_view pass.old).facts.has.further ≡ 0 }
    ensures mine { IsMine semaphore.now pass.new }
    ensures went { Went semaphore_object (pass_view pass.old) [] (pass_view pass.new) }
    ensures rests { Rests (pass_view pass.old) (pass_view pass.old).facts.has.held
        (pass_view pass.old).facts.waits (pass_view pass.new) }
    ensures tells { TellsSent result (pass_view pass.new).seen }
{
    let mut under = under;
    for _ in rt.forever() {
        match semaphore.finish(pass, under) {
            Released::Sent(number) => return SharedGive::Sent(0, number),
            Released::Left(number) => return SharedGive::Left(0, number),
            Released::Void(number) => return SharedGive::Void(number),
            Released::Under(again) => under = again,
            Released::Freed => unreachable!(),
        }
    }
    unreachable!()
}
