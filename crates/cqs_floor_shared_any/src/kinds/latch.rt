//! A latch of the running queue, and the pass of one worker, as a resource of its floor.

ghost use Rattle.std.specs.Prelude.{◌≡◌, true, [], Some};
ghost use Rattle.cqs_latch.specs.Calls.{IsMine, Rests};
ghost use Rattle.cqs_latch.specs.Latch.{latch_object};
ghost use Rattle.cqs_latch.specs.Owed.{HasOwed};
ghost use Rattle.cqs_plan.specs.Floor.{IsLatch, size_of};
ghost use Rattle.cqs_rule.specs.Passes.{ample_of, pass_view};
ghost use Rattle.cqs_floor_shared_kinds.specs.Runs.{Went};
ghost use Rattle.std.specs.Arc.{arc_value};

use cqs_core::Memory;
use cqs_floor_shared::SharedGive;
use cqs_floor_shared_kinds::Came;
use cqs_latch::{Down, Latch, LatchLeft, LatchPass, LatchPolled, LatchWait, Owed};
use cqs_plan::{FloorDown, FloorEnd, FloorLeave, FloorLook, Kind};
use cqs_rule::{AcquireError, CancelMode, Config, MakeError, Place};
use std::alloc::Global;
use std::sync::{Arc, Wait};

/// A latch that workers share, the pass of one of them, and how often its jobs counted it down.
#[derive(Drop)]
pub struct SharedLatch {
    pub latch: Arc<Latch>,
    pub pass: LatchPass,
    pub downs: u32,
    // Its table has slots for all segments that can be wanted, so none of its calls is crowded.
    pub ghost ample_is: { ample_of (arc_value latch).queue ≡ true },
}

impl SharedLatch {
    ghost use Rattle.std.specs.Prelude.{◌≤◌, IfOk};
    ghost use Rattle.cqs_plan.specs.Validity.{IsKind};
    ghost use Rattle.cqs_floor_shared_any.specs.LatchShares.{share_latch};
    ghost use Rattle.cqs_floor_shared_kinds.specs.ShareCalls.{IsOpened};

    /// A latch to which nothing has happened, for so many workers, with room for so many waits.
    pub fn open(alloc: Global, kind: Kind, workers: u32, waits: u32) -> Result<Self, Memory>
        requires sort { IsLatch (Some kind) }
        requires sized { IsKind kind }
        requires some { 1 ≤ workers }
        requires few_workers { workers ≤ 16 }
        requires few { waits ≤ 524288 }
        ensures { IfOk result (IsOpened share_latch kind workers waits) }
    {
        let config = Config {
            passes: workers,
            limit: u64::from(waits) + 1,
            slots: waits / 32 + 72,
        };
        let (latch, pass) = match Latch::ample(alloc, counts(kind), CancelMode::Smart, config) {
            Ok(made) => made,
            Err(MakeError::Memory) => return Err(Memory),
            Err(MakeError::BadConfig) => unreachable!(),
        };
        match Arc::new(alloc, latch) {
            Ok(latch) => Ok(SharedLatch {
                latch,
                pass,
                downs: 0,
            }),
            Err(_) => Err(Memory),
        }
    }
}

impl SharedLatch {
    ghost use Rattle.std.specs.Prelude.{◌≡◌, IfOk};
    ghost use Rattle.cqs_floor_shared_any.specs.LatchShares.{share_latch};
    ghost use Rattle.cqs_floor_shared_kinds.specs.Shares.{IsLawful};
    ghost use Rattle.cqs_floor_shared_kinds.specs.ShareCalls.{CanCount, CanEnd, CanMeet, CanSplit, CanTell, CanWait, Counts, HasSplit, Leaves, Looks, Meets, Tells, Waits};

    /// Counts the latch down. The last count opens it, for all who wait.
    pub fn down<R: Wait>(&mut self, rt: &R) -> FloorDown
        requires { CanCount share_latch self.old }
        ensures { Counts share_latch self.old result self.new }
    {
        match self.latch.count_down(&mut self.pass) {
            Ok(Down::Left(left)) => {
                self.downs += 1;
                FloorDown::Left(left)
            }
            Ok(Down::Last) => {
                self.downs += 1;
                FloorDown::Last
            }
            Ok(Down::LastOwing(owed)) => {
                finish(rt, &self.latch, &mut self.pass, owed);
                self.downs += 1;
                FloorDown::Last
            }
            Ok(Down::Already) => FloorDown::Already,
            Err(_) => unreachable!(),
        }
    }

    /// The job passes, or it waits at the end of the line.
    ///
    /// Who passes may have drawn a number, whose value had come before. That wait is over: nobody
    /// looks at it.
    pub fn wait<R: Wait>(&mut self, _rt: &R, job: u32) -> Came
        requires { CanWait share_latch job self.old }
        ensures { Waits share_latch job self.old result self.new }
    {
        match self.latch.wait(&mut self.pass) {
            Ok(LatchWait::Passed) => Came::Now(0),
            Ok(LatchWait::Later(wait)) => {
                Came::Waits(self.latch.queue().spend_wait(&mut self.pass, wait))
            }
            Err(AcquireError::Worn) => Came::Worn,
            Err(AcquireError::Crowded) => unreachable!(),
        }
    }

    /// The job looks at its wait.
    pub fn look(&mut self, job: u32, round: u32, wait: Place) -> FloorLook
        requires { CanEnd share_latch job round wait self.old }
        ensures { Looks share_latch job self.old round wait result self.new }
    {
        let token = self.latch.queue().wait_of(&mut self.pass, wait);
        match self.latch.poll(&mut self.pass, token) {
            LatchPolled::Pending(_) => FloorLook::Pending,
            LatchPolled::Through => FloorLook::Granted(0),
        }
    }

    /// The job gives its wait up.
    pub fn leave<R: Wait>(&mut self, rt: &R, job: u32, round: u32, wait: Place) -> FloorLeave
        requires { CanEnd share_latch job round wait self.old }
        ensures { Leaves share_latch job self.old round wait result self.new }
    {
        let token = self.latch.queue().wait_of(&mut self.pass, wait);
        match self.latch.cancel(&mut self.pass, token) {
            LatchLeft::Gone => FloorLeave::Gone,
            LatchLeft::GoneOwing(owed) => {
                finish(rt, &self.latch, &mut self.pass, owed);
                FloorLeave::Gone
            }
            LatchLeft::TooLate => FloorLeave::Late(0),
        }
    }

    /// One with a new pass, for another worker.
    pub fn split(&mut self, _alloc: Global, gives: u32) -> Result<Self, Memory>
        requires { CanSplit share_latch gives self.old }
        ensures { IfOk result (λ made. HasSplit share_latch gives self.old made self.new) }
    {
        let latch = Arc::try_clone(&self.latch)?;
        match self.latch.split(&mut self.pass) {
            Ok(pass) => Ok(SharedLatch {
                latch,
                pass,
                downs: 0,
            }),
            // As many were made as may be: no worker is left to whom this one would go.
            Err(_) => Err(Memory),
        }
    }

    /// Takes in the pass of another worker, which has no wait.
    pub fn meet(&mut self, given: Self)
        requires { CanMeet share_latch given self.old }
        ensures { Meets share_latch given self.old self.new }
    {
        let SharedLatch { pass, downs, .. } = given;
        match self.latch.meet(&mut self.pass, pass) {
            Ok(()) => self.downs += downs,
            Err(_) => unreachable!(),
        }
    }

    /// The number of its pass.
    pub fn number(&self) -> u32
        ensures { result ≡ share_latch.number self.now }
    {
        self.pass.number()
    }

    /// How it stands, once all workers have met.
    pub fn end(&self, kind: Kind) -> FloorEnd
        requires { CanTell share_latch kind self.now }
        ensures { Tells share_latch kind self.now result }
    {
        FloorEnd::Latch {
            count: counts(kind) - self.downs,
            line: 0,
        }
    }

    /// What it keeps to.
    pub fn law()
        ensures { IsLawful share_latch }
    {}
}

/// How often a latch is to be counted down.
fn counts(kind: Kind) -> u32
    requires { IsLatch (Some kind) }
    ensures { result ≡ size_of (Some kind) }
{
    match kind {
        Kind::Latch(count) => count,
        Kind::Semaphore(_) | Kind::Mutex | Kind::Pool(_) | Kind::Rounds { .. } => unreachable!(),
    }
}

/// Goes on with the resumptions of an opened latch, until each has arrived.
#[cold]
#[inline(never)]
fn finish<R: Wait>(rt: &R, latch: &Latch, pass: &mut LatchPass, owed: Owed)
    requires mine { IsMine latch.now pass.old }
    requires owes { HasOwed (pass_view pass.old).facts owed }
    ensures mine { IsMine latch.now pass.new }
    ensures went { Went latch_object (pass_view pass.old) [] (pass_view pass.new) }
    ensures rests { Rests (pass_view pass.old).facts.waits (pass_view pass.new) }
{
    let mut owed = owed;
    for _ in rt.forever() {
        match latch.finish(pass, owed) {
            Ok(()) => return,
            Err(again) => owed = again,
        }
    }
    unreachable!()
}
