//! One round of a barrier of the running queue, and the pass of one worker, as a floor sees it.

ghost use Rattle.std.specs.Prelude.{◌≡◌, true, ◌<◌, ◌≤◌, [], IfOk};
ghost use Rattle.cqs_barrier.specs.Barrier.{barrier_object};
ghost use Rattle.cqs_barrier.specs.Calls.{IsMine, Rests};
ghost use Rattle.cqs_barrier.specs.Leaving.{HasLeaving, leaving_at};
ghost use Rattle.cqs_barrier.specs.Resuming.{HasOwing};
ghost use Rattle.cqs_rule.specs.Passes.{ample_of, pass_view};
ghost use Rattle.cqs_floor_shared_any.specs.RoundLeaves.{HasNumbers, LeavesAt};
ghost use Rattle.cqs_floor_shared_kinds.specs.Runs.{Went};
ghost use Rattle.std.specs.Arc.{arc_value};

use cqs_barrier::{Arrived, Barrier, BarrierPass, Leaving, Owing, PartyLeft, PartyPolled};
use cqs_core::Memory;
use cqs_floor_shared_kinds::Came;
use cqs_plan::{FloorLeave, FloorLook};
use cqs_rule::{AcquireError, Config, Crowd, MakeError, Place};
use std::alloc::Global;
use std::sync::{Arc, Wait};

/// A barrier for one round, which workers share, the pass of one of them, and whether that was told
/// by an arrival of its own that all have arrived.
#[derive(Drop)]
pub struct SharedRound {
    pub barrier: Arc<Barrier>,
    pub pass: BarrierPass,
    pub over: bool,
    // Its table has slots for all segments that can be wanted, so none of its calls is crowded.
    pub ghost ample_is: { ample_of (arc_value barrier).queue ≡ true },
}

impl SharedRound {
    ghost use Rattle.cqs_floor_shared_any.specs.RoundsOne.{CanCome, CanGive, CanLeave, CanTakeIn, HasCome, HasLeft, HasLooked, HasSplitOff, HasTakenIn, IsOpenedRound};

    /// A round of so many parties, for so many workers, with room for so many arrivals.
    pub fn open(alloc: Global, parties: u32, workers: u32, arrivals: u32) -> Result<Self, Memory>
        requires some { 0 < parties }
        requires few { parties ≤ 32 }
        requires some_workers { 1 ≤ workers }
        requires few_workers { workers ≤ 16 }
        requires few_arrivals { arrivals ≤ 524288 }
        ensures { IfOk result (IsOpenedRound parties workers arrivals) }
    {
        let config = Config {
            passes: workers,
            limit: u64::from(arrivals) + 1,
            slots: arrivals / 32 + 72,
        };
        let (barrier, pass) = match Barrier::ample(alloc, parties, config) {
            Ok(made) => made,
            Err(MakeError::Memory) => return Err(Memory),
            Err(MakeError::BadConfig) => unreachable!(),
        };
        match Arc::new(alloc, barrier) {
            Ok(barrier) => Ok(SharedRound {
                barrier,
                pass,
                over: false,
            }),
            Err(_) => Err(Memory),
        }
    }

    /// A party arrives. It waits for the others, or it goes on: as the last, it resumes them.
    pub fn arrive<R: Wait>(&mut self, rt: &R) -> Came
        requires { CanCome self.old }
        ensures { HasCome self.old result self.new }
    {
        match self.barrier.arrive(&mut self.pass) {
            Ok(Arrived::Last) => {
                self.over = true;
                Came::Now(0)
            }
            Ok(Arrived::LastOwing(owing)) => {
                finish(rt, &self.barrier, &mut self.pass, owing);
                self.over = true;
                Came::Now(0)
            }
            Ok(Arrived::Later(wait)) => {
                Came::Waits(self.barrier.spend_wait(&mut self.pass, wait))
            }
            Err(AcquireError::Worn) => Came::Worn,
            Err(AcquireError::Crowded) => unreachable!(),
        }
    }

    /// The party of this wait looks whether it goes on.
    pub fn look(&mut self, wait: Place) -> FloorLook
        requires { CanLeave wait self.old }
        ensures { HasLooked wait self.old result self.new }
    {
        let token = self.barrier.wait_of(&mut self.pass, wait);
        match self.barrier.poll(&mut self.pass, token) {
            PartyPolled::Pending(_) => FloorLook::Pending,
            PartyPolled::Through => FloorLook::Granted(0),
        }
    }

    /// The party of this wait withdraws, or it is too late for that.
    pub fn leave<R: Wait>(&mut self, rt: &R, wait: Place) -> FloorLeave
        requires { CanLeave wait self.old }
        ensures { HasLeft wait self.old result self.new }
    {
        let token = self.barrier.wait_of(&mut self.pass, wait);
        match self.barrier.cancel(&mut self.pass, token) {
            PartyLeft::Withdrawn => FloorLeave::Gone,
            PartyLeft::TooLate => FloorLeave::Late(0),
            PartyLeft::Contended { leaving, .. } => {
                leave_on(rt, &self.barrier, &mut self.pass, leaving)
            }
        }
    }

    /// One with a new pass, for another worker, with so many parties of the round.
    pub fn split(&mut self, gives: u32) -> Result<Self, Memory>
        requires { CanGive gives self.old }
        ensures { IfOk result (λ made. HasSplitOff gives self.old made self.new) }
    {
        let barrier = Arc::try_clone(&self.barrier)?;
        match self.barrier.split(&mut self.pass, gives) {
            Ok(pass) => Ok(SharedRound {
                barrier,
                pass,
                over: false,
            }),
            // As many were made as may be: no worker is left to whom this one would go.
            Err(Crowd) => Err(Memory),
        }
    }

    /// Takes in the pass of another worker, which has no wait.
    pub fn meet(&mut self, given: Self)
        requires { CanTakeIn given self.old }
        ensures { HasTakenIn given self.old self.new }
    {
        let SharedRound { pass, over, .. } = given;
        match self.barrier.meet(&mut self.pass, pass) {
            Ok(()) => self.over |= over,
            Err(_) => unreachable!(),
        }
    }
}

/// Goes on with the resumptions of the last party, until all have ended.
#[cold]
#[inline(never)]
fn finish<R: Wait>(rt: &R, barrier: &Barrier, pass: &mut BarrierPass, owing: Owing)
    requires mine { IsMine barrier.now pass.old }
    requires owes { HasOwing (pass_view pass.old).facts owing }
    ensures mine { IsMine barrier.now pass.new }
    ensures went { Went barrier_object (pass_view pass.old) [] (pass_view pass.new) }
    ensures rests { Rests (pass_view pass.old) (pass_view pass.old).facts.has.held
        (pass_view pass.old).facts.waits (pass_view pass.new) }
{
    let mut owing = owing;
    for _ in rt.forever() {
        match barrier.finish(pass, owing) {
            Ok(()) => return,
            Err(again) => owing = again,
        }
    }
    unreachable!()
}

/// Goes on with a leaving where others were first, until none is.
#[cold]
#[inline(never)]
fn leave_on<R: Wait>(
    rt: &R,
    barrier: &Barrier,
    pass: &mut BarrierPass,
    leaving: Leaving,
) -> FloorLeave
    requires mine { IsMine barrier.now pass.old }
    requires numbers { HasNumbers (pass_view pass.old) }
    requires has { HasLeaving (pass_view pass.old) leaving }
    ensures mine { IsMine barrier.now pass.new }
    ensures left { LeavesAt (leaving_at leaving).index (pass_view pass.old) result
        (pass_view pass.new) }
{
    let mut leaving = leaving;
    for _ in rt.forever() {
        match barrier.leave_again(pass, leaving) {
            PartyLeft::Withdrawn => return FloorLeave::Gone,
            PartyLeft::TooLate => return FloorLeave::Late(0),
            PartyLeft::Contended { leaving: again, .. } => leaving = again,
        }
    }
    unreachable!()
}
