//! One round of a barrier of the running queue, with its one pass, which holds all parties.

ghost use Rattle.std.specs.Prelude.{◌≡◌, ◌<◌, ◌≤◌, IfOk, true};
ghost use Rattle.cqs_barrier.specs.Calls.{IsMine};
ghost use Rattle.cqs_barrier.specs.Resuming.{HasOwing};
ghost use Rattle.cqs_rule.specs.Passes.{ample_of, pass_view};
ghost use Rattle.cqs_floor_alone_kinds.specs.RoundEnds.{ServesAll};

use crate::sole_resource::{Left, Looked};
use cqs_barrier::{Arrived, Barrier, BarrierPass, Owing, PartyLeft, PartyPolled};
use cqs_core::Memory;
use cqs_rule::{Config, MakeError, Place};
use std::alloc::Global;

/// A barrier for one round, and its one pass.
#[derive(Drop)]
pub struct RoundSole {
    pub barrier: Barrier,
    pub pass: BarrierPass,
    // Its table has slots for all segments that can be wanted, so none of its calls is crowded.
    pub ghost ample_is: { ample_of barrier.queue ≡ true },
}

impl RoundSole {
    ghost use Rattle.cqs_floor_alone_kinds.specs.SoleRound.{CanArrive, CanLeave, HasArrived, HasLeft, HasLooked, IsOpenedRound};

    /// A round of so many parties, and room for so many arrivals.
    pub fn open(alloc: Global, parties: u32, arrivals: u32) -> Result<Self, Memory>
        requires some { 0 < parties }
        requires few { parties ≤ 32 }
        requires few_arrivals { arrivals ≤ 524288 }
        ensures { IfOk result (IsOpenedRound parties arrivals) }
    {
        let config = Config {
            passes: 1,
            limit: u64::from(arrivals) + 1,
            slots: arrivals / 32 + 8,
        };
        match Barrier::ample(alloc, parties, config) {
            Ok((barrier, pass)) => Ok(RoundSole { barrier, pass }),
            Err(MakeError::Memory) => Err(Memory),
            Err(MakeError::BadConfig) => unreachable!(),
        }
    }

    /// A party arrives. It waits for the others, or it is the last, and they all go through.
    pub fn arrive(&mut self) -> Option<Place>
        requires { CanArrive self.old }
        ensures { HasArrived self.old result self.new }
    {
        match self.barrier.arrive(&mut self.pass) {
            Ok(Arrived::Last) => None,
            Ok(Arrived::LastOwing(owing)) => {
                finish(&self.barrier, &mut self.pass, owing);
                None
            }
            Ok(Arrived::Later(wait)) => Some(self.barrier.spend_wait(&mut self.pass, wait)),
            Err(_) => unreachable!(),
        }
    }

    /// The party of this wait looks whether it goes through.
    pub fn look(&mut self, wait: Place) -> Looked
        requires { CanLeave wait self.old }
        ensures { HasLooked wait self.old result self.new }
    {
        let token = self.barrier.wait_of(&mut self.pass, wait);
        match self.barrier.poll(&mut self.pass, token) {
            PartyPolled::Pending(_) => Looked::Pending,
            PartyPolled::Through => Looked::Through,
        }
    }

    /// The party of this wait withdraws, or it is too late for that.
    pub fn leave(&mut self, wait: Place) -> Left
        requires { CanLeave wait self.old }
        ensures { HasLeft wait self.old result self.new }
    {
        let token = self.barrier.wait_of(&mut self.pass, wait);
        match self.barrier.cancel(&mut self.pass, token) {
            PartyLeft::Withdrawn => Left::Gone,
            PartyLeft::TooLate => Left::Through,
            // Nobody else changes the remaining number.
            PartyLeft::Contended { .. } => unreachable!(),
        }
    }
}

/// Goes on with the resumptions of the last party, until all who waited were served.
#[cold]
#[inline(never)]
fn finish(barrier: &Barrier, pass: &mut BarrierPass, owing: Owing)
    requires ample { ample_of barrier.now.queue ≡ true }
    requires mine { IsMine barrier.now pass.old }
    requires owes { HasOwing (pass_view pass.old).facts owing }
    requires alone { (pass_view pass.old).alone ≡ true }
    ensures mine { IsMine barrier.now pass.new }
    ensures served { ServesAll (pass_view pass.old) (pass_view pass.new) }
{
    let mut reached = owing.reached();
    let mut owing = owing;
    loop {
        match barrier.finish(pass, owing) {
            Ok(()) => return,
            Err(again) => {
                reached = again.reached();
                owing = again;
            }
        }
    }
}
