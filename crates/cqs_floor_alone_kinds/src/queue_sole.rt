//! A semaphore of the running queue with its one pass, as the semaphore of a floor.

ghost use Rattle.std.specs.Prelude.{◌≡◌, ◌<◌, ◌≤◌, ◌≤ℤ◌, ◌++◌, [], ◌∷◌, IfOk, Some, negsuc, pos, true};
ghost use Rattle.cqs_core.specs.declared.entries.Entry.TheVariants.{Deliver};
ghost use Rattle.cqs_core.specs.SemaphoreShown.{free_of, short_of, state_of};
ghost use Rattle.cqs_plan.specs.declared.plans.kind.Kind.TheVariants as kind;
ghost use Rattle.cqs_rule.specs.Owed.{HasUnder};
ghost use Rattle.cqs_rule.specs.Passes.{ample_of, pass_view};
ghost use Rattle.cqs_rule_laws.specs.Views.{IsSame};
ghost use Rattle.cqs_semaphore.specs.Alone.{IsFirstOf};
ghost use Rattle.cqs_rule_laws.specs.CallRule.{IsReady};
ghost use Rattle.cqs_semaphore.specs.Calls.{CallRule, IsMine, Rests, plain_after};

use crate::sole::{SoleSemaphore, Stand, stand_in};
use cqs_core::Memory;
use cqs_rule::{Config, MakeError, Place, Under};
use cqs_semaphore::{Acquired, CancelAnswer, Permit, Polled, Released, SemPass, Semaphore};
use std::alloc::Global;

/// A semaphore, its one pass, and the permits that the pass holds.
#[derive(Drop)]
pub struct QueueSole {
    pub semaphore: Semaphore,
    pub pass: SemPass,
    pub permits: Vec<Permit>,
    // Its table has slots for all segments that can be wanted, so none of its calls is crowded.
    pub ghost ample_is: { ample_of semaphore.queue ≡ true },
}

impl QueueSole {
    ghost use Rattle.cqs_floor_alone_kinds.specs.Soles.{IsOpened};
    ghost use Rattle.cqs_floor_alone_kinds.specs.SoleQueue.{sole_queue};

    /// A semaphore with so many permits, all of them free, and room for so many takes.
    pub fn open(alloc: Global, permits: u32, takes: u32) -> Result<Self, Memory>
        requires some { 0 < permits }
        requires few { permits ≤ 1048576 }
        requires few_takes { takes ≤ 524288 }
        ensures { IfOk result (IsOpened sole_queue (Some (kind.Semaphore permits)) takes) }
    {
        let config = Config {
            passes: 1,
            limit: u64::from(takes) + 1,
            slots: takes / 32 + 8,
        };
        let (semaphore, pass) = match Semaphore::ample(alloc, permits, config) {
            Ok(made) => made,
            Err(MakeError::Memory) => return Err(Memory),
            Err(MakeError::BadConfig) => unreachable!(),
        };
        Ok(QueueSole {
            semaphore,
            pass,
            permits: Vec::with_capacity(alloc, takes as usize)?,
        })
    }
}

impl SoleSemaphore for QueueSole {
    ghost use Rattle.cqs_floor_alone_kinds.specs.SoleQueue.{sole_queue};

    ghost sole = { sole_queue };

    fn acquire(&mut self) -> Option<Place> {
        match self.semaphore.acquire(&mut self.pass) {
            Ok(Acquired::Now(permit)) => {
                self.permits.push_reserved(permit);
                None
            }
            Ok(Acquired::Later(wait)) => {
                Some(self.semaphore.queue().spend_wait(&mut self.pass, wait))
            }
            Err(_) => unreachable!(),
        }
    }

    fn release(&mut self) -> Option<u64> {
        let Some(permit) = self.permits.pop() else {
            unreachable!()
        };
        match self.semaphore.release(&mut self.pass, permit) {
            Ok(Released::Freed) => None,
            Ok(Released::Sent(number)) => Some(number),
            Ok(Released::Under(under)) => Some(send(&self.semaphore, &mut self.pass, under)),
            Ok(Released::Left(_)) => unreachable!(),
            Ok(Released::Void(_)) => unreachable!(),
            Err(_) => unreachable!(),
        }
    }

    fn poll(&mut self, wait: Place) -> bool {
        let token = self.semaphore.queue().wait_of(&mut self.pass, wait);
        match self.semaphore.poll(&mut self.pass, token) {
            Polled::Pending(_) => false,
            Polled::Granted(permit) => {
                self.permits.push_reserved(permit);
                true
            }
        }
    }

    fn cancel(&mut self, wait: Place) -> bool {
        let token = self.semaphore.queue().wait_of(&mut self.pass, wait);
        match self.semaphore.cancel(&mut self.pass, token) {
            CancelAnswer::Cancelled(None) => true,
            CancelAnswer::Cancelled(Some(_)) => unreachable!(),
            CancelAnswer::TooLate(permit) => {
                self.permits.push_reserved(permit);
                false
            }
        }
    }

    fn stand(&mut self) -> Stand {
        stand_of(&self.semaphore, &mut self.pass)
    }
}

/// How a semaphore stands, by its state.
#[tactic(auto, using(crate::proofs::PassRests::state_same))]
fn stand_of(semaphore: &Semaphore, pass: &mut SemPass) -> Stand
    requires mine { IsMine semaphore.now pass.old }
    requires ready { IsReady (pass_view pass.old).facts }
    requires alone { (pass_view pass.old).alone ≡ true }
    requires least { negsuc 4294967294 ≤ℤ state_of (plain_after (pass_view pass.old)) }
    requires most { state_of (plain_after (pass_view pass.old)) ≤ℤ pos 4294967295 }
    ensures free { result.free ≡ free_of (state_of (plain_after (pass_view pass.old))) }
    ensures line { result.line ≡ short_of (state_of (plain_after (pass_view pass.old))) }
    ensures mine { IsMine semaphore.now pass.new }
    ensures called { CallRule (pass_view pass.old) [] [] (pass_view pass.new) }
    ensures rests { Rests (pass_view pass.old) (pass_view pass.old).facts.has.held
        (pass_view pass.old).facts.waits (pass_view pass.new) }
{
    stand_in(semaphore.state(pass))
}

/// Goes on with a permit that is on its way, until it comes to the first of the line.
#[cold]
#[inline(never)]
fn send(semaphore: &Semaphore, pass: &mut SemPass, under: Under) -> u64
    requires ample { ample_of semaphore.now.queue ≡ true }
    requires mine { IsMine semaphore.now pass.old }
    requires owes { HasUnder (pass_view pass.old).facts under }
    requires further { (pass_view pass.old).facts.has.further ≡ 0 }
    requires alone { (pass_view pass.old).alone ≡ true }
    requires way { (plain_after (pass_view pass.old)).way ≡ 1 }
    ensures mine { IsMine semaphore.now pass.new }
    ensures first { IsFirstOf (plain_after (pass_view pass.old)).line result }
    ensures seen { (pass_view pass.new).seen ≡ (pass_view pass.old).seen ++ Deliver result ∷ [] }
    ensures same { IsSame (pass_view pass.old) (pass_view pass.new) }
    ensures rests { Rests (pass_view pass.old) (pass_view pass.old).facts.has.held
        (pass_view pass.old).facts.waits (pass_view pass.new) }
{
    let mut reached = under.reached();
    let mut under = under;
    loop {
        match semaphore.finish(pass, under) {
            Released::Sent(number) => return number,
            Released::Under(next) => {
                reached = next.reached();
                under = next;
            }
            _ => unreachable!(),
        }
    }
}
