//! A mutex of the running queue with its one pass, as the semaphore of a floor: of one permit.

ghost use Rattle.std.specs.Prelude.{◌≡◌, ◌≤ℤ◌, ◌≤◌, ◌++◌, [], ◌∷◌, IfOk, Some, negsuc, pos, true};
ghost use Rattle.cqs_core.specs.declared.entries.Entry.TheVariants.{Deliver};
ghost use Rattle.cqs_core.specs.SemaphoreShown.{free_of, short_of, state_of};
ghost use Rattle.cqs_mutex.specs.Mutexes.{Belongs};
ghost use Rattle.cqs_plan.specs.declared.plans.kind.Kind.TheVariants as kind;
ghost use Rattle.cqs_rule.specs.Owed.{HasUnder};
ghost use Rattle.cqs_rule.specs.Passes.{ample_of, pass_view};
ghost use Rattle.cqs_rule_laws.specs.Views.{IsSame};
ghost use Rattle.cqs_semaphore.specs.Alone.{IsFirstOf};
ghost use Rattle.cqs_rule_laws.specs.CallRule.{IsReady};
ghost use Rattle.cqs_semaphore.specs.Calls.{CallRule, Rests, plain_after};

use crate::sole::{SoleSemaphore, Stand, stand_in};
use cqs_core::Memory;
use cqs_mutex::{Guard, LockLeft, Locked, Mutex, MutexPass, PolledLock};
use cqs_rule::{Config, MakeError, Place, Under};
use cqs_semaphore::Released;
use std::alloc::Global;

/// A mutex around nothing, its one pass, and the guards that the pass has.
#[derive(Drop)]
pub struct MutexSole {
    pub mutex: Mutex<()>,
    pub pass: MutexPass<()>,
    pub guards: Vec<Guard<()>>,
    // Its table has slots for all segments that can be wanted, so none of its calls is crowded.
    pub ghost ample_is: { ample_of mutex.semaphore.queue ≡ true },
}

impl MutexSole {
    ghost use Rattle.cqs_floor_alone_kinds.specs.Soles.{IsOpened};
    ghost use Rattle.cqs_floor_alone_kinds.specs.SoleQueue.{sole_mutex};

    /// A mutex that is free, with room for so many takes.
    #[tactic(auto, using(crate::proofs::MutexSole::mutex_opened))]
    pub fn open(alloc: Global, takes: u32) -> Result<Self, Memory>
        requires few_takes { takes ≤ 524288 }
        ensures { IfOk result (IsOpened sole_mutex (Some kind.Mutex) takes) }
    {
        let config = Config {
            passes: 1,
            limit: u64::from(takes) + 1,
            slots: takes / 32 + 8,
        };
        let (mutex, pass) = match Mutex::ample(alloc, (), config) {
            Ok(made) => made,
            Err((_, MakeError::Memory)) => return Err(Memory),
            Err((_, MakeError::BadConfig)) => unreachable!(),
        };
        Ok(MutexSole {
            mutex,
            pass,
            guards: Vec::with_capacity(alloc, takes as usize)?,
        })
    }
}

impl SoleSemaphore for MutexSole {
    ghost use Rattle.cqs_floor_alone_kinds.specs.SoleQueue.{sole_mutex};

    ghost sole = { sole_mutex };

    fn acquire(&mut self) -> Option<Place> {
        match self.mutex.lock(&mut self.pass) {
            Ok(Locked::Now(guard)) => {
                self.guards.push_reserved(guard);
                None
            }
            Ok(Locked::Later(wait)) => Some(self.mutex.spend_wait(&mut self.pass, wait)),
            Err(_) => unreachable!(),
        }
    }

    fn release(&mut self) -> Option<u64> {
        let Some(guard) = self.guards.pop() else {
            unreachable!()
        };
        match self.mutex.unlock(&mut self.pass, guard) {
            Ok(Released::Freed) => None,
            Ok(Released::Sent(number)) => Some(number),
            Ok(Released::Under(under)) => Some(send(&self.mutex, &mut self.pass, under)),
            Ok(Released::Left(_)) => unreachable!(),
            Ok(Released::Void(_)) => unreachable!(),
            Err(_) => unreachable!(),
        }
    }

    fn poll(&mut self, wait: Place) -> bool {
        let token = self.mutex.wait_of(&mut self.pass, wait);
        match self.mutex.poll(&mut self.pass, token) {
            PolledLock::Pending(_) => false,
            PolledLock::Granted(guard) => {
                self.guards.push_reserved(guard);
                true
            }
        }
    }

    fn cancel(&mut self, wait: Place) -> bool {
        let token = self.mutex.wait_of(&mut self.pass, wait);
        match self.mutex.cancel(&mut self.pass, token) {
            LockLeft::Cancelled(None) => true,
            LockLeft::Cancelled(Some(_)) => unreachable!(),
            LockLeft::TooLate(guard) => {
                self.guards.push_reserved(guard);
                false
            }
        }
    }

    fn stand(&mut self) -> Stand {
        stand_of(&self.mutex, &mut self.pass)
    }
}

/// How a mutex stands, by its state.
#[tactic(auto, using(crate::proofs::PassRests::state_same))]
fn stand_of(mutex: &Mutex<()>, pass: &mut MutexPass<()>) -> Stand
    requires belongs { Belongs mutex.now pass.old }
    requires ready { IsReady (pass_view pass.old).facts }
    requires alone { (pass_view pass.old).alone ≡ true }
    requires least { negsuc 4294967294 ≤ℤ state_of (plain_after (pass_view pass.old)) }
    requires most { state_of (plain_after (pass_view pass.old)) ≤ℤ pos 4294967295 }
    ensures free { result.free ≡ free_of (state_of (plain_after (pass_view pass.old))) }
    ensures line { result.line ≡ short_of (state_of (plain_after (pass_view pass.old))) }
    ensures belongs { Belongs mutex.now pass.new }
    ensures called { CallRule (pass_view pass.old) [] [] (pass_view pass.new) }
    ensures rests { Rests (pass_view pass.old) (pass_view pass.old).facts.has.held
        (pass_view pass.old).facts.waits (pass_view pass.new) }
{
    stand_in(mutex.state(pass))
}

/// Goes on with a mutex that is on its way, until it comes to the first of the line.
#[cold]
#[inline(never)]
fn send(mutex: &Mutex<()>, pass: &mut MutexPass<()>, under: Under) -> u64
    requires ample { ample_of mutex.now.semaphore.queue ≡ true }
    requires belongs { Belongs mutex.now pass.old }
    requires owes { HasUnder (pass_view pass.old).facts under }
    requires further { (pass_view pass.old).facts.has.further ≡ 0 }
    requires alone { (pass_view pass.old).alone ≡ true }
    requires way { (plain_after (pass_view pass.old)).way ≡ 1 }
    ensures belongs { Belongs mutex.now pass.new }
    ensures first { IsFirstOf (plain_after (pass_view pass.old)).line result }
    ensures seen { (pass_view pass.new).seen ≡ (pass_view pass.old).seen ++ Deliver result ∷ [] }
    ensures same { IsSame (pass_view pass.old) (pass_view pass.new) }
    ensures rests { Rests (pass_view pass.old) (pass_view pass.old).facts.has.held
        (pass_view pass.old).facts.waits (pass_view pass.new) }
{
    let mut reached = under.reached();
    let mut under = under;
    loop {
        match mutex.finish(pass, under) {
            Released::Sent(number) => return number,
            Released::Under(next) => {
                reached = next.reached();
                under = next;
            }
            _ => unreachable!(),
        }
    }
}
