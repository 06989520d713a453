//! The unlock, and the end of one.

ghost use Rattle.std.specs.Prelude.{◌≡◌, ◌<◌, true, [], IsOk, IfErr, IfOk, OnErr, OnOk};
ghost use Rattle.cqs_rule_laws.specs.Crew.{IsBetween};
ghost use Rattle.cqs_rule.specs.Claims.{Crowds};
ghost use Rattle.cqs_rule.specs.Owed.{HasUnder, under_reached};
ghost use Rattle.cqs_rule.specs.Passes.{ample_of, pass_view};
ghost use Rattle.cqs_rule_laws.specs.SlotSteps.{WasHandedBy};
ghost use Rattle.cqs_semaphore_client.specs.Semaphore.{semaphore_object};
ghost use Rattle.cqs_semaphore.specs.Alone.{IsPlainEnd, IsTurnedBack};
ghost use Rattle.cqs_semaphore.specs.Answers.{Ends};
ghost use Rattle.cqs_rule_laws.specs.CallRule.{IsReady};
ghost use Rattle.cqs_semaphore.specs.Calls.{IsMine, CallRule, plain_after};
ghost use Rattle.cqs_semaphore.specs.Entries.{resumed_further};
ghost use Rattle.cqs_semaphore.specs.Steps.{HasDrawnPast, IsFurther};
ghost use Rattle.cqs_mutex.specs.Calls.{HasUnlocked, UnlockLeaves};
ghost use Rattle.cqs_mutex.specs.Guards.{value_of};
ghost use Rattle.cqs_mutex.specs.Mutexes.{Belongs};
ghost use Rattle.cqs_mutex.specs.Values.{in_slot, LaidValue};

use crate::guard::Guard;
use crate::mutex::{Mutex, MutexPass};
use cqs_rule::{Crowded, Kept, Under};
use cqs_semaphore::Released;

impl<T: Send + Drop> Mutex<T> {
    /// Gives the mutex back, with the value that the guard has now: it is free, or it goes to the
    /// first who waits. It is refused as crowded where the pass has no slot spare and each slot was
    /// seen not free; the guard comes back then.
    pub fn unlock(
        &self,
        pass: &mut MutexPass<T>,
        guard: Guard<T>,
    ) -> Result<Released, (Guard<T>, Crowded)>
        requires belongs { Belongs self.now pass.old }
        requires ready { IsReady (pass_view pass.old).facts }
        requires holds { 0 < (pass_view pass.old).facts.has.held }
        ensures belongs { Belongs self.now pass.new }
        ensures crowded { OnErr result (Crowds 1 (pass_view pass.old) (pass_view pass.new)) }
        ensures never_crowded { ample_of self.now.semaphore.queue ≡ true → IsOk result }
        ensures back { IfErr result (λ refused. refused.0 ≡ guard) }
        ensures ready { OnErr result (IsReady (pass_view pass.new).facts) }
        ensures unlocked { IfOk result (λ released.
            HasUnlocked (value_of guard) (pass_view pass.old) released (pass_view pass.new)) }
        ensures handed { OnOk result (WasHandedBy semaphore_object 0 (in_slot (value_of guard))
            (pass_view pass.old) (pass_view pass.new)) }
        ensures between { IsBetween (pass_view pass.new).facts }
        ensures leaves { IfOk result (λ released. UnlockLeaves released (pass_view pass.new)) }
    {
        // Before the value leaves its guard: a release that was refused would leave it in the slot.
        let Ok(()) = self.semaphore.queue().claim_spares(pass, 1) else {
            return Err((guard, Crowded));
        };
        let Guard { value, permit } = guard;
        self.lay(pass, value);
        match self.semaphore.release(pass, permit) {
            Ok(released) => Ok(released),
            Err(_) => unreachable!(),
        }
    }

    // Lays the value of a guard into the slot.
    fn lay(&self, pass: &mut MutexPass<T>, value: T)
        requires belongs { IsMine self.now.semaphore pass.old }
        requires holds { 0 < (pass_view pass.old).facts.has.held }
        ensures belongs { IsMine self.now.semaphore pass.new }
        ensures laid { LaidValue value (pass_view pass.old) (pass_view pass.new) }
    {
        let _ = self
            .semaphore
            .queue()
            .swap_slot(pass, 0, Some(Kept { value }));
    }

    /// Goes on with a mutex that is on its way, and whose resumption was handed back. It may be
    /// handed back again: where as many numbers were passed over as one call may, or for want of a
    /// slot.
    pub fn finish(&self, pass: &mut MutexPass<T>, under: Under) -> Released
        requires belongs { Belongs self.now pass.old }
        requires owes { HasUnder (pass_view pass.old).facts under }
        requires further { (pass_view pass.old).facts.has.further ≡ 0 }
        ensures belongs { Belongs self.now pass.new }
        ensures called { CallRule (pass_view pass.old) [] (resumed_further result)
            (pass_view pass.new) }
        ensures ends { Ends (pass_view pass.old) (pass_view pass.old).facts.has.held
            (pass_view pass.old).facts.waits result (pass_view pass.new) }
        ensures further { ample_of self.now.semaphore.queue ≡ true
            → IsFurther (under_reached under) result }
        ensures drawn_past { HasDrawnPast (under_reached under) result }
        ensures between { IsBetween (pass_view pass.new).facts }
        ensures leaves { UnlockLeaves result (pass_view pass.new) }
        ensures alone { (pass_view pass.old).alone ≡ true
            → (plain_after (pass_view pass.old)).way ≡ 1
            → IsPlainEnd (pass_view pass.old) result (pass_view pass.new) }
        ensures alone_turned { (pass_view pass.old).alone ≡ true
            → (plain_after (pass_view pass.old)).way ≡ 0
            → IsTurnedBack (pass_view pass.old) result (pass_view pass.new) }
    {
        self.semaphore.finish(pass, under)
    }
}
