//! The count down, and the end of what it owes.

ghost use Rattle.std.specs.Prelude.{◌≡◌, ◌+◌, true, pos, ◌≤ℤ◌, ◌<◌, IsOk, IfOk, IfErr, OnErr, OnOk};
ghost use Rattle.cqs_words.specs.State.{count_in, is_above_zero};
ghost use Rattle.cqs_latch.specs.Alone.{FinishesByNumber, FinishesInOrder, IsPlainCount, IsPlainFinish, IsPlainOpening, OpensByNumber, OpensInOrder};
ghost use Rattle.cqs_latch.specs.CountAnswers.{HasCounted, HasFinished, IsReadyAfter, IsRefused, OwesForSlot, OwesNothing};
ghost use Rattle.cqs_latch.specs.LatchMade.{mode_of};
ghost use Rattle.cqs_latch.specs.Owed.{HasOwed, owed_reached, owed_under};
ghost use Rattle.cqs_rule_laws.specs.CallRule.{IsReady};
ghost use Rattle.cqs_latch.specs.Calls.{IsMine, KeepsWaits};
ghost use Rattle.cqs_rule.specs.Claims.{WantsSlot};
ghost use Rattle.cqs_rule.specs.Passes.{ample_of, pass_view, client_of};
ghost use Rattle.cqs_rule_laws.specs.declared.config.CancelMode.TheVariants.{Simple, Smart};

use crate::answers::{Down, Owed};
use crate::events::resumptions_for;
use crate::latch::{Latch, LatchPass};
use crate::steps::{count_down, load_to_count, open, turn_back};
use cqs_rule::{Carries, Crowded};
use cqs_words::StateWord;

impl<T: Carries + Send> Latch<T> {
    /// Counts the latch down by one. Who counts down the last one opens it, and resumes each who
    /// waits. It is refused as crowded where the count isn't used up, and there is no slot for a
    /// segment.
    pub fn count_down(&self, pass: &mut LatchPass<T>) -> Result<Down, Crowded>
        requires belongs { IsMine self.now pass.old }
        requires ready { IsReady (pass_view pass.old).facts }
        ensures belongs { IsMine self.now pass.new }
        ensures never_crowded { ample_of self.now.queue ≡ true → IsOk result }
        ensures crowded { OnErr result (IsRefused (pass_view pass.old) (pass_view pass.new)) }
        ensures counted { IfOk result
            (λ down. HasCounted (pass_view pass.old) down (pass_view pass.new)) }
        ensures simple_ends { ample_of self.now.queue ≡ true
            → mode_of (client_of self.now.queue) ≡ Simple → IfOk result OwesNothing }
        ensures simple_wants { mode_of (client_of self.now.queue) ≡ Simple
            → IfOk result (λ down. OwesForSlot (pass_view pass.old) down (pass_view pass.new)) }
        ensures ready { IfOk result (λ down. IsReadyAfter down (pass_view pass.new).facts) }
        ensures ready_again { OnErr result (IsReady (pass_view pass.new).facts) }
        ensures keeps { KeepsWaits (pass_view pass.old) (pass_view pass.new) }
        ensures alone { (pass_view pass.old).alone ≡ true
            → IfOk result (λ down. IsPlainCount (pass_view pass.old) down) }
        ensures alone_opens { (pass_view pass.old).alone ≡ true
            → IfOk result (λ down. IsPlainOpening down (pass_view pass.new)) }
        ensures alone_in_order { (pass_view pass.old).alone ≡ true
            → mode_of (client_of self.now.queue) ≡ Smart
            → IfOk result (λ down. OpensInOrder (pass_view pass.old) down (pass_view pass.new)) }
        ensures alone_by_number { (pass_view pass.old).alone ≡ true
            → mode_of (client_of self.now.queue) ≡ Simple
            → IfOk result (λ down. OpensByNumber (pass_view pass.old) down (pass_view pass.new)) }
    {
        let loaded = load_to_count(&self.queue, pass);
        if !StateWord::is_above_zero(loaded) {
            return Ok(Down::Already);
        }
        let Ok(()) = self.queue.claim_spares(pass, 1) else {
            turn_back(&self.queue, pass, loaded);
            return Err(Crowded);
        };
        let found = count_down(&self.queue, pass, loaded);
        if !StateWord::is_above_zero(found) {
            return Ok(Down::Already);
        }
        let left = left_after(found);
        if left > 0 {
            return Ok(Down::Left(left));
        }
        let waiters = resumptions_for(open(&self.queue, pass));
        match self.wake(pass, waiters) {
            None => Ok(Down::Last),
            Some(owed) => Ok(Down::LastOwing(owed)),
        }
    }

    /// Goes on with the resumptions of an opened latch that were handed back. It hands them back
    /// again where 64 more numbers were passed over, or there is no slot for the segment of the
    /// next.
    pub fn finish(&self, pass: &mut LatchPass<T>, owed: Owed) -> Result<(), Owed>
        requires belongs { IsMine self.now pass.old }
        requires owes { HasOwed (pass_view pass.old).facts owed }
        ensures belongs { IsMine self.now pass.new }
        ensures finished { HasFinished owed (pass_view pass.old) result (pass_view pass.new) }
        ensures grown { ample_of self.now.queue ≡ true
            → IfErr result (λ again. owed_reached owed < owed_reached again) }
        ensures simple_ends { ample_of self.now.queue ≡ true
            → mode_of (client_of self.now.queue) ≡ Simple → IsOk result }
        ensures simple_wants { mode_of (client_of self.now.queue) ≡ Simple
            → IfErr result (λ again. WantsSlot (owed_under again) (pass_view pass.old)
            (pass_view pass.new)) }
        ensures ready { OnOk result (IsReady (pass_view pass.new).facts) }
        ensures owes { IfErr result (λ again. HasOwed (pass_view pass.new).facts again) }
        ensures keeps { KeepsWaits (pass_view pass.old) (pass_view pass.new) }
        ensures alone { (pass_view pass.old).alone ≡ true
            → IsPlainFinish result (pass_view pass.new) }
        ensures alone_in_order { (pass_view pass.old).alone ≡ true
            → mode_of (client_of self.now.queue) ≡ Smart
            → FinishesInOrder (pass_view pass.old) result (pass_view pass.new) }
        ensures alone_by_number { (pass_view pass.old).alone ≡ true
            → mode_of (client_of self.now.queue) ≡ Simple
            → FinishesByNumber (pass_view pass.old) result (pass_view pass.new) }
    {
        let Owed { under, further } = owed;
        if let Some(under) = self.wake_on(pass, under) {
            return Err(Owed { under, further });
        }
        match self.wake(pass, further) {
            None => Ok(()),
            Some(owed) => Err(owed),
        }
    }
}

// What is left of a count above 0 of which one was taken, by the word that was found.
fn left_after(found: u64) -> u32
    requires above { is_above_zero found ≡ true }
    requires few { count_in found ≤ℤ pos 1048576 }
    ensures { count_in found ≡ pos (result + 1) }
{
    (StateWord::read(found).value - 1) as u32
}
