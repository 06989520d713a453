//! The release, and the end of one that was handed back.

ghost use Rattle.std.specs.Prelude.{◌≡◌, ◌<◌, [], false, true, None, IsOk, IfErr, IfOk, OnErr};
ghost use Rattle.cqs_core.specs.declared.doings.Doing.TheVariants as doing;
ghost use Rattle.cqs_rule_laws.specs.CallRule.{IsReady};
ghost use Rattle.cqs_rule_laws.specs.Crew.{IsBetween};
ghost use Rattle.cqs_rule.specs.Claims.{WasCrowded};
ghost use Rattle.cqs_rule.specs.Owed.{HasUnder, under_reached};
ghost use Rattle.cqs_rule.specs.Passes.{ample_of, pass_view};
ghost use Rattle.cqs_semaphore.specs.Calls.{CallRule, plain_after};
ghost use Rattle.cqs_semaphore.specs.Permits.{number_of};
ghost use Rattle.cqs_sync_semaphore.specs.Alone.{IsPlainEnd, IsPlainRelease, IsTurnedBack};
ghost use Rattle.cqs_sync_semaphore.specs.Answers.{Ends, Releases};
ghost use Rattle.cqs_sync_semaphore.specs.Calls.{IsMine};
ghost use Rattle.cqs_sync_semaphore.specs.Owed.{number_under, token_of, HasDrawnPast, IsFurther};
ghost use Rattle.cqs_sync_semaphore.specs.Steps.{HasEnded, HoldsIfBroken, IsAnswered};

use crate::answers::{SyncReleased, Under};
use crate::sync_semaphore::SyncSemaphore;
use cqs_resume::{SyncResumed, finish_sync, resume_sync};
use cqs_rule::{Carries, Crowded};
use cqs_semaphore::{Permit, SemPass, permit_by};
use cqs_semaphore_client::give_permit;

impl<T: Carries + Send> SyncSemaphore<T> {
    /// Gives a permit back: it is free, or it goes to the first who waits. Where that caller hasn't
    /// come yet, the permit is held out for as many looks as the semaphore was made with, and comes
    /// back where nobody took it. It is refused as a `Semaphore`'s is.
    #[inline(always)]
    pub fn release(
        &self,
        pass: &mut SemPass<T>,
        permit: Permit,
    ) -> Result<SyncReleased, (Permit, Crowded)>
        requires belongs { IsMine self.now pass.old }
        requires ready { IsReady (pass_view pass.old).facts }
        requires holds { 0 < (pass_view pass.old).facts.has.held }
        requires bare { T.kept ≡ false }
        ensures belongs { IsMine self.now pass.new }
        ensures refused { OnErr result (CallRule (pass_view pass.old) [] [] (pass_view pass.new)) }
        ensures crowded { OnErr result (WasCrowded 1 (pass_view pass.old).facts
            (pass_view pass.old) (pass_view pass.new)) }
        ensures never_crowded { ample_of self.now.queue ≡ true → IsOk result }
        ensures back { IfErr result (λ refused. refused.0 ≡ permit) }
        ensures ready { OnErr result (IsReady (pass_view pass.new).facts) }
        ensures released { IfOk result
            (λ released. Releases (number_of permit) (pass_view pass.old) released
            (pass_view pass.new)) }
        ensures between { IsBetween (pass_view pass.new).facts }
        ensures alone { (pass_view pass.old).alone ≡ true
            → IfOk result (λ released. IsPlainRelease (pass_view pass.old) released
            (pass_view pass.new)) }
    {
        let Ok(()) = self.queue.claim_spares(pass, 1) else {
            return Err((permit, Crowded));
        };
        let number = permit.number();
        if give_permit(&self.queue, pass).is_below_zero() {
            return Ok(self.send(pass, number));
        }
        Ok(SyncReleased::Freed)
    }

    /// Goes on with a permit that is on its way, and whose resumption was handed back. It may be
    /// handed back again, and it never answers `Freed`.
    #[inline(always)]
    pub fn finish(&self, pass: &mut SemPass<T>, under: Under) -> SyncReleased
        requires belongs { IsMine self.now pass.old }
        requires owes { HasUnder (pass_view pass.old).facts (token_of under) }
        requires further { (pass_view pass.old).facts.has.further ≡ 0 }
        ensures belongs { IsMine self.now pass.new }
        ensures ends { Ends [] (pass_view pass.old).facts.has.held
            (pass_view pass.old).facts.waits (number_under under) (pass_view pass.old) result
            (pass_view pass.new) }
        ensures further { ample_of self.now.queue ≡ true
            → IsFurther (under_reached (token_of under)) result }
        ensures drawn_past { HasDrawnPast (under_reached (token_of under)) result }
        ensures between { IsBetween (pass_view pass.new).facts }
        ensures alone { (pass_view pass.old).alone ≡ true
            → (plain_after (pass_view pass.old)).way ≡ 1
            → IsPlainEnd (pass_view pass.old) result (pass_view pass.new) }
        ensures alone_turned { (pass_view pass.old).alone ≡ true
            → (plain_after (pass_view pass.old)).way ≡ 0
            → IsTurnedBack (pass_view pass.old) result (pass_view pass.new) }
    {
        let Under { token, number } = under;
        let resumed = finish_sync(&self.queue, pass, token);
        released(pass, resumed, number)
    }

    // Resumes for a permit that was sent to the line.
    #[inline(always)]
    fn send(&self, pass: &mut SemPass<T>, number: Option<u64>) -> SyncReleased
        requires belongs { IsMine self.now pass.old }
        requires owes { (pass_view pass.old).facts.doing ≡ doing.Owes }
        requires payload { (pass_view pass.old).facts.has.payload ≡ 0 }
        ensures belongs { IsMine self.now pass.new }
        ensures ended { HasEnded None 0 number (pass_view pass.old) result (pass_view pass.new) }
    {
        let resumed = resume_sync(&self.queue, pass, 0);
        released(pass, resumed, number)
    }
}

// What the end of a resumption means for the permit, which had come with this number.
fn released<T: Carries>(
    pass: &SemPass<T>,
    resumed: SyncResumed,
    number: Option<u64>,
) -> SyncReleased
    requires holds { HoldsIfBroken resumed (pass_view pass.now).facts }
    ensures { IsAnswered number resumed result }
{
    match resumed {
        SyncResumed::Served(wait) => SyncReleased::Sent(wait),
        SyncResumed::Refused(wait) => SyncReleased::Void(wait),
        SyncResumed::Broke(wait) => SyncReleased::Broke(wait, permit_by(pass, number)),
        SyncResumed::Handling(wait, token) => SyncReleased::Handling(wait, Under { token, number }),
        SyncResumed::Under(token) => SyncReleased::Under(Under { token, number }),
    }
}
