//! The release, and the end of one that was handed back.

ghost use Rattle.std.specs.Prelude.{◌≡◌, ◌<◌, [], true, None, IsOk, IfErr, IfOk, OnErr, OnOk};
ghost use Rattle.cqs_core.specs.declared.doings.Doing.TheVariants as doing;
ghost use Rattle.cqs_rule_laws.specs.Crew.{IsBetween};
ghost use Rattle.cqs_rule.specs.Claims.{WasCrowded};
ghost use Rattle.cqs_rule.specs.Owed.{HasUnder, under_payload, under_reached, under_ticket};
ghost use Rattle.cqs_rule.specs.Passes.{ample_of, pass_view};
ghost use Rattle.cqs_semaphore_client.specs.SemaphoreSlots.{IsFull, GaveValue};
ghost use Rattle.cqs_semaphore.specs.Alone.{IsPlainRelease, IsPlainEnd, IsTurnedBack};
ghost use Rattle.cqs_semaphore.specs.Answers.{Releases, Ends, most_passed_over};
ghost use Rattle.cqs_rule_laws.specs.CallRule.{IsReady};
ghost use Rattle.cqs_semaphore.specs.Calls.{IsMine, CallRule, plain_after};
ghost use Rattle.cqs_semaphore.specs.Permits.{number_of};
ghost use Rattle.cqs_semaphore.specs.Entries.{released_entries, released_further, resumed_further};
ghost use Rattle.cqs_semaphore.specs.Steps.{as_released, HasDrawnPast, HasEnded, IsFurther};

use crate::answers::{Permit, Released};
use crate::semaphore::{SemPass, Semaphore};
use cqs_resume::{Resumed, finish, resume};
use cqs_rule::{Carries, Crowded, Under};
use cqs_semaphore_client::give_permit;

impl<T: Carries + Send> Semaphore<T> {
    /// Gives a permit back: it is free, or it goes to the first who waits. A permit that carries a
    /// value hands it in: the value must lie in the slot. It is refused as crowded where the pass
    /// has no slot spare and each slot was seen not free; the permit comes back then.
    #[inline(always)]
    pub fn release(
        &self,
        pass: &mut SemPass<T>,
        permit: Permit,
    ) -> Result<Released, (Permit, Crowded)>
        requires belongs { IsMine self.now pass.old }
        requires ready { IsReady (pass_view pass.old).facts }
        requires holds { 0 < (pass_view pass.old).facts.has.held }
        requires full { IsFull T.kept (pass_view pass.old) }
        ensures belongs { IsMine self.now pass.new }
        ensures handed { OnOk result
            (GaveValue T.kept (pass_view pass.old) (pass_view pass.new)) }
        ensures called { CallRule (pass_view pass.old)
            (released_entries (pass_view pass.old).number result) (released_further result)
            (pass_view pass.new) }
        ensures crowded { OnErr result (WasCrowded 1 (pass_view pass.old).facts
            (pass_view pass.old) (pass_view pass.new)) }
        ensures never_crowded { ample_of self.now.queue ≡ true → IsOk result }
        ensures back { IfErr result (λ refused. refused.0 ≡ permit) }
        ensures ready { OnErr result (IsReady (pass_view pass.new).facts) }
        ensures laid { OnErr result ((pass_view pass.new).laid ≡ (pass_view pass.old).laid) }
        ensures released { IfOk result
            (λ released. Releases (pass_view pass.old) released (pass_view pass.new)) }
        ensures between { IsBetween (pass_view pass.new).facts }
        ensures alone { (pass_view pass.old).alone ≡ true
            → IfOk result (λ released. IsPlainRelease (pass_view pass.old) released
            (pass_view pass.new)) }
    {
        let Ok(()) = self.queue.claim_spares(pass, 1) else {
            return Err((permit, Crowded));
        };
        let Permit { .. } = permit;
        if give_permit(&self.queue, pass).is_below_zero() {
            return Ok(self.send(pass));
        }
        Ok(Released::Freed)
    }

    /// Goes on with a permit that is on its way, and whose resumption was handed back. It may be
    /// handed back again: where as many numbers were passed over as one call may, or for want of a
    /// slot.
    #[inline(always)]
    pub fn finish(&self, pass: &mut SemPass<T>, under: Under) -> Released
        requires belongs { IsMine self.now pass.old }
        requires owes { HasUnder (pass_view pass.old).facts under }
        requires further { (pass_view pass.old).facts.has.further ≡ 0 }
        ensures belongs { IsMine self.now pass.new }
        ensures called { CallRule (pass_view pass.old) [] (resumed_further result)
            (pass_view pass.new) }
        ensures ends { Ends (pass_view pass.old) (pass_view pass.old).facts.has.held
            (pass_view pass.old).facts.waits result (pass_view pass.new) }
        ensures further { ample_of self.now.queue ≡ true
            → IsFurther (under_reached under) result }
        ensures drawn_past { HasDrawnPast (under_reached under) result }
        ensures between { IsBetween (pass_view pass.new).facts }
        ensures alone { (pass_view pass.old).alone ≡ true
            → (plain_after (pass_view pass.old)).way ≡ 1
            → IsPlainEnd (pass_view pass.old) result (pass_view pass.new) }
        ensures alone_turned { (pass_view pass.old).alone ≡ true
            → (plain_after (pass_view pass.old)).way ≡ 0
            → IsTurnedBack (pass_view pass.old) result (pass_view pass.new) }
    {
        release_after(finish(&self.queue, pass, under))
    }

    /// A token of a permit that the pass holds, for a caller who counts its permits and keeps no
    /// tokens of them. It makes no step.
    pub fn permit_of(&self, pass: &SemPass<T>) -> Permit
        requires holds { 0 < (pass_view pass.now).facts.has.held }
        ensures { number_of result ≡ None }
    {
        permit_by(pass, None)
    }

    // Resumes for a permit that was sent to the line.
    #[inline(always)]
    fn send(&self, pass: &mut SemPass<T>) -> Released
        requires belongs { IsMine self.now pass.old }
        requires owes { (pass_view pass.old).facts.doing ≡ doing.Owes }
        requires payload { (pass_view pass.old).facts.has.payload ≡ 0 }
        ensures belongs { IsMine self.now pass.new }
        ensures ended { HasEnded None 0 (pass_view pass.old) result (pass_view pass.new) }
    {
        release_after(resume(&self.queue, pass, 0))
    }
}

/// A token of a permit that the pass holds, with the number of the wait by which it came, for a
/// semaphore that is made of these parts. It makes no step.
pub fn permit_by<T: Carries>(_pass: &SemPass<T>, number: Option<u64>) -> Permit
    requires holds { 0 < (pass_view _pass.now).facts.has.held }
    ensures { number_of result ≡ number }
{
    Permit { number }
}

// What the end of a resumption means for the permit.
pub(crate) fn release_after(resumed: Resumed) -> Released
    ensures { result ≡ as_released resumed }
{
    match resumed {
        Resumed::Served(number) => Released::Sent(number),
        Resumed::Left(number) => Released::Left(number),
        Resumed::Refused(number) => Released::Void(number),
        Resumed::Under(under) => Released::Under(under),
    }
}
