//! The cancel.

ghost use Rattle.std.specs.Prelude.{◌≡◌, true};
ghost use Rattle.cqs_core.specs.declared.doings.Doing.TheVariants as doing;
ghost use Rattle.cqs_rule_laws.specs.Crew.{IsBetween};
ghost use Rattle.cqs_rule.specs.Passes.{pass_view};
ghost use Rattle.cqs_rule.specs.Waits.{place_of, HasWait};
ghost use Rattle.cqs_semaphore.specs.Alone.{IsPlainCancel, HandsNone, HasNoneOnWay};
ghost use Rattle.cqs_semaphore.specs.Answers.{Cancels};
ghost use Rattle.cqs_rule_laws.specs.CallRule.{IsReady};
ghost use Rattle.cqs_semaphore.specs.Calls.{IsMine, CallRule};
ghost use Rattle.cqs_semaphore.specs.Entries.{cancelled_entries, passed_further};
ghost use Rattle.cqs_semaphore.specs.Steps.{HasCancelled, PassedOn};

use crate::answers::{CancelAnswer, Permit};
use crate::releasing::release_after;
use crate::semaphore::{SemPass, Semaphore};
use cqs_cancel::{Left, cancel};
use cqs_resume::resume;
use cqs_rule::{Carries, Under, Wait};

impl<T: Carries + Send> Semaphore<T> {
    /// Ends a wait: the caller leaves the line, or has the permit that had come before. Where a
    /// permit was left to the caller who leaves, it goes on to the next one.
    #[inline(always)]
    pub fn cancel(&self, pass: &mut SemPass<T>, wait: Wait) -> CancelAnswer
        requires belongs { IsMine self.now pass.old }
        requires ready { IsReady (pass_view pass.old).facts }
        requires has { HasWait (pass_view pass.old) wait }
        ensures belongs { IsMine self.now pass.new }
        ensures cancelled { HasCancelled (place_of wait).index (pass_view pass.old) result
            (pass_view pass.new) }
        ensures between { IsBetween (pass_view pass.new).facts }
        ensures alone { (pass_view pass.old).alone ≡ true
            → IsPlainCancel (place_of wait).index (pass_view pass.old) result }
        ensures alone_hands_none { (pass_view pass.old).alone ≡ true → HandsNone result }
        ensures alone_brings_none { (pass_view pass.old).alone ≡ true
            → HasNoneOnWay (pass_view pass.new) }
    {
        let number = wait.number();
        match cancel(&self.queue, pass, wait) {
            Left::Gone => CancelAnswer::Cancelled(None),
            Left::GoneOwing(payload) => CancelAnswer::Cancelled(self.pass_on(pass, payload)),
            Left::Late(_) => CancelAnswer::TooLate(Permit {
                number: Some(number),
            }),
        }
    }

    // Goes on with the resumption that had left its value to the caller.
    #[inline(always)]
    fn pass_on(&self, pass: &mut SemPass<T>, payload: u32) -> Option<Under>
        requires belongs { IsMine self.now pass.old }
        requires owes { (pass_view pass.old).facts.doing ≡ doing.Owes }
        requires payload { (pass_view pass.old).facts.has.payload ≡ payload }
        ensures belongs { IsMine self.now pass.new }
        ensures passed { PassedOn payload (pass_view pass.old) result (pass_view pass.new) }
        ensures between { IsBetween (pass_view pass.new).facts }
    {
        release_after(resume(&self.queue, pass, payload)).into_under()
    }
}
