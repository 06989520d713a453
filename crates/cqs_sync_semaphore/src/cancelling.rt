//! The cancel.

ghost use Rattle.std.specs.Prelude.{◌≡◌, true};
ghost use Rattle.cqs_rule_laws.specs.CallRule.{IsReady};
ghost use Rattle.cqs_rule.specs.Passes.{pass_view};
ghost use Rattle.cqs_rule.specs.Waits.{place_of, HasWait};
ghost use Rattle.cqs_semaphore.specs.Alone.{HasNoneOnWay};
ghost use Rattle.cqs_sync_semaphore.specs.Alone.{IsPlainCancel};
ghost use Rattle.cqs_sync_semaphore.specs.Answers.{Cancels};
ghost use Rattle.cqs_sync_semaphore.specs.Calls.{IsMine};

use crate::answers::SyncLeft;
use crate::sync_semaphore::SyncSemaphore;
use cqs_cancel::{Left, cancel};
use cqs_rule::{Carries, Wait};
use cqs_semaphore::{SemPass, permit_by};

impl<T: Carries + Send> SyncSemaphore<T> {
    /// Ends a wait: the caller leaves the line, or has the permit that had come before. No release
    /// leaves a permit to a caller who leaves, so there is nothing to pass on.
    #[inline(always)]
    pub fn cancel(&self, pass: &mut SemPass<T>, wait: Wait) -> SyncLeft
        requires belongs { IsMine self.now pass.old }
        requires ready { IsReady (pass_view pass.old).facts }
        requires has { HasWait (pass_view pass.old) wait }
        ensures belongs { IsMine self.now pass.new }
        ensures cancelled { Cancels (place_of wait).index (pass_view pass.old) result
            (pass_view pass.new) }
        ensures ready { IsReady (pass_view pass.new).facts }
        ensures alone { (pass_view pass.old).alone ≡ true
            → IsPlainCancel (place_of wait).index (pass_view pass.old) result }
        ensures alone_brings_none { (pass_view pass.old).alone ≡ true
            → HasNoneOnWay (pass_view pass.new) }
    {
        let number = wait.number();
        match cancel(&self.queue, pass, wait) {
            Left::Gone => SyncLeft::Cancelled,
            Left::GoneOwing(_) => unreachable!(),
            Left::Late(_) => SyncLeft::TooLate(permit_by(pass, Some(number))),
        }
    }
}
