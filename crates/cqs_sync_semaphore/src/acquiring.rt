//! The acquire.

ghost use Rattle.std.specs.Prelude.{◌≡◌, true, IfOk, OnOk, IsErrOf};
ghost use Rattle.cqs_core.specs.declared.doings.Doing.TheVariants as doing;
ghost use Rattle.cqs_rule_laws.specs.CallRule.{IsReady};
ghost use Rattle.cqs_rule.specs.Claims.{CanExtend};
ghost use Rattle.cqs_rule.specs.Passes.{ample_of, pass_view};
ghost use Rattle.cqs_semaphore.specs.Answers.{IsBelow, IsCrowded, IsWorn};
ghost use Rattle.cqs_semaphore.specs.Calls.{CallRule};
ghost use Rattle.cqs_sync_semaphore.specs.Alone.{IsPlainAcquire};
ghost use Rattle.cqs_sync_semaphore.specs.Answers.{Acquires};
ghost use Rattle.cqs_sync_semaphore.specs.Calls.{IsMine};
ghost use Rattle.cqs_sync_semaphore.specs.Entries.{acquired_entries, acquired_further};
ghost use Rattle.cqs_sync_semaphore.specs.Steps.{WaitsInLine};

use crate::answers::SyncAcquired;
use crate::sync_semaphore::SyncSemaphore;
use cqs_rule::{AcquireError, Carries};
use cqs_semaphore::{SemPass, permit_by};
use cqs_semaphore_client::{next_wait, take_permit};
use cqs_suspend::{SyncSuspended, suspend_sync};

impl<T: Carries + Send> SyncSemaphore<T> {
    /// A permit where one is free, or else a wait for one; or none, where the permit for its number
    /// was taken back before. It is refused as a `Semaphore`'s is.
    #[inline(always)]
    pub fn acquire(&self, pass: &mut SemPass<T>) -> Result<SyncAcquired, AcquireError>
        requires belongs { IsMine self.now pass.old }
        requires ready { IsReady (pass_view pass.old).facts }
        ensures belongs { IsMine self.now pass.new }
        ensures called { CallRule (pass_view pass.old)
            (acquired_entries (pass_view pass.old).number result) (acquired_further result)
            (pass_view pass.new) }
        ensures worn { IsErrOf result AcquireError.Worn
            → IsWorn (pass_view pass.old) (pass_view pass.new) }
        ensures crowded { IsErrOf result AcquireError.Crowded
            → IsCrowded (pass_view pass.old) (pass_view pass.new) }
        ensures never_crowded { ample_of self.now.queue ≡ true
            → ¬ IsErrOf result AcquireError.Crowded }
        ensures below { OnOk result (IsBelow (pass_view pass.old) (pass_view pass.new)) }
        ensures acquired { IfOk result
            (λ acquired. Acquires (pass_view pass.old) acquired (pass_view pass.new)) }
        ensures ready { IsReady (pass_view pass.new).facts }
        ensures alone { (pass_view pass.old).alone ≡ true
            → IfOk result (λ acquired. IsPlainAcquire (pass_view pass.old) acquired) }
    {
        if next_wait(&self.queue, pass) >= self.queue.limit() {
            return Err(AcquireError::Worn);
        }
        let Ok(()) = self.queue.claim_spares(pass, 2) else {
            return Err(AcquireError::Crowded);
        };
        if take_permit(&self.queue, pass).is_above_zero() {
            return Ok(SyncAcquired::Now(permit_by(pass, None)));
        }
        Ok(self.wait_in_line(pass))
    }

    // Goes from the door to the line.
    #[inline(always)]
    fn wait_in_line(&self, pass: &mut SemPass<T>) -> SyncAcquired
        requires belongs { IsMine self.now pass.old }
        requires spare { CanExtend self.now.queue pass.old }
        requires door { (pass_view pass.old).facts.doing ≡ doing.Door }
        ensures belongs { IsMine self.now pass.new }
        ensures waits { WaitsInLine (pass_view pass.old) result (pass_view pass.new) }
    {
        match suspend_sync(&self.queue, pass) {
            SyncSuspended::Waits(wait) => SyncAcquired::Later(wait),
            SyncSuspended::Took { number, .. } => {
                SyncAcquired::Now(permit_by(pass, Some(number)))
            }
            SyncSuspended::Broke(number) => SyncAcquired::Broke(number),
        }
    }
}
