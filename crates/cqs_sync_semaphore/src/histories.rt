//! The one history in which the calls of all callers stand.

ghost use Rattle.std.specs.Prelude.{◌≡◌, true};
ghost use Rattle.cqs_core.specs.SemaphoreEntries.{IsLegal};
ghost use Rattle.cqs_rule.specs.Histories.{AreOf, HaveLookedOn, IsHistoryOf};
ghost use Rattle.cqs_rule.specs.Passes.{pass_view};
ghost use Rattle.cqs_rule_laws.specs.CallRule.{IsReady};
ghost use Rattle.cqs_rule_laws.specs.Crew.{MadeNone};
ghost use Rattle.cqs_semaphore.specs.Seats.{LookedOn};
ghost use Rattle.cqs_sync_semaphore.specs.Calls.{IsMine};

use crate::sync_semaphore::SyncSemaphore;
use cqs_rule::Carries;
use cqs_semaphore::SemPass;

impl<T: Carries + Send> SyncSemaphore<T> {
    /// The calls of all these passes stand in one legal history of the plain semaphore, with the
    /// numbers that were broken, whether the passes ever meet or not: that which the first one has
    /// seen then. It begins with what each of them had seen, and has the entries of its calls once,
    /// in order.
    pub fn one_history(&self, pass: &mut SemPass<T>, others: &mut [SemPass<T>])
        requires belongs { IsMine self.now pass.old }
        requires others_belong { AreOf self.now.queue others.old }
        ensures belongs { IsMine self.now pass.new }
        ensures others_belong { AreOf self.now.queue others.new }
        ensures looked { LookedOn (pass_view pass.old) (pass_view pass.new) }
        ensures kept { (pass_view pass.old).alone ≡ true → (pass_view pass.new).alone ≡ true }
        ensures ready { IsReady (pass_view pass.old).facts → IsReady (pass_view pass.new).facts }
        ensures made_none { MadeNone (pass_view pass.old) (pass_view pass.new) }
        ensures others_looked { HaveLookedOn others.old others.new }
        ensures history { IsHistoryOf (pass_view pass.new) pass.old others.old }
        ensures legal { IsLegal (pass_view pass.new).opening.size (pass_view pass.new).seen }
    {
        self.queue.one_history(pass, others)
    }
}
