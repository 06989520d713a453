//! The one history in which the calls of all callers stand.

ghost use Rattle.std.specs.Prelude.{◌≡◌, true};
ghost use Rattle.cqs_rule.specs.Histories.{AreOf, HaveLookedOn, IsHistoryOf};
ghost use Rattle.cqs_rule.specs.Passes.{pass_view};
ghost use Rattle.cqs_rule_laws.specs.CallRule.{IsReady};
ghost use Rattle.cqs_rule_laws.specs.Crew.{MadeNone};
ghost use Rattle.cqs_semaphore.specs.Calls.{IsMine};
ghost use Rattle.cqs_semaphore.specs.Histories.{CallHasItsPlace, CallsStandInOrder};
ghost use Rattle.cqs_semaphore.specs.Seats.{LookedOn};
ghost use Rattle.cqs_semaphore_client.specs.PlainHistories.{IsPlainHistory};

use crate::semaphore::{SemPass, Semaphore};
use cqs_rule::Carries;

impl<T: Carries + Send> Semaphore<T> {
    /// The calls of all these passes stand in one legal history of the plain semaphore, whether the
    /// passes ever meet or not: that which the first one has seen then. It begins with what each of
    /// them had seen, and has the entries of its calls once, in order.
    pub fn one_history(&self, pass: &mut SemPass<T>, others: &mut [SemPass<T>])
        requires belongs { IsMine self.now pass.old }
        requires others_belong { AreOf self.now.queue others.old }
        ensures belongs { IsMine self.now pass.new }
        ensures others_belong { AreOf self.now.queue others.new }
        ensures looked { LookedOn (pass_view pass.old) (pass_view pass.new) }
        ensures kept { (pass_view pass.old).alone ≡ true → (pass_view pass.new).alone ≡ true }
        ensures ready { IsReady (pass_view pass.old).facts → IsReady (pass_view pass.new).facts }
        ensures made_none { MadeNone (pass_view pass.old) (pass_view pass.new) }
        ensures others_looked { HaveLookedOn others.old others.new }
        ensures history { IsHistoryOf (pass_view pass.new) pass.old others.old }
    {
        self.queue.one_history(pass, others)
    }
}

/// The law of the one history, for what a pass has seen by now. Where the pass stands in a history,
/// its last call has its place there: behind all that its caller had seen before the call, and with
/// its entries once. So have all calls that the caller made, in order.
pub fn calls_stand_in_one_history<T: Carries + Send>(_pass: &SemPass<T>)
    ensures each { CallHasItsPlace (pass_view _pass.now) }
    ensures all { CallsStandInOrder (pass_view _pass.now) }
{}

/// The law of such a semaphore: what a pass has seen is a legal history of the plain semaphore in
/// which no number is broken, since its resumes leave no value that they watch.
pub fn no_number_is_broken<T: Carries + Send>(_semaphore: &Semaphore<T>, _pass: &SemPass<T>)
    requires belongs { IsMine _semaphore.now _pass.now }
    ensures { IsPlainHistory (pass_view _pass.now).opening.size (pass_view _pass.now).seen }
{}
