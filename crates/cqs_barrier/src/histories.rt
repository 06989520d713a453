//! The one history in which the calls of all callers stand.

ghost use Rattle.std.specs.Prelude.{◌≡◌, true};
ghost use Rattle.cqs_rule.specs.Histories.{AreOf, HaveLookedOn, IsHistoryOf};
ghost use Rattle.cqs_rule.specs.Passes.{pass_view};
ghost use Rattle.cqs_rule.specs.Seats.{HasLookedOn};
ghost use Rattle.cqs_barrier.specs.Calls.{IsMine};
ghost use Rattle.cqs_rule_laws.specs.Crew.{MadeNone};

use crate::barrier::{Barrier, BarrierPass};
use cqs_rule::Carries;

impl<T: Carries + Send> Barrier<T> {
    /// The calls of all these passes stand in one legal history of the plain barrier, whether the
    /// passes ever meet or not: that which the first one has seen then. It begins with what each of
    /// them had seen, and has the entries of its calls once, in order.
    pub fn one_history(&self, pass: &mut BarrierPass<T>, others: &mut [BarrierPass<T>])
        requires belongs { IsMine self.now pass.old }
        requires others_belong { AreOf self.now.queue others.old }
        ensures belongs { IsMine self.now pass.new }
        ensures others_belong { AreOf self.now.queue others.new }
        ensures looked { HasLookedOn pass.old pass.new }
        ensures kept { (pass_view pass.old).alone ≡ true → (pass_view pass.new).alone ≡ true }
        ensures made_none { MadeNone (pass_view pass.old) (pass_view pass.new) }
        ensures others_looked { HaveLookedOn others.old others.new }
        ensures history { IsHistoryOf (pass_view pass.new) pass.old others.old }
    {
        self.queue.one_history(pass, others)
    }
}
