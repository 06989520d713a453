//! The cancel: a party withdraws, as long as others are still to arrive.

ghost use Rattle.std.specs.Prelude.{◌≡◌, true};
ghost use Rattle.cqs_core.specs.declared.doings.Doing.TheVariants as doing;
ghost use Rattle.cqs_rule_laws.specs.Crew.{IsBetween};
ghost use Rattle.cqs_rule.specs.Passes.{pass_view};
ghost use Rattle.cqs_rule_laws.specs.Placed.{KnowsPlace};
ghost use Rattle.cqs_rule.specs.Waits.{place_of, HasWait};
ghost use Rattle.cqs_barrier.specs.Alone.{IsPlainCancel};
ghost use Rattle.cqs_rule_laws.specs.CallRule.{IsReady};
ghost use Rattle.cqs_barrier.specs.Calls.{IsMine};
ghost use Rattle.cqs_barrier.specs.Leaving.{HasLeaving, HasLeft, HasLoaded, Leaves, LeavesFrom, leaving_at};
ghost use Rattle.cqs_barrier.specs.Waits.{wait_in};

use crate::answers::{Leaving, PartyLeft, PartyWait};
use crate::barrier::{Barrier, BarrierPass};
use crate::client::BarrierClient;
use crate::steps::{look_to_leave, withdraw_once};
use crate::word::{over, remaining};
use cqs_cell::{begin_cancel, look, settle};
use cqs_rule::{Cancels, Carries, Place};

impl<T: Carries + Send> Barrier<T> {
    /// Ends a wait: the party withdraws and is to arrive again, or it counts as through, since all
    /// have arrived.
    pub fn cancel(&self, pass: &mut BarrierPass<T>, wait: PartyWait) -> PartyLeft
        requires belongs { IsMine self.now pass.old }
        requires ready { IsReady (pass_view pass.old).facts }
        requires has { HasWait (pass_view pass.old) (wait_in wait) }
        ensures belongs { IsMine self.now pass.new }
        ensures left { HasLeft (place_of (wait_in wait)).index (pass_view pass.old) result
            (pass_view pass.new) }
        ensures alone { (pass_view pass.old).alone ≡ true
            → IsPlainCancel (place_of (wait_in wait)).index (pass_view pass.old) result
            (pass_view pass.new) }
    {
        let PartyWait { wait } = wait;
        let at = self.queue.spend_wait(pass, wait);
        match begin_cancel(&self.queue, pass, at) {
            Ok(()) => self.leave(pass, at),
            Err(_) => {
                look::<BarrierClient<T>, Cancels>(&self.queue, pass, at);
                PartyLeft::TooLate
            }
        }
    }

    /// Goes on with a leaving where others were first.
    pub fn leave_again(&self, pass: &mut BarrierPass<T>, leaving: Leaving) -> PartyLeft
        requires belongs { IsMine self.now pass.old }
        requires has { HasLeaving (pass_view pass.old) leaving }
        ensures belongs { IsMine self.now pass.new }
        ensures left { HasLeft (leaving_at leaving).index (pass_view pass.old) result
            (pass_view pass.new) }
    {
        let Leaving { at } = leaving;
        self.leave(pass, at)
    }

    // Loads the remaining number, and goes on from there.
    fn leave(&self, pass: &mut BarrierPass<T>, at: Place) -> PartyLeft
        requires belongs { IsMine self.now pass.old }
        requires leaving { (pass_view pass.old).facts.doing ≡ doing.Leaving at.index }
        requires further { (pass_view pass.old).facts.has.further ≡ 0 }
        requires place { KnowsPlace (pass_view pass.old) at }
        ensures belongs { IsMine self.now pass.new }
        ensures leaves { Leaves at.index (pass_view pass.old) result (pass_view pass.new) }
    {
        let saw = look_to_leave(&self.queue, pass, at.index);
        self.leave_from(pass, at, saw)
    }

    /// Goes on with a leaving from the remaining number that its pass has loaded before, as
    /// `cancel` and `leave_again` do: it exchanges the number for one more where others were still
    /// to arrive.
    pub fn leave_from(&self, pass: &mut BarrierPass<T>, at: Place, saw: u64) -> PartyLeft
        requires belongs { IsMine self.now pass.old }
        requires loaded { HasLoaded at.index saw (pass_view pass.old) }
        requires further { (pass_view pass.old).facts.has.further ≡ 0 }
        requires place { KnowsPlace (pass_view pass.old) at }
        ensures belongs { IsMine self.now pass.new }
        ensures leaves { LeavesFrom at.index saw (pass_view pass.old) result (pass_view pass.new) }
    {
        if over(saw) {
            return match settle(&self.queue, pass, at, false) {
                Ok(None) => PartyLeft::TooLate,
                Ok(Some(_)) => PartyLeft::TooLate,
                Err(_) => unreachable!(),
            };
        }
        let found = withdraw_once(&self.queue, pass, at.index, saw);
        if found != saw {
            return PartyLeft::Contended {
                saw: remaining(saw),
                found: remaining(found),
                leaving: Leaving { at },
            };
        }
        // One who withdraws finds nothing left in its cell: nobody resumes before all have arrived,
        // and its own party hasn't.
        match settle(&self.queue, pass, at, true) {
            Ok(None) => PartyLeft::Withdrawn,
            Ok(Some(_)) => unreachable!(),
            Err(_) => unreachable!(),
        }
    }
}
