//! The look at a wait.

ghost use Rattle.std.specs.Prelude.{◌≡◌, [], true};
ghost use Rattle.cqs_rule_laws.specs.Lists.{Has};
ghost use Rattle.cqs_rule.specs.Passes.{pass_view};
ghost use Rattle.cqs_rule_laws.specs.Placed.{KnowsPlace};
ghost use Rattle.cqs_rule.specs.Waits.{place_of, HasWait};
ghost use Rattle.cqs_barrier.specs.Alone.{IsPlainPoll};
ghost use Rattle.cqs_barrier.specs.Answers.{IsPolled};
ghost use Rattle.cqs_rule_laws.specs.CallRule.{IsReady};
ghost use Rattle.cqs_barrier.specs.Calls.{IsMine, CallRule};
ghost use Rattle.cqs_barrier.specs.Entries.{polled_entries};
ghost use Rattle.cqs_barrier.specs.Waits.{wait_in};

use crate::answers::{PartyPolled, PartyWait};
use crate::barrier::{Barrier, BarrierPass};
use crate::client::BarrierClient;
use cqs_cell::look_for_grant;
use cqs_rule::{Carries, Place};

impl<T: Carries + Send> Barrier<T> {
    /// The token of a wait that the pass has. It makes no step.
    #[inline(always)]
    pub fn wait_of(&self, pass: &mut BarrierPass<T>, at: Place) -> PartyWait
        requires belongs { IsMine self.now pass.old }
        requires wait { Has at.index (pass_view pass.old).facts.waits }
        requires place { KnowsPlace (pass_view pass.old) at }
        ensures place { place_of (wait_in result) ≡ at }
        ensures has { HasWait (pass_view pass.new) (wait_in result) }
        ensures same { pass.new ≡ pass.old }
    {
        PartyWait {
            wait: self.queue.wait_of(pass, at),
        }
    }

    /// Takes the token back, and says where its cell stands. It makes no step.
    #[inline(always)]
    pub fn spend_wait(&self, pass: &mut BarrierPass<T>, wait: PartyWait) -> Place
        requires belongs { IsMine self.now pass.old }
        requires has { HasWait (pass_view pass.old) (wait_in wait) }
        ensures place { result ≡ place_of (wait_in wait) }
        ensures same { pass.new ≡ pass.old }
    {
        let PartyWait { wait } = wait;
        self.queue.spend_wait(pass, wait)
    }

    /// Looks whether the party goes through.
    pub fn poll(&self, pass: &mut BarrierPass<T>, wait: PartyWait) -> PartyPolled
        requires belongs { IsMine self.now pass.old }
        requires ready { IsReady (pass_view pass.old).facts }
        requires has { HasWait (pass_view pass.old) (wait_in wait) }
        ensures belongs { IsMine self.now pass.new }
        ensures called { CallRule (pass_view pass.old)
            (polled_entries (pass_view pass.old).number (place_of (wait_in wait)).index result) []
            (pass_view pass.new) }
        ensures polled { IsPolled (wait_in wait) (pass_view pass.old) result (pass_view pass.new) }
        ensures ready { IsReady (pass_view pass.new).facts }
        ensures alone { (pass_view pass.old).alone ≡ true
            → IsPlainPoll (place_of (wait_in wait)).index (pass_view pass.old) result }
    {
        let PartyWait { wait } = wait;
        let at = self.queue.spend_wait(pass, wait);
        match look_for_grant(&self.queue, pass, at) {
            Some(_) => PartyPolled::Through,
            None => PartyPolled::Pending(PartyWait {
                wait: self.queue.wait_of(pass, at),
            }),
        }
    }
}
