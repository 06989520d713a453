//! How a member leaves its wait.

ghost use Rattle.std.specs.Prelude.{◌<◌};
ghost use Rattle.cqs_rule.specs.Waits.{HasWait};
ghost use Rattle.cqs_rule_laws.specs.CallRule.{IsReady};
ghost use Rattle.cqs_barrier.specs.Leaving.{HasLeaving, leaving_at};
ghost use Rattle.cqs_barrier.specs.Waits.{wait_in};
ghost use Rattle.cqs_barrier_rounds.specs.Calls.{CancelsAt, LeavesAt};
ghost use Rattle.cqs_barrier_rounds.specs.Members.{leaving_of, leaving_round, wait_of, wait_round};
ghost use Rattle.cqs_barrier_rounds.specs.Rounds.{AreMine, IsAt, IsCalled, barriers_of, rounds_in};

use crate::answers::RoundLeft;
use crate::members::{MemberLeaving, MemberWait};
use crate::rounds::{Rounds, RoundsPass};
use crate::turns::{cancel_at, leave_at};

impl Rounds {
    /// Ends a wait: the member withdraws and is to arrive in the same round again, or it counts as
    /// through.
    pub fn cancel(&self, pass: &mut RoundsPass, wait: MemberWait) -> RoundLeft
        requires belongs { AreMine (barriers_of self.now) pass.old.passes.items }
        requires member { wait_round wait < rounds_in self.now }
        requires ready { IsAt (λ v. IsReady v.facts) pass.old.passes.items (wait_round wait) }
        requires has { IsAt (λ v. HasWait v (wait_in (wait_of wait))) pass.old.passes.items
            (wait_round wait) }
        ensures belongs { AreMine (barriers_of self.now) pass.new.passes.items }
        ensures left { IsCalled (λ v w. CancelsAt (wait_round wait) (wait_of wait) v result w)
            (wait_round wait) pass.old.passes.items pass.new.passes.items }
    {
        let MemberWait { round, wait } = wait;
        let at = round as usize;
        cancel_at(&self.barriers[at], &mut pass.passes[at], round, wait)
    }

    /// Goes on with a leaving where others were first.
    pub fn leave_again(&self, pass: &mut RoundsPass, leaving: MemberLeaving) -> RoundLeft
        requires belongs { AreMine (barriers_of self.now) pass.old.passes.items }
        requires member { leaving_round leaving < rounds_in self.now }
        requires has { IsAt (λ v. HasLeaving v (leaving_of leaving)) pass.old.passes.items
            (leaving_round leaving) }
        ensures belongs { AreMine (barriers_of self.now) pass.new.passes.items }
        ensures left { IsCalled (λ v w. LeavesAt (leaving_round leaving)
            (leaving_at (leaving_of leaving)).index v result w) (leaving_round leaving)
            pass.old.passes.items pass.new.passes.items }
    {
        let MemberLeaving { round, leaving } = leaving;
        let at = round as usize;
        leave_at(&self.barriers[at], &mut pass.passes[at], round, leaving)
    }
}
