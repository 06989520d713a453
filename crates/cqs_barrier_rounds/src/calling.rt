//! The arrival of a member in its round, what the last of a round still owes, and the look at a
//! wait.

ghost use Rattle.std.specs.Prelude.{◌≡◌, ◌≢◌, ◌<◌, ◌≤◌, Err, IfErr};
ghost use Rattle.cqs_rule.specs.Waits.{HasWait};
ghost use Rattle.cqs_rule_laws.specs.CallRule.{IsReady};
ghost use Rattle.cqs_barrier.specs.Resuming.{HasNoTicket, HasOwing, owing_reached, owing_under};
ghost use Rattle.cqs_barrier.specs.Waits.{wait_in};
ghost use Rattle.cqs_barrier_rounds.specs.Calls.{ArrivesAt, FinishesAt, PollsAt};
ghost use Rattle.cqs_barrier_rounds.specs.Members.{round_of, owing_of, owing_round, wait_of, wait_round};
ghost use Rattle.cqs_barrier_rounds.specs.Rounds.{AreAmple, AreMine, IsAt, IsCalled, barriers_of, rounds_in};

use crate::answers::{RoundArrived, RoundError, RoundPolled};
use crate::members::{Member, MemberOwing, MemberWait};
use crate::rounds::{Rounds, RoundsPass};
use crate::turns::{arrive_at, finish_at, poll_at};

impl Rounds {
    /// A member arrives in its round, by a party that the pass holds of it. One that is through all
    /// rounds is told so. One that is refused as worn or as crowded is handed back.
    pub fn arrive(
        &self,
        pass: &mut RoundsPass,
        member: Member,
    ) -> Result<RoundArrived, (Member, RoundError)>
        requires belongs { AreMine (barriers_of self.now) pass.old.passes.items }
        requires member { round_of member ≤ rounds_in self.now }
        requires ready { IsAt (λ v. IsReady v.facts) pass.old.passes.items (round_of member) }
        requires holds { IsAt (λ v. 0 < v.facts.has.held) pass.old.passes.items (round_of member) }
        ensures belongs { AreMine (barriers_of self.now) pass.new.passes.items }
        ensures over { round_of member ≡ rounds_in self.now
            → (result ≡ Err (member, RoundError.Over)) × (pass.new ≡ pass.old) }
        ensures arrived { round_of member < rounds_in self.now → IsCalled
            (λ v w. ArrivesAt (round_of member) v result w) (round_of member)
            pass.old.passes.items pass.new.passes.items }
        ensures never_crowded { AreAmple (barriers_of self.now)
            → IfErr result (λ refused. refused.1 ≢ RoundError.Crowded) }
    {
        let Member { round } = member;
        let at = round as usize;
        if at == self.barriers.len() {
            return Err((Member { round }, RoundError::Over));
        }
        arrive_at(&self.barriers[at], &mut pass.passes[at], round)
    }

    /// The last member of its round goes on with the resumptions that it owes. It is through once
    /// they all ended.
    pub fn finish(&self, pass: &mut RoundsPass, owing: MemberOwing) -> Result<Member, MemberOwing>
        requires belongs { AreMine (barriers_of self.now) pass.old.passes.items }
        requires member { owing_round owing < rounds_in self.now }
        requires owes { IsAt (λ v. HasOwing v.facts (owing_of owing)) pass.old.passes.items
            (owing_round owing) }
        ensures belongs { AreMine (barriers_of self.now) pass.new.passes.items }
        ensures finished { IsCalled (λ v w. FinishesAt (owing_round owing) v result w)
            (owing_round owing) pass.old.passes.items pass.new.passes.items }
        ensures grown { AreAmple (barriers_of self.now) → IfErr result
            (λ again. owing_reached (owing_of owing) < owing_reached (owing_of again)) }
        ensures further { IfErr result (λ again. HasNoTicket (owing_under (owing_of again))
            → owing_reached (owing_of owing) < owing_reached (owing_of again)) }
    {
        let MemberOwing { round, owing } = owing;
        let at = round as usize;
        finish_at(&self.barriers[at], &mut pass.passes[at], round, owing)
    }

    /// Looks whether the member goes through its round.
    pub fn poll(&self, pass: &mut RoundsPass, wait: MemberWait) -> RoundPolled
        requires belongs { AreMine (barriers_of self.now) pass.old.passes.items }
        requires member { wait_round wait < rounds_in self.now }
        requires ready { IsAt (λ v. IsReady v.facts) pass.old.passes.items (wait_round wait) }
        requires has { IsAt (λ v. HasWait v (wait_in (wait_of wait))) pass.old.passes.items
            (wait_round wait) }
        ensures belongs { AreMine (barriers_of self.now) pass.new.passes.items }
        ensures polled { IsCalled (λ v w. PollsAt (wait_round wait) (wait_of wait) v result w)
            (wait_round wait) pass.old.passes.items pass.new.passes.items }
    {
        let MemberWait { round, wait } = wait;
        let at = round as usize;
        poll_at(&self.barriers[at], &mut pass.passes[at], round, wait)
    }
}
