//! The calls of a member at the barrier of its round.

ghost use Rattle.std.specs.Prelude.{◌≡◌, ◌≢◌, ◌<◌, true, IfErr};
ghost use Rattle.cqs_rule.specs.Passes.{ample_of, pass_view};
ghost use Rattle.cqs_rule.specs.Waits.{HasWait};
ghost use Rattle.cqs_rule_laws.specs.CallRule.{IsReady};
ghost use Rattle.cqs_barrier.specs.Calls.{IsMine};
ghost use Rattle.cqs_barrier.specs.Leaving.{HasLeaving, leaving_at};
ghost use Rattle.cqs_barrier.specs.Resuming.{HasNoTicket, HasOwing, owing_reached, owing_under};
ghost use Rattle.cqs_barrier.specs.Waits.{wait_in};
ghost use Rattle.cqs_barrier_rounds.specs.Calls.{ArrivesAt, CancelsAt, FinishesAt, LeavesAt, PollsAt};
ghost use Rattle.cqs_barrier_rounds.specs.Members.{owing_of};

use crate::answers::{RoundArrived, RoundError, RoundLeft, RoundPolled};
use crate::members::{Member, MemberLeaving, MemberOwing, MemberWait};
use cqs_barrier::{
    Arrived, Barrier, BarrierPass, Leaving, Owing, PartyLeft, PartyPolled, PartyWait,
};
use cqs_rule::AcquireError;

pub(crate) fn arrive_at(
    barrier: &Barrier,
    pass: &mut BarrierPass,
    round: u32,
) -> Result<RoundArrived, (Member, RoundError)>
    requires belongs { IsMine barrier.now pass.old }
    requires ready { IsReady (pass_view pass.old).facts }
    requires holds { 0 < (pass_view pass.old).facts.has.held }
    requires below { round < 64 }
    ensures belongs { IsMine barrier.now pass.new }
    ensures arrived { ArrivesAt round (pass_view pass.old) result (pass_view pass.new) }
    ensures never_crowded { ample_of barrier.now.queue ≡ true
        → IfErr result (λ refused. refused.1 ≢ RoundError.Crowded) }
{
    match barrier.arrive(pass) {
        Ok(Arrived::Last) => Ok(RoundArrived::Last(Member { round: round + 1 })),
        Ok(Arrived::LastOwing(owing)) => Ok(RoundArrived::LastOwing(MemberOwing { round, owing })),
        Ok(Arrived::Later(wait)) => Ok(RoundArrived::Later(MemberWait { round, wait })),
        Err(AcquireError::Worn) => Err((Member { round }, RoundError::Worn)),
        Err(AcquireError::Crowded) => Err((Member { round }, RoundError::Crowded)),
    }
}

pub(crate) fn finish_at(
    barrier: &Barrier,
    pass: &mut BarrierPass,
    round: u32,
    owing: Owing,
) -> Result<Member, MemberOwing>
    requires belongs { IsMine barrier.now pass.old }
    requires owes { HasOwing (pass_view pass.old).facts owing }
    requires below { round < 64 }
    ensures belongs { IsMine barrier.now pass.new }
    ensures finished { FinishesAt round (pass_view pass.old) result (pass_view pass.new) }
    ensures grown { ample_of barrier.now.queue ≡ true
        → IfErr result (λ again. owing_reached owing < owing_reached (owing_of again)) }
    ensures further { IfErr result (λ again. HasNoTicket (owing_under (owing_of again))
        → owing_reached owing < owing_reached (owing_of again)) }
{
    match barrier.finish(pass, owing) {
        Ok(()) => Ok(Member { round: round + 1 }),
        Err(owing) => Err(MemberOwing { round, owing }),
    }
}

pub(crate) fn poll_at(
    barrier: &Barrier,
    pass: &mut BarrierPass,
    round: u32,
    wait: PartyWait,
) -> RoundPolled
    requires belongs { IsMine barrier.now pass.old }
    requires ready { IsReady (pass_view pass.old).facts }
    requires has { HasWait (pass_view pass.old) (wait_in wait) }
    requires below { round < 64 }
    ensures belongs { IsMine barrier.now pass.new }
    ensures polled { PollsAt round wait (pass_view pass.old) result (pass_view pass.new) }
{
    match barrier.poll(pass, wait) {
        PartyPolled::Through => RoundPolled::Through(Member { round: round + 1 }),
        PartyPolled::Pending(wait) => RoundPolled::Pending(MemberWait { round, wait }),
    }
}

pub(crate) fn cancel_at(
    barrier: &Barrier,
    pass: &mut BarrierPass,
    round: u32,
    wait: PartyWait,
) -> RoundLeft
    requires belongs { IsMine barrier.now pass.old }
    requires ready { IsReady (pass_view pass.old).facts }
    requires has { HasWait (pass_view pass.old) (wait_in wait) }
    requires below { round < 64 }
    ensures belongs { IsMine barrier.now pass.new }
    ensures left { CancelsAt round wait (pass_view pass.old) result (pass_view pass.new) }
{
    match barrier.cancel(pass, wait) {
        PartyLeft::Withdrawn => RoundLeft::Withdrawn(Member { round }),
        PartyLeft::TooLate => RoundLeft::TooLate(Member { round: round + 1 }),
        PartyLeft::Contended {
            saw,
            found,
            leaving,
        } => RoundLeft::Contended {
            saw,
            found,
            leaving: MemberLeaving { round, leaving },
        },
    }
}

pub(crate) fn leave_at(
    barrier: &Barrier,
    pass: &mut BarrierPass,
    round: u32,
    leaving: Leaving,
) -> RoundLeft
    requires belongs { IsMine barrier.now pass.old }
    requires has { HasLeaving (pass_view pass.old) leaving }
    requires below { round < 64 }
    ensures belongs { IsMine barrier.now pass.new }
    ensures left { LeavesAt round (leaving_at leaving).index (pass_view pass.old) result
        (pass_view pass.new) }
{
    match barrier.leave_again(pass, leaving) {
        PartyLeft::Withdrawn => RoundLeft::Withdrawn(Member { round }),
        PartyLeft::TooLate => RoundLeft::TooLate(Member { round: round + 1 }),
        PartyLeft::Contended {
            saw,
            found,
            leaving,
        } => RoundLeft::Contended {
            saw,
            found,
            leaving: MemberLeaving { round, leaving },
        },
    }
}
