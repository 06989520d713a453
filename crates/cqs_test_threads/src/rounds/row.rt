//! Two members go through two rounds, call by call.

ghost use Rattle.std.specs.Prelude.{◌<◌, ◌≤◌, IfSome};
ghost use Rattle.cqs_barrier_rounds.specs.Members.{round_of, wait_round};
ghost use Rattle.cqs_barrier_rounds.specs.Rounds.{AreMine, barriers_of, rounds_in};
ghost use Rattle.cqs_test_threads.specs.Crew.{SitsWaiting, Sits};
ghost use Rattle.cqs_test_threads.specs.Goes.{MayGoOn, WaitsAt};

use crate::rounds::seats::{Seat, open};
use cqs_barrier_rounds::{
    Member, MemberWait, RoundArrived, RoundError, RoundPolled, Rounds, RoundsPass,
};
use std::alloc::Global;

/// A member that waits, with a pass of its own.
#[derive(Drop)]
pub struct WaitingSeat {
    pub pass: RoundsPass,
    pub wait: MemberWait,
}

/// The first waits in round 0, where the second is the last; the second waits in round 1, where the
/// first is the last. Then the rounds are over for both. It answers whether all that was so.
pub fn two_rounds(alloc: Global) -> Option<bool> {
    let (rounds, mut seats) = open(alloc, 2, 2)?;
    let first = seats.pop()?;
    let second = seats.pop()?;
    let first = wait(&rounds, first)?;
    let second = be_last(&rounds, second)?;
    let second = wait(&rounds, second)?;
    let first = be_served(&rounds, first)?;
    let first = be_last(&rounds, first)?;
    let second = be_served(&rounds, second)?;
    Some(is_over(&rounds, first) && is_over(&rounds, second))
}

// The member arrives, and waits under the number 0.
fn wait(rounds: &Rounds, seat: Seat) -> Option<WaitingSeat>
    requires { Sits rounds.now seat }
    ensures { IfSome result (SitsWaiting rounds.now) }
{
    let Seat { pass, member } = seat;
    if member.round() == rounds.rounds() {
        return None;
    }
    let mut pass = pass;
    let wait = arrive_first(rounds, &mut pass, member)?;
    Some(WaitingSeat { pass, wait })
}

// The member arrives, and is the last.
fn be_last(rounds: &Rounds, seat: Seat) -> Option<Seat>
    requires { Sits rounds.now seat }
    ensures { IfSome result (Sits rounds.now) }
{
    let Seat { pass, member } = seat;
    if member.round() == rounds.rounds() {
        return None;
    }
    let mut pass = pass;
    let member = arrive_last(rounds, &mut pass, member)?;
    Some(Seat { pass, member })
}

// The member looks at its wait, and goes through.
fn be_served(rounds: &Rounds, waiting: WaitingSeat) -> Option<Seat>
    requires { SitsWaiting rounds.now waiting }
    ensures { IfSome result (Sits rounds.now) }
{
    let WaitingSeat { pass, wait } = waiting;
    let mut pass = pass;
    match rounds.poll(&mut pass, wait) {
        RoundPolled::Through(member) => Some(Seat { pass, member }),
        RoundPolled::Pending(_) => None,
    }
}

// The member is told that it is through all rounds.
fn is_over(rounds: &Rounds, seat: Seat) -> bool
    requires { Sits rounds.now seat }
{
    let Seat { pass, member } = seat;
    let mut pass = pass;
    match rounds.arrive(&mut pass, member) {
        Err((_, RoundError::Over)) => true,
        _ => false,
    }
}

fn arrive_first(rounds: &Rounds, pass: &mut RoundsPass, member: Member) -> Option<MemberWait>
    requires belongs { AreMine (barriers_of rounds.now) pass.old.passes.items }
    requires member { round_of member < rounds_in rounds.now }
    requires on { MayGoOn member pass.old.passes.items }
    ensures belongs { AreMine (barriers_of rounds.now) pass.new.passes.items }
    ensures member { IfSome result (λ w. wait_round w < rounds_in rounds.now) }
    ensures waits { IfSome result (λ w. WaitsAt w pass.new.passes.items) }
{
    match rounds.arrive(pass, member) {
        Ok(RoundArrived::Later(wait)) => {
            if wait.number() != 0 {
                return None;
            }
            Some(wait)
        }
        _ => None,
    }
}

fn arrive_last(rounds: &Rounds, pass: &mut RoundsPass, member: Member) -> Option<Member>
    requires belongs { AreMine (barriers_of rounds.now) pass.old.passes.items }
    requires member { round_of member < rounds_in rounds.now }
    requires on { MayGoOn member pass.old.passes.items }
    ensures belongs { AreMine (barriers_of rounds.now) pass.new.passes.items }
    ensures member { IfSome result (λ m. round_of m ≤ rounds_in rounds.now) }
    ensures on { IfSome result (λ m. MayGoOn m pass.new.passes.items) }
{
    match rounds.arrive(pass, member) {
        Ok(RoundArrived::Last(next)) => Some(next),
        _ => None,
    }
}
