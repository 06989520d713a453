//! One member goes through the rounds on a thread of its own.

ghost use Rattle.std.specs.Prelude.{◌<◌, ◌≤◌, IfSome};
ghost use Rattle.cqs_barrier_rounds.specs.Members.{leaving_round, owing_round, round_of, wait_round};
ghost use Rattle.cqs_barrier_rounds.specs.Rounds.{AreMine, barriers_of, rounds_in};
ghost use Rattle.cqs_barrier_rounds.specs.Seats.{AreReady};
ghost use Rattle.cqs_test_threads.specs.Goes.{Comes, LeavesOn, MayGoOn, OwesAt, WaitsAt};

use crate::rounds::arrivals::Arrivals;
use cqs_barrier_rounds::{
    Member, MemberLeaving, MemberOwing, MemberWait, RoundArrived, RoundError, RoundLeft,
    RoundPolled, Rounds, RoundsPass,
};
use std::sync::Wait;
use std::thread;

/// Of so many tries of a member to go through a round, one is given up at once where the member has
/// to wait.
const PATIENCE: u32 = 3;

/// What was seen on the way.
#[derive(Clone, Copy)]
pub struct Seen {
    /// So many rounds the member went through.
    pub through: u32,
    /// In so many of them not all parties had come.
    pub early: u32,
    /// So often it withdrew, and came again.
    pub withdrawn: u32,
}

/// Nothing yet.
pub const NOTHING: Seen = Seen {
    through: 0,
    early: 0,
    withdrawn: 0,
};

/// Goes through all rounds; nothing where a round is worn.
pub fn go_through<R: Wait>(
    rt: &R,
    rounds: &Rounds,
    pass: RoundsPass,
    member: Member,
    arrivals: &Arrivals,
) -> Option<(RoundsPass, Seen)>
    requires belongs { AreMine (barriers_of rounds.now) pass.passes.items }
    requires member { round_of member ≤ rounds_in rounds.now }
    requires on { MayGoOn member pass.passes.items }
    ensures belongs { IfSome result (λ r. AreMine (barriers_of rounds.now) r.0.passes.items) }
    ensures ready { IfSome result (λ r. AreReady r.0.passes.items) }
{
    let mut pass = pass;
    let mut member = member;
    let mut seen = NOTHING;
    for time in 0..u32::MAX {
        let round = member.round();
        if round == rounds.rounds() {
            return Some((pass, seen));
        }
        arrivals.come(round);
        member = attempt(rt, rounds, &mut pass, member, time % PATIENCE != 0)?;
        if member.round() == round {
            arrivals.leave(round);
            seen = after_leaving(seen);
        } else {
            seen = after_round(seen, arrivals.all_came(round));
        }
    }
    None
}

// What was seen, with one round more.
fn after_round(seen: Seen, all_came: bool) -> Seen {
    Seen {
        through: seen.through.saturating_add(1),
        early: seen.early.saturating_add(u32::from(!all_came)),
        withdrawn: seen.withdrawn,
    }
}

// What was seen, with one withdrawal more.
fn after_leaving(seen: Seen) -> Seen {
    Seen {
        withdrawn: seen.withdrawn.saturating_add(1),
        ..seen
    }
}

/// What two saw together.
pub fn both(one: Seen, other: Seen) -> Seen {
    Seen {
        through: one.through.saturating_add(other.through),
        early: one.early.saturating_add(other.early),
        withdrawn: one.withdrawn.saturating_add(other.withdrawn),
    }
}

// Arrives in its round, as soon as there are slots for that, and goes through it, or leaves it
// where the member isn't patient.
fn attempt<R: Wait>(
    rt: &R,
    rounds: &Rounds,
    pass: &mut RoundsPass,
    member: Member,
    patient: bool,
) -> Option<Member>
    requires belongs { AreMine (barriers_of rounds.now) pass.old.passes.items }
    requires member { round_of member < rounds_in rounds.now }
    requires on { MayGoOn member pass.old.passes.items }
    ensures belongs { AreMine (barriers_of rounds.now) pass.new.passes.items }
    ensures comes { IfSome result (λ m. Comes (round_of member) m pass.new.passes.items) }
{
    let mut member = member;
    for _ in rt.forever() {
        match rounds.arrive(pass, member) {
            Ok(RoundArrived::Last(next)) => return Some(next),
            Ok(RoundArrived::LastOwing(owing)) => return Some(finish(rt, rounds, pass, owing)),
            Ok(RoundArrived::Later(wait)) => {
                if patient {
                    return look_on(rounds, pass, wait);
                }
                return give_up(rounds, pass, wait);
            }
            Err((same, RoundError::Crowded)) => {
                member = same;
                thread::yield_now();
            }
            Err(_) => return None,
        }
    }
    unreachable!()
}

// Goes on until all who waited have heard of the last.
fn finish<R: Wait>(rt: &R, rounds: &Rounds, pass: &mut RoundsPass, owing: MemberOwing) -> Member
    requires belongs { AreMine (barriers_of rounds.now) pass.old.passes.items }
    requires member { owing_round owing < rounds_in rounds.now }
    requires owes { OwesAt owing pass.old.passes.items }
    ensures belongs { AreMine (barriers_of rounds.now) pass.new.passes.items }
    ensures comes { Comes (owing_round owing) result pass.new.passes.items }
{
    let mut owing = owing;
    for _ in rt.forever() {
        match rounds.finish(pass, owing) {
            Ok(next) => return next,
            Err(again) => {
                owing = again;
                thread::yield_now();
            }
        }
    }
    unreachable!()
}

// Looks at the wait until the member goes through.
fn look_on(rounds: &Rounds, pass: &mut RoundsPass, wait: MemberWait) -> Option<Member>
    requires belongs { AreMine (barriers_of rounds.now) pass.old.passes.items }
    requires member { wait_round wait < rounds_in rounds.now }
    requires waits { WaitsAt wait pass.old.passes.items }
    ensures belongs { AreMine (barriers_of rounds.now) pass.new.passes.items }
    ensures comes { IfSome result (λ m. Comes (wait_round wait) m pass.new.passes.items) }
{
    let mut wait = wait;
    for _ in 0..u64::MAX {
        match rounds.poll(pass, wait) {
            RoundPolled::Through(next) => return Some(next),
            RoundPolled::Pending(again) => {
                wait = again;
                thread::yield_now();
            }
        }
    }
    None
}

// Leaves the wait: the member withdraws, or it is too late for that.
fn give_up(rounds: &Rounds, pass: &mut RoundsPass, wait: MemberWait) -> Option<Member>
    requires belongs { AreMine (barriers_of rounds.now) pass.old.passes.items }
    requires member { wait_round wait < rounds_in rounds.now }
    requires waits { WaitsAt wait pass.old.passes.items }
    ensures belongs { AreMine (barriers_of rounds.now) pass.new.passes.items }
    ensures comes { IfSome result (λ m. Comes (wait_round wait) m pass.new.passes.items) }
{
    match rounds.cancel(pass, wait) {
        RoundLeft::Withdrawn(same) => Some(same),
        RoundLeft::TooLate(next) => Some(next),
        RoundLeft::Contended { leaving, .. } => leave_on(rounds, pass, leaving),
    }
}

// Others were first: goes on until the wait is left.
fn leave_on(rounds: &Rounds, pass: &mut RoundsPass, leaving: MemberLeaving) -> Option<Member>
    requires belongs { AreMine (barriers_of rounds.now) pass.old.passes.items }
    requires member { leaving_round leaving < rounds_in rounds.now }
    requires leaves { LeavesOn leaving pass.old.passes.items }
    ensures belongs { AreMine (barriers_of rounds.now) pass.new.passes.items }
    ensures comes { IfSome result (λ m. Comes (leaving_round leaving) m pass.new.passes.items) }
{
    let mut leaving = leaving;
    for _ in 0..u64::MAX {
        match rounds.leave_again(pass, leaving) {
            RoundLeft::Withdrawn(same) => return Some(same),
            RoundLeft::TooLate(next) => return Some(next),
            RoundLeft::Contended { leaving: again, .. } => leaving = again,
        }
    }
    None
}
