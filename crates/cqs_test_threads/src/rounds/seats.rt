//! Members and passes for the rounds.

ghost use Rattle.std.specs.Prelude.{◌≡◌, All, IfSome, vec_len};
ghost use Rattle.cqs_barrier_rounds.specs.Members.{round_of};
ghost use Rattle.cqs_barrier_rounds.specs.Rounds.{AreMine, barriers_of};
ghost use Rattle.cqs_barrier_rounds.specs.Seats.{AreReady};
ghost use Rattle.cqs_test_threads.specs.Crew.{HoldFor, Sits};

use cqs_barrier_rounds::{Member, Rounds, RoundsPass};
use cqs_rule::Config;
use std::alloc::Global;

/// A member with a pass of its own.
#[derive(Drop)]
pub struct Seat {
    pub pass: RoundsPass,
    pub member: Member,
}

/// So many rounds of so many parties, each on the fewest slots, and a seat for each of their
/// members; nothing where there is no memory for it.
pub fn open(alloc: Global, parties: u32, rounds: u32) -> Option<(Rounds, Vec<Seat>)>
    ensures { IfSome result (λ made. All (Sits made.0) made.1.items) }
{
    let config = Config {
        passes: parties,
        limit: 256,
        slots: parties.saturating_mul(2).saturating_add(2),
    };
    let Ok((rounds, pass, members)) = Rounds::new(alloc, parties, rounds, config) else {
        return None;
    };
    let seats = sit_down(alloc, &rounds, pass, members)?;
    Some((rounds, seats))
}

// A pass for each member, which gets a party of each round: one of them has the first pass.
fn sit_down(
    alloc: Global,
    rounds: &Rounds,
    pass: RoundsPass,
    members: Vec<Member>,
) -> Option<Vec<Seat>>
    requires belongs { AreMine (barriers_of rounds.now) pass.passes.items }
    requires ready { AreReady pass.passes.items }
    requires holds { HoldFor (vec_len members) pass.passes.items }
    requires first { All (λ member. round_of member ≡ 0) members.items }
    ensures { IfSome result (λ seats. All (Sits rounds.now) seats.items) }
{
    let mut seats = Vec::new(alloc);
    let mut left = members;
    let mut pass = pass;
    let own = left.pop()?;
    while let Some(member) = left.pop() {
        let Ok(made) = rounds.split(alloc, &mut pass, 1) else {
            return None;
        };
        let Ok(()) = seats.push(Seat { pass: made, member }) else {
            return None;
        };
    }
    let Ok(()) = seats.push(Seat { pass, member: own }) else {
        return None;
    };
    Some(seats)
}
