//! A crew of members, each with a thread and a pass of its own.

ghost use Rattle.std.specs.Prelude.{All};
ghost use Rattle.cqs_test_threads.specs.Crew.{HasWorked, IsBack, Sits};

use crate::rounds::arrivals::Arrivals;
use crate::rounds::going::{NOTHING, Seen, both, go_through};
use crate::rounds::seats::{Seat, open};
use cqs_barrier_rounds::{Rounds, RoundsPass};
use std::alloc::Global;
use std::sync::Wait;
use std::thread::{self, Threads};

/// What became of a crew.
#[derive(Drop)]
pub struct Told {
    /// What its members saw, in all.
    pub seen: Seen,
    /// Whether all passes were taken in again, and one is left.
    pub whole: bool,
}

/// So many members go through so many rounds, each on a thread of its own; nothing where there is
/// no memory for it.
pub fn together<R: Threads + Wait + Sync>(
    rt: &R,
    alloc: Global,
    parties: u32,
    rounds: u32,
) -> Option<Told> {
    let (rounds, seats) = open(alloc, parties, rounds)?;
    let Ok(arrivals) = Arrivals::new(alloc, parties, rounds.rounds()) else {
        return None;
    };
    let Ok(worked) = thread::map_vec(rt, seats, &|seat| work(rt, &rounds, &arrivals, seat)) else {
        return None;
    };
    Some(gather(&rounds, worked))
}

// What each thread does.
fn work<R: Wait>(
    rt: &R,
    rounds: &Rounds,
    arrivals: &Arrivals,
    seat: Seat,
) -> Option<(RoundsPass, Seen)>
    requires { Sits rounds.now seat }
    ensures { HasWorked rounds.now result }
{
    let Seat { pass, member } = seat;
    go_through(rt, rounds, pass, member, arrivals)
}

// Has one of the passes take in the others, and adds up what their members saw.
fn gather(rounds: &Rounds, worked: Vec<Option<(RoundsPass, Seen)>>) -> Told
    requires { All (HasWorked rounds.now) worked.items }
{
    let mut left = worked;
    let Some(Some((home, first))) = left.pop() else {
        return Told {
            seen: NOTHING,
            whole: false,
        };
    };
    let mut pass = home;
    let mut seen = first;
    let mut whole = true;
    while let Some(one) = left.pop() {
        match one {
            Some((given, one)) => {
                seen = both(seen, one);
                whole &= take_in(rounds, &mut pass, given);
            }
            None => whole = false,
        }
    }
    whole &= rounds.sole(&mut pass);
    Told { seen, whole }
}

// Takes a pass in, and says whether it could.
fn take_in(rounds: &Rounds, pass: &mut RoundsPass, given: RoundsPass) -> bool
    requires pass { IsBack rounds.now pass.old }
    requires given { IsBack rounds.now given }
    ensures { IsBack rounds.now pass.new }
{
    rounds.meet(pass, given).is_ok()
}
