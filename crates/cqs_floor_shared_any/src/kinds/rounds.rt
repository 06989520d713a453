//! The rounds of a barrier of the running queue, and the passes of one worker, as a resource of its
//! floor.

ghost use Rattle.std.specs.Prelude.{◌≡◌, ◌==◌, ◌≤◌, count_by, length};
ghost use Rattle.std.specs.List.{list_all};
ghost use Rattle.cqs_floor_shared_any.specs.RoundsOne.{view_of};
ghost use Rattle.cqs_floor_shared_any.specs.RoundsShares.{crew_in};

use super::round::SharedRound;
use cqs_core::Memory;
use cqs_floor_shared::SharedGive;
use cqs_floor_shared_kinds::Came;
use cqs_plan::{FloorDown, FloorEnd, FloorLeave, FloorLook, Kind};
use cqs_rule::Place;
use std::alloc::Global;
use std::sync::Wait;

/// A barrier for each round, which workers share, with the passes of one of them. A wait is named
/// by its round and the place of its cell.
#[derive(Drop)]
pub struct SharedRounds {
    pub rounds: Vec<SharedRound>,
}

impl SharedRounds {
    ghost use Rattle.std.specs.Prelude.{IfOk};
    ghost use Rattle.cqs_plan.specs.Validity.{IsKind};
    ghost use Rattle.cqs_floor_shared_any.specs.RoundsShares.{IsBarrier, share_rounds};
    ghost use Rattle.cqs_floor_shared_kinds.specs.ShareCalls.{IsOpened};

    /// The rounds of a barrier to which nothing has happened, for so many workers, each with room
    /// for so many arrivals.
    pub fn open(alloc: Global, kind: Kind, workers: u32, arrivals: u32) -> Result<Self, Memory>
        requires sort { IsBarrier kind }
        requires sized { IsKind kind }
        requires some { 1 ≤ workers }
        requires few_workers { workers ≤ 16 }
        requires few { arrivals ≤ 524288 }
        ensures { IfOk result (IsOpened share_rounds kind workers arrivals) }
    {
        let Kind::Rounds { parties, rounds } = kind else {
            unreachable!()
        };
        let mut made = Vec::with_capacity(alloc, rounds as usize)?;
        for _round in 0..rounds {
            made.push(SharedRound::open(alloc, parties, workers, arrivals)?)?;
        }
        Ok(SharedRounds { rounds: made })
    }
}

impl SharedRounds {
    ghost use Rattle.std.specs.Prelude.{◌≡◌, IfOk};
    ghost use Rattle.cqs_floor_shared_any.specs.RoundsShares.{share_rounds};
    ghost use Rattle.cqs_floor_shared_kinds.specs.Shares.{IsLawful};
    ghost use Rattle.cqs_floor_shared_kinds.specs.ShareCalls.{Arrives, CanArrive, CanEnd, CanMeet, CanSplit, CanTell, HasSplit, Leaves, Looks, Meets, Tells};

    /// The job arrives in this round, with a party that the pass holds: as the last, for all who
    /// wait; or it waits at the end of the line.
    pub fn arrive<R: Wait>(&mut self, rt: &R, job: u32, round: u32) -> Came
        requires { CanArrive share_rounds job round self.old }
        ensures { Arrives share_rounds job round self.old result self.new }
    {
        self.rounds[round as usize].arrive(rt)
    }

    /// The job looks at its wait.
    pub fn look(&mut self, job: u32, round: u32, wait: Place) -> FloorLook
        requires { CanEnd share_rounds job round wait self.old }
        ensures { Looks share_rounds job self.old round wait result self.new }
    {
        self.rounds[round as usize].look(wait)
    }

    /// The job gives its wait up.
    pub fn leave<R: Wait>(&mut self, rt: &R, job: u32, round: u32, wait: Place) -> FloorLeave
        requires { CanEnd share_rounds job round wait self.old }
        ensures { Leaves share_rounds job self.old round wait result self.new }
    {
        self.rounds[round as usize].leave(rt, wait)
    }

    /// One with a new pass, for another worker.
    pub fn split(&mut self, alloc: Global, gives: u32) -> Result<Self, Memory>
        requires { CanSplit share_rounds gives self.old }
        ensures { IfOk result (λ made. HasSplit share_rounds gives self.old made self.new) }
    {
        let mut made = Vec::with_capacity(alloc, self.rounds.len())?;
        for round in 0..self.rounds.len() {
            made.push_reserved(self.rounds[round].split(gives)?);
        }
        // Where two split at the same time the new passes may have other numbers in other rounds.
        if !have_number(&made, number_in(&made)) {
            return Err(Memory);
        }
        Ok(SharedRounds { rounds: made })
    }

    /// Takes in the pass of another worker, which has no wait.
    pub fn meet(&mut self, given: Self)
        requires { CanMeet share_rounds given self.old }
        ensures { Meets share_rounds given self.old self.new }
    {
        let SharedRounds { rounds } = given;
        let mut left = rounds;
        while let Some(theirs) = left.pop() {
            let round = left.len();
            self.rounds[round].meet(theirs);
        }
    }

    /// The number of its pass.
    pub fn number(&self) -> u32
        ensures { result ≡ share_rounds.number self.now }
    {
        number_in(&self.rounds)
    }

    /// How it stands, once all workers have met.
    pub fn end(&self, kind: Kind) -> FloorEnd
        requires { CanTell share_rounds kind self.now }
        ensures { Tells share_rounds kind self.now result }
    {
        FloorEnd::Rounds {
            over: over_in(&self.rounds),
        }
    }

    /// What it keeps to.
    pub fn law()
        ensures { IsLawful share_rounds }
    {}
}

/// The number of the passes, which is that of the first round's: 0 where there is no round.
fn number_in(rounds: &[SharedRound]) -> u32
    ensures { result ≡ (crew_in rounds.now).number }
{
    match rounds.first() {
        Some(round) => round.pass.number(),
        None => 0,
    }
}

/// Whether the passes of all rounds have this number.
fn have_number(rounds: &[SharedRound], number: u32) -> bool
    ensures { result ≡ list_all (λ r. (view_of r).number == number) rounds.now }
{
    rounds.iter().all(|round| round.pass.number() == number)
}

/// In how many rounds a pass was told that all have arrived.
fn over_in(rounds: &[SharedRound]) -> u32
    requires few { length rounds.now ≤ 64 }
    ensures { result ≡ count_by (λ r. r.over) rounds.now }
{
    let mut over = 0;
    for round in rounds {
        if round.over {
            over += 1;
        }
    }
    over
}
