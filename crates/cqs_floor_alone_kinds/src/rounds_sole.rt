//! The rounds of a barrier of the running queue, as a resource of a floor.

ghost use Rattle.std.specs.Prelude.{◌≡◌, ◌<◌, ◌≤◌, IfOk};
ghost use Rattle.cqs_plan.specs.declared.plans.kind.Kind.TheVariants as kind;
ghost use Rattle.cqs_floor_alone_kinds.specs.Stores as stores;
ghost use Rattle.cqs_floor_alone_kinds.specs.Stores.{IsOpened};
ghost use Rattle.cqs_floor_alone_kinds.specs.SoleRounds.{store_rounds};

use crate::round_sole::RoundSole;
use crate::sole_resource::{Left, Looked};
use cqs_core::Memory;
use cqs_plan::{FloorEnd, Kind};
use cqs_rule::Place;
use std::alloc::Global;

/// The rounds, and how many of them are over.
#[derive(Drop)]
pub struct RoundsSole {
    pub rounds: Vec<RoundSole>,
    pub over: u32,
}

impl RoundsSole {
    /// So many rounds of so many parties, each with room for so many arrivals.
    pub fn open(alloc: Global, parties: u32, rounds: u32, arrivals: u32) -> Result<Self, Memory>
        requires some { 0 < parties }
        requires few { parties ≤ 32 }
        requires few_rounds { rounds ≤ 64 }
        requires few_arrivals { arrivals ≤ 524288 }
        ensures { IfOk result (IsOpened store_rounds (kind.Rounds parties rounds) arrivals) }
    {
        let mut made = Vec::with_capacity(alloc, rounds as usize)?;
        for _round in 0..rounds {
            made.push(RoundSole::open(alloc, parties, arrivals)?)?;
        }
        Ok(RoundsSole {
            rounds: made,
            over: 0,
        })
    }
}

impl RoundsSole {
    /// The job arrives in this round, as the last, for all who wait; or it waits at the end of the
    /// line.
    pub fn arrive(&mut self, _job: u32, round: u32) -> Option<Place>
        requires { stores.CanArrive store_rounds _job round self.old }
        ensures { stores.Arrives store_rounds _job round self.old result self.new }
    {
        let waits = self.rounds[round as usize].arrive();
        if waits.is_none() {
            self.over += 1;
        }
        waits
    }

    /// The job looks at its wait.
    pub fn look(&mut self, _job: u32, round: u32, wait: Place) -> Looked
        requires { stores.CanEnd store_rounds _job round wait self.old }
        ensures { stores.Polls store_rounds _job self.old round wait result self.new }
    {
        self.rounds[round as usize].look(wait)
    }

    /// The job gives its wait up.
    pub fn leave(&mut self, _job: u32, round: u32, wait: Place) -> Left
        requires { stores.CanEnd store_rounds _job round wait self.old }
        ensures { stores.Cancels store_rounds _job self.old round wait result self.new }
    {
        self.rounds[round as usize].leave(wait)
    }

    /// How it stands.
    pub fn end(&mut self, _kind: Kind) -> FloorEnd
        requires { stores.CanTell store_rounds _kind self.old }
        ensures { stores.Tells store_rounds _kind self.old result self.new }
    {
        FloorEnd::Rounds { over: self.over }
    }
}
