//! What each kind of resource is on a floor: a semaphore of the floor's own sort, or a pool, a
//! latch or the rounds of a barrier of the running queue.

use crate::latch_sole::LatchSole;
use crate::permits;
use crate::pool_sole::PoolSole;
use crate::rounds_sole::RoundsSole;
use crate::sole::{ForPermits, SoleSemaphore};
use crate::sole_resource::{ForEachKind, Left, Looked, SoleResource, Taken};
use cqs_core::Memory;
use cqs_plan::{FloorDown, FloorEnd, FloorGive, Kind};
use cqs_rule::Place;
use std::alloc::Global;

/// What a resource is kept as: one of which permits are taken, or a pool, a latch or a barrier of
/// the running queue.
#[derive(Drop)]
pub enum AnySole<S> {
    Permits(S),
    Pool(PoolSole),
    Latch(LatchSole),
    Rounds(RoundsSole),
}

impl<S: SoleSemaphore> SoleResource for AnySole<S> {
    ghost use Rattle.cqs_floor_alone_kinds.specs.AnySoles.{store_any};

    ghost store = { store_any S.sole };

    fn take(&mut self, job: u32) -> Taken {
        match self {
            AnySole::Permits(sole) => permits::take(sole, job),
            AnySole::Pool(sole) => sole.take(job),
            AnySole::Latch(_) => unreachable!(),
            AnySole::Rounds(_) => unreachable!(),
        }
    }

    fn give(&mut self, job: u32) -> FloorGive {
        match self {
            AnySole::Permits(sole) => permits::give(sole, job),
            AnySole::Pool(sole) => sole.give(job),
            AnySole::Latch(_) => unreachable!(),
            AnySole::Rounds(_) => unreachable!(),
        }
    }

    fn down(&mut self) -> FloorDown {
        match self {
            AnySole::Latch(sole) => sole.down(),
            AnySole::Permits(_) => unreachable!(),
            AnySole::Pool(_) => unreachable!(),
            AnySole::Rounds(_) => unreachable!(),
        }
    }

    fn wait(&mut self, job: u32) -> Option<Place> {
        match self {
            AnySole::Latch(sole) => sole.wait(job),
            AnySole::Permits(_) => unreachable!(),
            AnySole::Pool(_) => unreachable!(),
            AnySole::Rounds(_) => unreachable!(),
        }
    }

    fn arrive(&mut self, job: u32, round: u32) -> Option<Place> {
        match self {
            AnySole::Rounds(sole) => sole.arrive(job, round),
            AnySole::Permits(_) => unreachable!(),
            AnySole::Pool(_) => unreachable!(),
            AnySole::Latch(_) => unreachable!(),
        }
    }

    fn look(&mut self, job: u32, round: u32, wait: Place) -> Looked {
        match self {
            AnySole::Permits(sole) => permits::look(sole, job, round, wait),
            AnySole::Pool(sole) => sole.look(job, round, wait),
            AnySole::Latch(sole) => sole.look(job, round, wait),
            AnySole::Rounds(sole) => sole.look(job, round, wait),
        }
    }

    fn leave(&mut self, job: u32, round: u32, wait: Place) -> Left {
        match self {
            AnySole::Permits(sole) => permits::leave(sole, job, round, wait),
            AnySole::Pool(sole) => sole.leave(job, round, wait),
            AnySole::Latch(sole) => sole.leave(job, round, wait),
            AnySole::Rounds(sole) => sole.leave(job, round, wait),
        }
    }

    fn end(&mut self, kind: Kind) -> FloorEnd {
        match self {
            AnySole::Permits(sole) => permits::end(sole, kind),
            AnySole::Pool(sole) => sole.end(kind),
            AnySole::Latch(sole) => sole.end(kind),
            AnySole::Rounds(sole) => sole.end(kind),
        }
    }
}

impl<S: ForPermits> ForEachKind for AnySole<S> {
    fn open(alloc: Global, kind: Kind, room: u32) -> Result<Self, Memory> {
        match kind {
            Kind::Semaphore(_) | Kind::Mutex => {
                let sole = S::open(alloc, kind, room)?;
                Ok(AnySole::Permits(sole))
            }
            Kind::Pool(elements) => {
                let sole = PoolSole::open(alloc, elements, room)?;
                Ok(AnySole::Pool(sole))
            }
            Kind::Latch(count) => {
                let sole = LatchSole::open(alloc, count, room)?;
                Ok(AnySole::Latch(sole))
            }
            Kind::Rounds { parties, rounds } => {
                let sole = RoundsSole::open(alloc, parties, rounds, room)?;
                Ok(AnySole::Rounds(sole))
            }
        }
    }
}
