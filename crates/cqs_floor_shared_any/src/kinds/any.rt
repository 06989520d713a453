//! A resource of any kind that workers share.

use super::latch::SharedLatch;
use super::rounds::SharedRounds;
use cqs_core::Memory;
use cqs_floor_shared::SharedGive;
use cqs_floor_shared_kinds::{Came, ForEachKind, SharedPermits, SharedPool, SharedResource};
use cqs_plan::{FloorDown, FloorEnd, FloorLeave, FloorLook, Kind};
use cqs_rule::Place;
use std::alloc::Global;
use std::sync::Wait;

/// What a resource of a plan is kept as, by its kind: a semaphore or a mutex, a pool, a latch, or
/// the rounds of a barrier.
#[derive(Drop)]
pub enum AnyShared {
    Permits(SharedPermits),
    Pool(SharedPool),
    Latch(SharedLatch),
    Rounds(SharedRounds),
}

impl SharedResource for AnyShared {
    ghost use Rattle.cqs_floor_shared_any.specs.AnyShares.{share_any};

    ghost share = { share_any };

    fn take<R: Wait>(&mut self, rt: &R, job: u32) -> Came {
        match self {
            AnyShared::Permits(share) => share.take(rt, job),
            AnyShared::Pool(share) => share.take(rt, job),
            AnyShared::Latch(_) => unreachable!(),
            AnyShared::Rounds(_) => unreachable!(),
        }
    }

    fn give<R: Wait>(&mut self, rt: &R, job: u32) -> SharedGive {
        match self {
            AnyShared::Permits(share) => share.give(rt, job),
            AnyShared::Pool(share) => share.give(rt, job),
            AnyShared::Latch(_) => unreachable!(),
            AnyShared::Rounds(_) => unreachable!(),
        }
    }

    fn down<R: Wait>(&mut self, rt: &R) -> FloorDown {
        match self {
            AnyShared::Permits(_) => unreachable!(),
            AnyShared::Pool(_) => unreachable!(),
            AnyShared::Latch(share) => share.down(rt),
            AnyShared::Rounds(_) => unreachable!(),
        }
    }

    fn wait<R: Wait>(&mut self, rt: &R, job: u32) -> Came {
        match self {
            AnyShared::Permits(_) => unreachable!(),
            AnyShared::Pool(_) => unreachable!(),
            AnyShared::Latch(share) => share.wait(rt, job),
            AnyShared::Rounds(_) => unreachable!(),
        }
    }

    fn arrive<R: Wait>(&mut self, rt: &R, job: u32, round: u32) -> Came {
        match self {
            AnyShared::Permits(_) => unreachable!(),
            AnyShared::Pool(_) => unreachable!(),
            AnyShared::Latch(_) => unreachable!(),
            AnyShared::Rounds(share) => share.arrive(rt, job, round),
        }
    }

    fn look(&mut self, job: u32, round: u32, wait: Place) -> FloorLook {
        match self {
            AnyShared::Permits(share) => share.look(job, round, wait),
            AnyShared::Pool(share) => share.look(job, round, wait),
            AnyShared::Latch(share) => share.look(job, round, wait),
            AnyShared::Rounds(share) => share.look(job, round, wait),
        }
    }

    fn leave<R: Wait>(&mut self, rt: &R, job: u32, round: u32, wait: Place) -> FloorLeave {
        match self {
            AnyShared::Permits(share) => share.leave(rt, job, round, wait),
            AnyShared::Pool(share) => share.leave(rt, job, round, wait),
            AnyShared::Latch(share) => share.leave(rt, job, round, wait),
            AnyShared::Rounds(share) => share.leave(rt, job, round, wait),
        }
    }

    fn split(&mut self, alloc: Global, gives: u32) -> Result<Self, Memory> {
        match self {
            AnyShared::Permits(share) => {
                let made = share.split(alloc, gives)?;
                Ok(AnyShared::Permits(made))
            }
            AnyShared::Pool(share) => {
                let made = share.split(alloc, gives)?;
                Ok(AnyShared::Pool(made))
            }
            AnyShared::Latch(share) => {
                let made = share.split(alloc, gives)?;
                Ok(AnyShared::Latch(made))
            }
            AnyShared::Rounds(share) => {
                let made = share.split(alloc, gives)?;
                Ok(AnyShared::Rounds(made))
            }
        }
    }

    fn meet(&mut self, given: Self) {
        match self {
            AnyShared::Permits(share) => match given {
                AnyShared::Permits(given) => share.meet(given),
                _ => unreachable!(),
            },
            AnyShared::Pool(share) => match given {
                AnyShared::Pool(given) => share.meet(given),
                _ => unreachable!(),
            },
            AnyShared::Latch(share) => match given {
                AnyShared::Latch(given) => share.meet(given),
                _ => unreachable!(),
            },
            AnyShared::Rounds(share) => match given {
                AnyShared::Rounds(given) => share.meet(given),
                _ => unreachable!(),
            },
        }
    }

    fn number(&self) -> u32 {
        match self {
            AnyShared::Permits(share) => share.number(),
            AnyShared::Pool(share) => share.number(),
            AnyShared::Latch(share) => share.number(),
            AnyShared::Rounds(share) => share.number(),
        }
    }

    fn end(&self, kind: Kind) -> FloorEnd {
        match self {
            AnyShared::Permits(share) => share.end(kind),
            AnyShared::Pool(share) => share.end(kind),
            AnyShared::Latch(share) => share.end(kind),
            AnyShared::Rounds(share) => share.end(kind),
        }
    }

    fn law() {
        SharedPermits::law();
        SharedPool::law();
        SharedLatch::law();
        SharedRounds::law();
    }
}

impl ForEachKind for AnyShared {
    fn open(alloc: Global, kind: Kind, workers: u32, room: u32) -> Result<Self, Memory> {
        match kind {
            Kind::Semaphore(_) | Kind::Mutex => {
                let share = SharedPermits::open(alloc, kind, workers, room)?;
                Ok(AnyShared::Permits(share))
            }
            Kind::Pool(_) => {
                let share = SharedPool::open(alloc, kind, workers, room)?;
                Ok(AnyShared::Pool(share))
            }
            Kind::Latch(_) => {
                let share = SharedLatch::open(alloc, kind, workers, room)?;
                Ok(AnyShared::Latch(share))
            }
            Kind::Rounds { .. } => {
                let share = SharedRounds::open(alloc, kind, workers, room)?;
                Ok(AnyShared::Rounds(share))
            }
        }
    }
}
