//! A semaphore or a mutex of the running queue, as the semaphore of a floor.

use crate::mutex_sole::MutexSole;
use crate::queue_sole::QueueSole;
use crate::sole::{ForPermits, SoleSemaphore, Stand};
use cqs_core::Memory;
use cqs_plan::Kind;
use cqs_rule::Place;
use std::alloc::Global;

/// What a resource is on the running queue.
#[derive(Drop)]
pub enum RunningSole {
    Semaphore(QueueSole),
    Mutex(MutexSole),
}

impl SoleSemaphore for RunningSole {
    ghost use Rattle.cqs_floor_alone_kinds.specs.SoleRunning.{sole_running};

    ghost sole = { sole_running };

    fn acquire(&mut self) -> Option<Place> {
        match self {
            RunningSole::Semaphore(sole) => sole.acquire(),
            RunningSole::Mutex(sole) => sole.acquire(),
        }
    }

    fn release(&mut self) -> Option<u64> {
        match self {
            RunningSole::Semaphore(sole) => sole.release(),
            RunningSole::Mutex(sole) => sole.release(),
        }
    }

    fn poll(&mut self, wait: Place) -> bool {
        match self {
            RunningSole::Semaphore(sole) => sole.poll(wait),
            RunningSole::Mutex(sole) => sole.poll(wait),
        }
    }

    fn cancel(&mut self, wait: Place) -> bool {
        match self {
            RunningSole::Semaphore(sole) => sole.cancel(wait),
            RunningSole::Mutex(sole) => sole.cancel(wait),
        }
    }

    fn stand(&mut self) -> Stand {
        match self {
            RunningSole::Semaphore(sole) => sole.stand(),
            RunningSole::Mutex(sole) => sole.stand(),
        }
    }
}

impl ForPermits for RunningSole {
    fn open(alloc: Global, kind: Kind, takes: u32) -> Result<Self, Memory> {
        match kind {
            Kind::Semaphore(permits) => {
                let sole = QueueSole::open(alloc, permits, takes)?;
                Ok(RunningSole::Semaphore(sole))
            }
            Kind::Mutex => Ok(RunningSole::Mutex(MutexSole::open(alloc, takes)?)),
            Kind::Pool(_) | Kind::Latch(_) | Kind::Rounds { .. } => unreachable!(),
        }
    }
}
