//! A floor on one runnable core for each semaphore and mutex, and on the running queue for all
//! else.

ghost use Rattle.std.specs.Prelude.{◌≡◌, IfOk};
ghost use Rattle.cqs_plan.specs.Floor.{opening_floor};
ghost use Rattle.cqs_plan.specs.Runnable.{IsRunnable};
ghost use Rattle.cqs_plan.specs.Runnable.{AreSized};

use crate::desk::Desk;
use cqs_core::Memory;
use cqs_core_run::Core;
use cqs_floor_alone_kinds::AnySole;
use cqs_plan::{Floor, FloorDown, FloorEnd, FloorGive, FloorLeave, FloorLook, FloorTake, Plan};
use std::alloc::Global;
use std::marker::Model;

/// A floor for plans: a semaphore is a core with one pass, a mutex is one of one permit, and a
/// pool, a latch or a barrier is one of the running queue.
///
/// Contracts see its plain floor. Its cores have room for all the calls that its
/// plan's takes can lead to.
#[derive(Drop)]
pub struct CoreFloor {
    desk: Desk<AnySole<Core>>,
}

impl Model for CoreFloor {
    ghost use Rattle.cqs_plan.specs.Floor.{PlainFloor};

    ghost Value = { PlainFloor };

    ghost use Rattle.cqs_floor_alone.specs.Ledger.{plain_floor};
    ghost use Rattle.cqs_floor_alone.specs.Kept.{IsKept};
    ghost use Rattle.cqs_floor_alone_kinds.specs.SoleCore.{store_core};

    ghost view = { λ floor. plain_floor store_core floor.desk };

    ghost invariant = { λ floor. IsKept store_core floor.desk };
}

impl CoreFloor {
    /// A floor on which nothing has happened, with room for all that the plan's jobs do.
    pub fn new(alloc: Global, plan: &Plan) -> Result<Self, Memory>
        requires runnable { IsRunnable plan.now }
        requires sized { AreSized plan.now.resources }
        ensures { IfOk result (λ floor. floor ≡ opening_floor plan.now) }
    {
        let desk = Desk::new(alloc, plan)?;
        Ok(CoreFloor { desk })
    }
}

impl Floor for CoreFloor {
    ghost plain = { λ floor. floor };

    fn take(&mut self, at: u32, job: u32) -> FloorTake {
        self.desk.take(at, job)
    }

    fn give(&mut self, at: u32, job: u32) -> FloorGive {
        self.desk.give(at, job)
    }

    fn down(&mut self, at: u32) -> FloorDown {
        self.desk.down(at)
    }

    fn wait(&mut self, at: u32, job: u32) -> FloorTake {
        self.desk.wait(at, job)
    }

    fn arrive(&mut self, at: u32, job: u32) -> FloorTake {
        self.desk.arrive(at, job)
    }

    fn look(&mut self, job: u32) -> FloorLook {
        self.desk.look(job)
    }

    fn leave(&mut self, job: u32) -> FloorLeave {
        self.desk.leave(job)
    }

    fn end(&mut self, at: u32) -> FloorEnd {
        self.desk.end(at)
    }
}
