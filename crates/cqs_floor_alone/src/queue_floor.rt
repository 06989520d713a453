//! A floor on one resource of the running queue for each of a plan's.

ghost use Rattle.std.specs.Prelude.{◌≡◌, IfOk};
ghost use Rattle.cqs_plan.specs.Floor.{opening_floor};
ghost use Rattle.cqs_plan.specs.Runnable.{IsRunnable};
ghost use Rattle.cqs_floor_alone.specs.Kept.{IsKept};
ghost use Rattle.cqs_floor_alone.specs.Ledger.{plain_floor};
ghost use Rattle.cqs_plan.specs.Runnable.{AreSized};
ghost use Rattle.cqs_floor_alone_kinds.specs.SoleRunning.{store_running};

use crate::desk::Desk;
use cqs_core::Memory;
use cqs_floor_alone_kinds::{AnySole, RunningSole};
use cqs_plan::{Floor, FloorDown, FloorEnd, FloorGive, FloorLeave, FloorLook, FloorTake, Plan};
use std::alloc::Global;
use std::marker::Model;

/// A floor for plans: each semaphore, mutex, pool and latch is one of the running queue, with its
/// one pass, and so is each round of a barrier. A mutex keeps a unit value, and an element of a
/// pool its own number.
///
/// Contracts see its ledger, with the resources and their passes: its plain floor is what these
/// have seen, without looks that found nothing new. The limit of each is the plan's takes,
/// waits or arrivals there and one more, so none of its calls is refused.
#[derive(Drop)]
pub struct QueueFloor {
    desk: Desk<AnySole<RunningSole>>,
}

impl Model for QueueFloor {
    ghost use Rattle.cqs_floor_alone.specs.Kept.{IsKept};
    ghost use Rattle.cqs_floor_alone.specs.Ledger.{Ledger};
    ghost use Rattle.cqs_floor_alone_kinds.specs.SoleRunning.{store_running};
    ghost use Rattle.cqs_floor_alone_kinds.specs.declared.any_sole.AnySole as any;
    ghost use Rattle.cqs_floor_alone_kinds.specs.declared.running_sole.RunningSole as sole;

    ghost Value = { Ledger (any.AnySole sole.RunningSole) };

    ghost view = { λ floor. floor.desk };

    ghost invariant = { λ floor. IsKept store_running floor.desk };
}

impl QueueFloor {
    /// A floor on which nothing has happened, with room for all that the plan's jobs do.
    pub fn new(alloc: Global, plan: &Plan) -> Result<Self, Memory>
        requires runnable { IsRunnable plan.now }
        requires sized { AreSized plan.now.resources }
        ensures { IfOk result (λ floor. plain_floor store_running floor ≡ opening_floor plan.now) }
    {
        let desk = Desk::new(alloc, plan)?;
        Ok(QueueFloor { desk })
    }

    /// Does nothing: its clause tells what every such floor keeps.
    pub fn is_kept(&self)
        ensures { IsKept store_running self.now }
    {
        let _ = &self.desk;
    }
}

impl Floor for QueueFloor {
    ghost plain = { plain_floor store_running };

    fn take(&mut self, at: u32, job: u32) -> FloorTake {
        self.desk.take(at, job)
    }

    fn give(&mut self, at: u32, job: u32) -> FloorGive {
        self.desk.give(at, job)
    }

    fn down(&mut self, at: u32) -> FloorDown {
        self.desk.down(at)
    }

    fn wait(&mut self, at: u32, job: u32) -> FloorTake {
        self.desk.wait(at, job)
    }

    fn arrive(&mut self, at: u32, job: u32) -> FloorTake {
        self.desk.arrive(at, job)
    }

    fn look(&mut self, job: u32) -> FloorLook {
        self.desk.look(job)
    }

    fn leave(&mut self, job: u32) -> FloorLeave {
        self.desk.leave(job)
    }

    fn end(&mut self, at: u32) -> FloorEnd {
        self.desk.end(at)
    }
}
