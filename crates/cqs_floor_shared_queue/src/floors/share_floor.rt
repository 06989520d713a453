//! The floor of one worker.

ghost use Rattle.cqs_floor_shared.specs.Calls.{HaveAllMet};
ghost use Rattle.cqs_floor_shared_any.specs.AnyShares.{share_any};
ghost use Rattle.cqs_floor_shared_queue.specs.Ledgers.{shared_in};
ghost use Rattle.cqs_floor_shared_queue.specs.OnlyPasses.{HasOnlyPasses};

use super::desk::Desk;
use cqs_floor_shared::{SharedFloor, SharedGive, Turned};
use cqs_floor_shared_any::AnyShared;
use cqs_floor_shared_kinds::SharedResource;
use cqs_plan::{FloorDown, FloorEnd, FloorLeave, FloorLook, FloorTake};
use std::marker::Model;
use std::sync::Wait;

/// The floor of one worker, over resources that all workers share: it has a pass of its own to
/// each.
///
/// Contracts see its ledger. A call takes no memory: there is room for all that the steps of a plan
/// can lead to, also after all floors have met.
#[derive(Drop)]
pub struct ShareFloor<X: SharedResource> {
    pub(super) desk: Desk<X>,
}

impl<X: SharedResource> Model for ShareFloor<X> {
    ghost use Rattle.cqs_floor_shared_queue.specs.FloorKept.{IsKept};
    ghost use Rattle.cqs_floor_shared_queue.specs.Ledgers.{Ledger};

    ghost Value = { Ledger X };

    ghost view = { λ floor. floor.desk };

    ghost invariant = { λ floor. IsKept X.share floor.desk };
}

impl<X: SharedResource> SharedFloor for ShareFloor<X> {
    ghost shared = { λ floor. shared_in X.share floor };

    fn take<R: Wait>(&mut self, rt: &R, at: u32, job: u32) -> Result<FloorTake, Turned> {
        self.desk.take(rt, at, job)
    }

    fn give<R: Wait>(&mut self, rt: &R, at: u32, job: u32) -> SharedGive {
        self.desk.give(rt, at, job)
    }

    fn look<R: Wait>(&mut self, _rt: &R, job: u32) -> FloorLook {
        X::law();
        self.desk.look(job)
    }

    fn leave<R: Wait>(&mut self, rt: &R, job: u32) -> FloorLeave {
        X::law();
        self.desk.leave(rt, job)
    }

    fn down<R: Wait>(&mut self, rt: &R, at: u32) -> FloorDown {
        self.desk.down(rt, at)
    }

    fn wait<R: Wait>(&mut self, rt: &R, at: u32, job: u32) -> Result<FloorTake, Turned> {
        self.desk.wait(rt, at, job)
    }

    fn arrive<R: Wait>(&mut self, rt: &R, at: u32, job: u32) -> Result<FloorTake, Turned> {
        self.desk.arrive(rt, at, job)
    }

    fn meet<R: Wait>(&mut self, _rt: &R, given: Self) -> Result<(), Self> {
        if given.desk.has_wait() {
            return Err(given);
        }
        X::law();
        self.desk.meet(given.desk);
        Ok(())
    }

    fn end<R: Wait>(&mut self, _rt: &R, at: u32) -> FloorEnd {
        X::law();
        self.desk.end(at)
    }
}

/// Does nothing: its clause tells what the passes of a floor are once all floors have met in it.
pub fn tell_passes(floor: &ShareFloor<AnyShared>)
    ensures { HaveAllMet (shared_in share_any floor.now) → HasOnlyPasses floor.now }
{
    // What the floor keeps is told where it is opened.
    let _desk = &floor.desk;
}
