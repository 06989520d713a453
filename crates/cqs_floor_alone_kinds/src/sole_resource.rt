//! A resource with one caller, who makes its calls for the jobs of a plan, as a floor needs it.

use cqs_core::Memory;
use cqs_plan::{FloorDown, FloorEnd, FloorGive, Kind};
use cqs_rule::Place;
use std::alloc::Global;

/// What a take came to.
#[derive(Clone, Copy)]
pub enum Taken {
    /// The job has this element, or a permit, which has the number 0.
    Now(u32),
    /// The job waits at the end of the line, and the cell of its wait stands there.
    Waits(Place),
}

/// What a look at a wait found.
#[derive(Clone, Copy)]
pub enum Looked {
    /// The wait stands in the line.
    Pending,
    /// The job has this element, or a permit.
    Got(u32),
    /// The job goes through a latch or a barrier.
    Through,
}

/// What a job found that wanted to leave the line.
#[derive(Clone, Copy)]
pub enum Left {
    /// Its wait is gone.
    Gone,
    /// Its wait was served before: the job has this element, or a permit.
    Late(u32),
    /// Its wait was served before: the job goes through a latch or a barrier.
    Through,
}

/// A resource with one caller, who makes one whole call after the other for the jobs of a plan.
/// Each call is the plain resource's. A wait is named by the place of its cell, which is data:
/// whoever has no wait there can make no call with it.
///
/// It has taken its memory when it was made: as many takes as it has room for, and all that they
/// lead to, can't fail.
pub trait SoleResource: Sized + Drop {
    ghost use Rattle.cqs_floor_alone_kinds.specs.Stores.{
      Store,
      Acquires,
      Arrives,
      Awaits,
      CanAcquire,
      CanArrive,
      CanCount,
      CanEnd,
      CanRelease,
      CanTell,
      CanWait,
      Cancels,
      Counts,
      Polls,
      Releases,
      Tells,
    };

    ghost store: { Store Self };

    /// The job takes what is free first, or else waits at the end of the line.
    fn take(&mut self, job: u32) -> Taken
        requires { CanAcquire store job self.old }
        ensures { Acquires store job self.old result self.new };

    /// The job gives back the oldest that it holds, to the first of the line if somebody waits.
    fn give(&mut self, job: u32) -> FloorGive
        requires { CanRelease store job self.old }
        ensures { Releases store job self.old result self.new };

    /// Counts a latch down. The last count opens it, for all who wait.
    fn down(&mut self) -> FloorDown
        requires { CanCount store self.old }
        ensures { Counts store self.old result self.new };

    /// The job passes a latch, or it waits at the end of the line, and the cell of its wait stands
    /// there.
    fn wait(&mut self, job: u32) -> Option<Place>
        requires { CanWait store job self.old }
        ensures { Awaits store job self.old result self.new };

    /// The job arrives in this round of a barrier, as the last, for all who wait; or it waits at
    /// the end of the line.
    fn arrive(&mut self, job: u32, round: u32) -> Option<Place>
        requires { CanArrive store job round self.old }
        ensures { Arrives store job round self.old result self.new };

    /// The job looks at its wait, which is of this round where that is at a barrier.
    fn look(&mut self, job: u32, round: u32, wait: Place) -> Looked
        requires { CanEnd store job round wait self.old }
        ensures { Polls store job self.old round wait result self.new };

    /// The job gives its wait up.
    fn leave(&mut self, job: u32, round: u32, wait: Place) -> Left
        requires { CanEnd store job round wait self.old }
        ensures { Cancels store job self.old round wait result self.new };

    /// How it stands, as a resource of its kind.
    fn end(&mut self, kind: Kind) -> FloorEnd
        requires { CanTell store kind self.old }
        ensures { Tells store kind self.old result self.new };
}

/// A resource that can be made of each kind.
pub trait ForEachKind: SoleResource {
    ghost use Rattle.std.specs.Prelude.{◌≤◌, IfOk};
    ghost use Rattle.cqs_plan.specs.Validity.{IsKind};
    ghost use Rattle.cqs_floor_alone_kinds.specs.Stores.{IsOpened};

    /// One of this kind, to which nothing has happened, with room for so many takes, waits and
    /// arrivals.
    fn open(alloc: Global, kind: Kind, room: u32) -> Result<Self, Memory>
        requires sized { IsKind kind }
        requires few { room ≤ 524288 }
        ensures { IfOk result (IsOpened Self.store kind room) };
}
