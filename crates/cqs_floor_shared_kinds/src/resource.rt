//! A resource that workers share, as the floor of one of them needs it.

use cqs_core::Memory;
use cqs_floor_shared::SharedGive;
use cqs_plan::{FloorDown, FloorEnd, FloorLeave, FloorLook, Kind};
use cqs_rule::Place;
use std::alloc::Global;
use std::sync::Wait;

/// What a take, a wait at a latch or an arrival at a barrier came to.
#[derive(Clone, Copy)]
pub enum Came {
    /// The job has this element, or a permit, which has the number 0; or it goes on.
    Now(u32),
    /// The job waits under this number, and a permit came with it: the next look finds it.
    Under(u64),
    /// The job waits at the end of the line, and the cell of its wait stands there.
    Waits(Place),
    /// No number is left.
    Worn,
}

/// A resource that workers share, with the pass of one of them, who makes its calls for the jobs of
/// a plan. Each call is at its place in the one history of the resource. A wait is named by the
/// place of its cell, which is data: whoever has no wait there can make no call with it.
///
/// It has taken its memory when it was made. A call finishes what its pass owes, and is made again
/// where another caller was in its way; so it may wait.
pub trait SharedResource: Sized + Drop {
    ghost use Rattle.std.specs.Prelude.{◌≡◌, IfOk};
    ghost use Rattle.cqs_floor_shared_kinds.specs.Shares.{IsLawful, Share};
    ghost use Rattle.cqs_floor_shared_kinds.specs.ShareCalls.{
      Arrives,
      CanArrive,
      CanCount,
      CanEnd,
      CanGive,
      CanMeet,
      CanSplit,
      CanTake,
      CanTell,
      CanWait,
      Counts,
      Gives,
      HasSplit,
      Leaves,
      Looks,
      Meets,
      Takes,
      Tells,
      Waits,
    };

    ghost share: { Share Self };

    /// The job takes what is free, or else waits at the end of the line.
    fn take<R: Wait>(&mut self, rt: &R, job: u32) -> Came
        requires { CanTake share job self.old }
        ensures { Takes share job self.old result self.new };

    /// The job gives back the oldest that it holds.
    fn give<R: Wait>(&mut self, rt: &R, job: u32) -> SharedGive
        requires { CanGive share job self.old }
        ensures { Gives share job self.old result self.new };

    /// Counts a latch down. The last count opens it, for all who wait.
    fn down<R: Wait>(&mut self, rt: &R) -> FloorDown
        requires { CanCount share self.old }
        ensures { Counts share self.old result self.new };

    /// The job passes a latch, or it waits at the end of the line.
    fn wait<R: Wait>(&mut self, rt: &R, job: u32) -> Came
        requires { CanWait share job self.old }
        ensures { Waits share job self.old result self.new };

    /// The job arrives in this round of a barrier, with a party that the pass holds: as the last,
    /// for all who wait; or it waits at the end of the line.
    fn arrive<R: Wait>(&mut self, rt: &R, job: u32, round: u32) -> Came
        requires { CanArrive share job round self.old }
        ensures { Arrives share job round self.old result self.new };

    /// The job looks at its wait, which is of this round where that is at a barrier.
    fn look(&mut self, job: u32, round: u32, wait: Place) -> FloorLook
        requires { CanEnd share job round wait self.old }
        ensures { Looks share job self.old round wait result self.new };

    /// The job gives its wait up.
    fn leave<R: Wait>(&mut self, rt: &R, job: u32, round: u32, wait: Place) -> FloorLeave
        requires { CanEnd share job round wait self.old }
        ensures { Leaves share job self.old round wait result self.new };

    /// One with a new pass, for another worker, with so many parties of each round.
    fn split(&mut self, alloc: Global, gives: u32) -> Result<Self, Memory>
        requires { CanSplit share gives self.old }
        ensures { IfOk result (λ made. HasSplit share gives self.old made self.new) };

    /// Takes in the pass of another worker, which has no wait.
    fn meet(&mut self, given: Self)
        requires { CanMeet share given self.old }
        ensures { Meets share given self.old self.new };

    /// The number of its pass.
    fn number(&self) -> u32
        ensures { result ≡ share.number self.now };

    /// How it stands, as a resource of its kind, once all workers have met.
    fn end(&self, kind: Kind) -> FloorEnd
        requires { CanTell share kind self.now }
        ensures { Tells share kind self.now result };

    /// Does nothing: its clause tells what every such resource keeps to.
    fn law()
        ensures { IsLawful share };
}

/// A resource that can be made of each kind, and split.
pub trait ForEachKind: SharedResource {
    ghost use Rattle.std.specs.Prelude.{◌≤◌, IfOk};
    ghost use Rattle.cqs_plan.specs.Validity.{IsKind};
    ghost use Rattle.cqs_floor_shared_kinds.specs.ShareCalls.{IsOpened};

    /// One of this kind, to which nothing has happened, for so many workers, with room for so many
    /// takes, waits and arrivals.
    fn open(alloc: Global, kind: Kind, workers: u32, room: u32) -> Result<Self, Memory>
        requires sized { IsKind kind }
        requires some { 1 ≤ workers }
        requires few_workers { workers ≤ 16 }
        requires few { room ≤ 524288 }
        ensures { IfOk result (IsOpened Self.share kind workers room) };
}
