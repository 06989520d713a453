//! The trait of floors.

ghost use Rattle.std.specs.Prelude.{◌≡◌, ◌<◌, IsSome, slice_get};
ghost use Rattle.cqs_plan.specs.Floor.{PlainFloor, IsJob, IsHolding, IsWaiting, IsIdle, IsHoldable, IsLatch, HasRound, room_at, round_of, to_come_at};
ghost use Rattle.cqs_plan.specs.FloorCalls.{
  take_answer,
  after_take,
  give_answer,
  after_give,
  look_answer,
  after_look,
  leave_answer,
  after_leave,
  down_answer,
  after_down,
  wait_answer,
  after_wait,
  arrive_answer,
  after_arrive,
  end_answer,
};
ghost use Rattle.cqs_plan.specs.LegalFloor.{IsLegalFloor};

use super::answers::{FloorDown, FloorEnd, FloorGive, FloorLeave, FloorLook, FloorTake};

/// What carries out the steps of a plan's jobs, for one caller that makes them one after the other.
///
/// Contracts see a floor as its plain floor: what happened to each resource so far, and what each
/// job waits for and holds. Whatever was called, what happened at each resource is a legal history
/// of it. A floor takes all its memory when it is made, so its calls can't fail. `at` is the place
/// of a resource among the plan's resources, and `job` that of a job among its jobs.
pub trait Floor {
    ghost plain: { Self → PlainFloor };

    /// The job takes: what it takes is then its newest, or it waits at the end of the line.
    fn take(&mut self, at: u32, job: u32) -> FloorTake
        requires resource { IsHoldable (slice_get (plain self.old).kinds at) }
        requires job { IsJob (plain self.old) job }
        requires idle { IsIdle (plain self.old) job }
        requires room { 0 < room_at (plain self.old) at }
        ensures answer { result ≡ take_answer (plain self.old) at job }
        ensures after { plain self.new ≡ after_take (plain self.old) at job result }
        ensures legal { IsLegalFloor (plain self.new) };

    /// The job gives back the oldest that it holds of this resource, to the first of the line.
    fn give(&mut self, at: u32, job: u32) -> FloorGive
        requires resource { IsHoldable (slice_get (plain self.old).kinds at) }
        requires job { IsJob (plain self.old) job }
        requires holds { IsHolding (plain self.old) at job }
        ensures answer { result ≡ give_answer (plain self.old) at job }
        ensures after { plain self.new ≡ after_give (plain self.old) at job result }
        ensures legal { IsLegalFloor (plain self.new) };

    /// The job looks at its wait. What came is then its newest, and the wait is over; of a latch or
    /// a barrier nothing comes.
    fn look(&mut self, job: u32) -> FloorLook
        requires job { IsJob (plain self.old) job }
        requires waits { IsWaiting (plain self.old) job }
        ensures answer { result ≡ look_answer (plain self.old) job }
        ensures after { plain self.new ≡ after_look (plain self.old) job result }
        ensures legal { IsLegalFloor (plain self.new) };

    /// The job gives its wait up. An arrival is taken back with it: the job's next one there is in
    /// the same round. A wait that was served before is late: what came is the job's newest.
    fn leave(&mut self, job: u32) -> FloorLeave
        requires job { IsJob (plain self.old) job }
        requires waits { IsWaiting (plain self.old) job }
        ensures answer { result ≡ leave_answer (plain self.old) job }
        ensures after { plain self.new ≡ after_leave (plain self.old) job result }
        ensures legal { IsLegalFloor (plain self.new) };

    /// Counts the latch down. The last count opens it, for all who wait.
    fn down(&mut self, at: u32) -> FloorDown
        requires resource { IsLatch (slice_get (plain self.old).kinds at) }
        ensures answer { result ≡ down_answer (plain self.old) at }
        ensures after { plain self.new ≡ after_down (plain self.old) at result }
        ensures legal { IsLegalFloor (plain self.new) };

    /// The job passes the latch, or waits until it is open.
    fn wait(&mut self, at: u32, job: u32) -> FloorTake
        requires resource { IsLatch (slice_get (plain self.old).kinds at) }
        requires job { IsJob (plain self.old) job }
        requires idle { IsIdle (plain self.old) job }
        requires room { 0 < room_at (plain self.old) at }
        ensures answer { result ≡ wait_answer (plain self.old) at }
        ensures after { plain self.new ≡ after_wait (plain self.old) at job result }
        ensures legal { IsLegalFloor (plain self.new) };

    /// The job arrives at the barrier, in its round there. It waits for those that are still to
    /// arrive in this round, or it is the last, and all who wait come through.
    fn arrive(&mut self, at: u32, job: u32) -> FloorTake
        requires resource { HasRound (slice_get (plain self.old).kinds at)
            (round_of (plain self.old) job at) }
        requires job { IsJob (plain self.old) job }
        requires idle { IsIdle (plain self.old) job }
        requires room { 0 < room_at (plain self.old) at }
        requires to_come { 0 < to_come_at (plain self.old) at (round_of (plain self.old) job at) }
        ensures answer { result ≡ arrive_answer (plain self.old) at job }
        ensures after { plain self.new ≡ after_arrive (plain self.old) at job result }
        ensures legal { IsLegalFloor (plain self.new) };

    /// How the resource stands. Nothing changes.
    fn end(&mut self, at: u32) -> FloorEnd
        requires { IsSome (slice_get (plain self.old).kinds at) }
        ensures answer { result ≡ end_answer (plain self.old) at }
        ensures same { plain self.new ≡ plain self.old }
        ensures legal { IsLegalFloor (plain self.new) };
}
