//! The floor of one worker, over objects that all workers share.

ghost use Rattle.std.specs.Prelude.{◌≡◌, ◌<◌, ℕ, ◌∷◌, OnOk, IfErr, IsSome, slice_get};
ghost use Rattle.cqs_core.specs.Parts.{Has};
ghost use Rattle.cqs_plan.specs.Floor.{IsJob, IsHolding, IsWaiting, IsIdle, IsHoldable, IsLatch, HasRound, room_at, round_of};
ghost use Rattle.cqs_floor_shared.specs.Shared.{Shared, kind_at, parties_at};
ghost use Rattle.cqs_floor_shared.specs.Calls.{Takes, Gives, HasLooked, HasLeft, Downs, Waits, Arrives, Meets, HasWait, HaveAllMet, IsAtRest, answer_of, end_answer};

use cqs_plan::{FloorDown, FloorEnd, FloorLeave, FloorLook, FloorTake};
use std::sync::Wait;

/// The call was turned away: no number is left in the resource's line.
#[derive(Clone, Copy)]
pub struct Turned;

/// Where what a job gave back went. The element is the one that the job held there: of a pool its
/// number, and of anything else the 0 that it came with.
#[derive(Clone, Copy)]
pub enum SharedGive {
    /// Nobody waits: this element is free.
    Free(u32),
    /// This element was sent to the wait of this number.
    Sent(u32, u64),
    /// This element was left under this number, for who comes to wait or is leaving.
    Left(u32, u64),
    /// The wait of this number had left, and the permit is free.
    Void(u64),
}

/// What carries out the steps of one worker's jobs, while others do so beside it.
///
/// Contracts see a floor as a `Shared`: what its pass has seen of each resource, and what each job
/// waits for and holds. Each call is at its place in the one history of its resource, and what the
/// pass has seen goes on to there. A floor takes all its memory when it is made. A call finishes
/// what the pass owes, and makes a call of the resource again that met another caller; so it may
/// wait. `at` is the place of a resource among the plan's, and `job` that of a job.
pub trait SharedFloor: Sized {
    ghost shared: { Self → Shared };

    /// The job takes: what it takes is then its newest, or it waits.
    fn take<R: Wait>(&mut self, rt: &R, at: u32, job: u32) -> Result<FloorTake, Turned>
        requires resource { IsHoldable (kind_at (shared self.old) at) }
        requires job { IsJob (shared self.old).board job }
        requires idle { IsIdle (shared self.old).board job }
        requires room { 0 < room_at (shared self.old).board at }
        ensures { Takes (shared self.old) at job (answer_of result) (shared self.new) };

    /// The job gives back the oldest that it holds of this resource.
    fn give<R: Wait>(&mut self, rt: &R, at: u32, job: u32) -> SharedGive
        requires resource { IsHoldable (kind_at (shared self.old) at) }
        requires job { IsJob (shared self.old).board job }
        requires holds { IsHolding (shared self.old).board at job }
        ensures { Gives (shared self.old) at job result (shared self.new) };

    /// The job looks at its wait. What came is then its newest, and the wait is over.
    fn look<R: Wait>(&mut self, rt: &R, job: u32) -> FloorLook
        requires job { IsJob (shared self.old).board job }
        requires waits { IsWaiting (shared self.old).board job }
        ensures { HasLooked (shared self.old) job result (shared self.new) };

    /// The job gives its wait up. A wait that was served before is late: what came is the job's
    /// newest.
    fn leave<R: Wait>(&mut self, rt: &R, job: u32) -> FloorLeave
        requires job { IsJob (shared self.old).board job }
        requires waits { IsWaiting (shared self.old).board job }
        ensures { HasLeft (shared self.old) job result (shared self.new) };

    /// Counts the latch down. The last count opens it, for all who wait.
    fn down<R: Wait>(&mut self, rt: &R, at: u32) -> FloorDown
        requires resource { IsLatch (kind_at (shared self.old) at) }
        ensures { Downs (shared self.old) at result (shared self.new) };

    /// The job passes the latch, or waits until it is open.
    fn wait<R: Wait>(&mut self, rt: &R, at: u32, job: u32) -> Result<FloorTake, Turned>
        requires resource { IsLatch (kind_at (shared self.old) at) }
        requires job { IsJob (shared self.old).board job }
        requires idle { IsIdle (shared self.old).board job }
        requires room { 0 < room_at (shared self.old).board at }
        ensures { Waits (shared self.old) at job (answer_of result) (shared self.new) };

    /// The job arrives at the barrier, in its round there, with a party that the pass holds. It
    /// waits for those that are still to arrive in this round, or it is the last.
    fn arrive<R: Wait>(&mut self, rt: &R, at: u32, job: u32) -> Result<FloorTake, Turned>
        requires resource { HasRound (kind_at (shared self.old) at)
            (round_of (shared self.old).board job at) }
        requires job { IsJob (shared self.old).board job }
        requires idle { IsIdle (shared self.old).board job }
        requires room { 0 < room_at (shared self.old).board at }
        requires party { 0 < parties_at (shared self.old) at
            (round_of (shared self.old).board job at) }
        ensures { Arrives (shared self.old) at job (answer_of result) (shared self.new) };

    /// Takes another floor of its family in. It is handed back exactly where one of its jobs has a
    /// wait. That no pass is in both, be it by an earlier `meet`, is asked of the caller.
    fn meet<R: Wait>(&mut self, rt: &R, given: Self) -> Result<(), Self>
        requires family { (shared given).family ≡ (shared self.old).family }
        requires apart { (n : ℕ) → Has n ((shared self.old).number ∷ (shared self.old).met)
            → Has n ((shared given).number ∷ (shared given).met) → ⊥ }
        ensures ok { OnOk result (Meets (shared self.old) (shared given) (shared self.new)) }
        ensures idle { OnOk result (HasWait (shared given).board → ⊥) }
        ensures err { IfErr result (λ back. (back ≡ given)
            × HasWait (shared given).board × (shared self.new ≡ shared self.old)) };

    /// How the resource stands, where all floors have met. Nothing changes.
    fn end<R: Wait>(&mut self, rt: &R, at: u32) -> FloorEnd
        requires resource { IsSome (kind_at (shared self.old) at) }
        requires met { HaveAllMet (shared self.old) }
        requires rest { IsAtRest (shared self.old).board }
        ensures answer { result ≡ end_answer (shared self.old) at }
        ensures same { shared self.new ≡ shared self.old };
}
