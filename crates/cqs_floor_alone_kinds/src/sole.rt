//! A semaphore with one caller, as a floor needs it.

ghost use Rattle.std.specs.Prelude.{◌≡◌, ◌≤ℤ◌, Some, negsuc, pos};
ghost use Rattle.cqs_core.specs.SemaphoreShown.{free_of, short_of};
ghost use Rattle.cqs_plan.specs.Floor.{size_of};
ghost use Rattle.cqs_floor_alone_kinds.specs.Soles.{IsOfPermits};

use cqs_core::Memory;
use cqs_plan::Kind;
use cqs_rule::Place;
use std::alloc::Global;

/// How many permits there are of a semaphore or a mutex: of a mutex it is one.
pub(super) fn permits(kind: Kind) -> u32
    requires { IsOfPermits (Some kind) }
    ensures { result ≡ size_of (Some kind) }
{
    match kind {
        Kind::Semaphore(permits) => permits,
        Kind::Mutex => 1,
        Kind::Pool(_) | Kind::Latch(_) | Kind::Rounds { .. } => unreachable!(),
    }
}

/// How a semaphore stands between two calls: all other permits are held.
#[derive(Clone, Copy)]
pub struct Stand {
    pub free: u32,
    pub line: u32,
}

/// How a semaphore stands by its state: the free permits, or below 0 the waits in the line.
pub(super) fn stand_in(state: i64) -> Stand
    requires least { negsuc 4294967294 ≤ℤ state }
    requires most { state ≤ℤ pos 4294967295 }
    ensures free { result.free ≡ free_of state }
    ensures line { result.line ≡ short_of state }
{
    if state < 0 {
        Stand {
            free: 0,
            line: (-state) as u32,
        }
    } else {
        Stand {
            free: state as u32,
            line: 0,
        }
    }
}

/// A semaphore with one caller, who makes one whole call after the other. Each call is the plain
/// semaphore's. A wait is named by the place of its cell.
///
/// It has taken its memory when it was made: as many takes as it has room for, and all that they
/// lead to, can't fail.
pub trait SoleSemaphore: Sized + Drop {
    ghost use Rattle.cqs_floor_alone_kinds.specs.Soles.{
      Sole,
      Acquires,
      CanAcquire,
      CanEnd,
      CanRelease,
      CanStand,
      Cancels,
      Polls,
      Releases,
      Tells,
    };

    ghost sole: { Sole Self };

    /// Takes a permit, or else a wait at the end of the line, whose cell stands there.
    fn acquire(&mut self) -> Option<Place>
        requires { CanAcquire sole self.old }
        ensures { Acquires sole self.old result self.new };

    /// Gives a permit back. It answers the number of the wait that the permit was sent to, if
    /// somebody waits.
    fn release(&mut self) -> Option<u64>
        requires { CanRelease sole self.old }
        ensures { Releases sole self.old result self.new };

    /// Looks at a wait. It answers whether that was served: then its permit is the caller's, and
    /// else it stands in the line.
    fn poll(&mut self, wait: Place) -> bool
        requires { CanEnd sole wait self.old }
        ensures { Polls sole self.old wait result self.new };

    /// Gives a wait up. It answers whether that stood in the line; else its permit is the caller's.
    fn cancel(&mut self, wait: Place) -> bool
        requires { CanEnd sole wait self.old }
        ensures { Cancels sole self.old wait result self.new };

    /// How many permits are free, and how many waits stand in the line.
    fn stand(&mut self) -> Stand
        requires { CanStand sole self.old }
        ensures { Tells sole self.old result self.new };
}

/// A semaphore that can be made for each kind of resource of which permits are taken and given.
pub trait ForPermits: SoleSemaphore {
    ghost use Rattle.std.specs.Prelude.{◌≤◌, IfOk, Some};
    ghost use Rattle.cqs_plan.specs.Validity.{IsKind};
    ghost use Rattle.cqs_floor_alone_kinds.specs.Soles.{IsOfPermits, IsOpened};

    /// One for a semaphore or a mutex, with all its permits free, and room for so many takes.
    fn open(alloc: Global, kind: Kind, takes: u32) -> Result<Self, Memory>
        requires permits { IsOfPermits (Some kind) }
        requires sized { IsKind kind }
        requires few_takes { takes ≤ 524288 }
        ensures { IfOk result (IsOpened Self.sole (Some kind) takes) };
}
