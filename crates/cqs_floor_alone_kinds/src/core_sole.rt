//! A runnable core with one pass, as the semaphore of a floor.

ghost use Rattle.std.specs.Prelude.{◌≡◌, ◌≤ℤ◌, negsuc, pos, slice_get};
ghost use Rattle.cqs_core.specs.SemaphoreShown.{free_of, short_of};
ghost use Rattle.cqs_core.specs.SoleCaller.{MayCall};
ghost use Rattle.cqs_floor_alone_kinds.specs.SoleCore.{HasMade, IsReady, is_served_at};

use crate::sole::{ForPermits, SoleSemaphore, Stand, permits, stand_in};
use cqs_core::{Call, CoreCell, CoreState, Memory, Reply};
use cqs_core_run::Core;
use cqs_plan::Kind;
use cqs_rule::Place;
use std::alloc::Global;

/// The entries for which a core needs memory, for each take: three for the take, three for the look
/// or the leave of its wait, and three for the give.
const ENTRIES_A_TAKE: u32 = 9;

impl SoleSemaphore for Core {
    ghost use Rattle.cqs_floor_alone_kinds.specs.SoleCore.{sole_core};

    ghost sole = { sole_core };

    fn acquire(&mut self) -> Option<Place> {
        wait_in(call_core(self, Call::Acquire { pass: 0 }))
    }

    fn release(&mut self) -> Option<u64> {
        sent_in(call_core(self, Call::Release { pass: 0 }))
    }

    fn poll(&mut self, wait: Place) -> bool {
        let number = wait.index;
        if !is_served(self, number) {
            return false;
        }
        call_core(
            self,
            Call::Poll {
                pass: 0,
                wait: number,
            },
        );
        true
    }

    fn cancel(&mut self, wait: Place) -> bool {
        has_left(call_core(
            self,
            Call::Cancel {
                pass: 0,
                wait: wait.index,
            },
        ))
    }

    fn stand(&mut self) -> Stand {
        stand_of(self)
    }
}

impl ForPermits for Core {
    fn open(alloc: Global, kind: Kind, takes: u32) -> Result<Self, Memory> {
        let mut core = Core::new(alloc, permits(kind), 1).map_err(|_| Memory)?;
        core.reserve(ENTRIES_A_TAKE * takes).map_err(|_| Memory)?;
        Ok(core)
    }
}

/// Makes a call that is allowed.
fn call_core(core: &mut Core, call: Call) -> Reply
    requires ready { IsReady core.old }
    requires allowed { MayCall core.old.shape call }
    ensures { HasMade core.old call result core.new }
{
    match core.run_ready(call) {
        Some(reply) => reply,
        None => unreachable!(),
    }
}

/// The wait that the reply tells of: a core's cells stand where their numbers say, and in no word.
fn wait_in(reply: Reply) -> Option<Place>
    ensures { result ≡ Rattle.cqs_floor_alone_kinds.specs.SoleCore.wait_in reply }
{
    match reply {
        Reply::Later(wait) => Some(Place {
            word: 0,
            index: wait,
        }),
        _ => None,
    }
}

/// The wait that the reply tells a permit was sent to.
fn sent_in(reply: Reply) -> Option<u64>
    ensures { result ≡ Rattle.cqs_floor_alone_kinds.specs.SoleCore.sent_in reply }
{
    match reply {
        Reply::Sent(wait) => Some(wait),
        _ => None,
    }
}

/// Whether the reply tells of a wait that left the line.
fn has_left(reply: Reply) -> bool
    ensures { result ≡ Rattle.cqs_floor_alone_kinds.specs.SoleCore.has_left reply }
{
    matches!(reply, Reply::Cancelled)
}

/// How a core stands by its state word, where its pass is idle.
fn stand_of(core: &Core) -> Stand
    requires least { negsuc 4294967294 ≤ℤ core.now.shape.state }
    requires most { core.now.shape.state ≤ℤ pos 4294967295 }
    ensures free { result.free ≡ free_of core.now.shape.state }
    ensures line { result.line ≡ short_of core.now.shape.state }
{
    stand_in(core.state())
}

/// Whether the wait of this number was served.
fn is_served(core: &Core, number: u64) -> bool
    ensures { result ≡ is_served_at (slice_get core.now.shape.queue.cells number) }
{
    matches!(
        core.cell(number),
        Some(CoreCell {
            state: CoreState::Resumed,
            ..
        })
    )
}
