//! Who has a pass, of whatever primitive.

ghost use Rattle.std.specs.Prelude.{◌≡◌};
ghost use Rattle.cqs_c_numbers.specs.Callers.{pass_number};

use cqs_c_callers::{PoolCaller, SemaphoreCaller};
use cqs_c_latch_callers::{BarrierCaller, LatchCaller};
use cqs_c_sync_callers::SyncSemaphoreCaller;

/// What the number of a pass stands for, by its primitive.
#[derive(Drop)]
pub enum Caller {
    Semaphore(SemaphoreCaller),
    Pool(PoolCaller),
    Latch(LatchCaller),
    Barrier(BarrierCaller),
    SyncSemaphore(SyncSemaphoreCaller),
}

impl Caller {
    /// The number of its pass.
    pub fn number(&self) -> u32
        ensures { result ≡ pass_number self.now }
    {
        match self {
            Caller::Semaphore(caller) => caller.pass.number(),
            Caller::Pool(caller) => caller.pass.number(),
            Caller::Latch(caller) => caller.pass.number(),
            Caller::Barrier(caller) => caller.pass.number(),
            Caller::SyncSemaphore(caller) => caller.pass.number(),
        }
    }
}
