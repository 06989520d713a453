//! The primitives, and a call of whichever it is.

ghost use Rattle.std.specs.Prelude.{◌≡◌, IfOk, OnOk, IfErr, OnErr};
ghost use Rattle.cqs_c_numbers.specs.Answered.{Leads};
ghost use Rattle.cqs_c_numbers.specs.Callers.{StandsAt, pass_number};
ghost use Rattle.cqs_c_numbers.specs.Seats.{RefusesSplit, HasSplit, RefusesMeet, TakesIn};

use crate::caller::Caller;
use cqs_barrier::Barrier;
use cqs_c_callers::{Answer, Verb};
use cqs_latch::Latch;
use cqs_pool::Pool;
use cqs_rule::Unparked;
use cqs_semaphore::Semaphore;
use cqs_sync_semaphore::SyncSemaphore;
use std::alloc::Global;

/// A primitive.
#[derive(Drop)]
pub enum Primitive {
    Semaphore(Semaphore<Unparked>),
    Pool(Pool<Unparked>),
    Latch(Latch<Unparked>),
    Barrier(Barrier<Unparked>),
    SyncSemaphore(SyncSemaphore<Unparked>),
}

impl Primitive {
    /// One call with the pass of a caller. `number` is that of a wait or of an element.
    pub fn call(&self, caller: &mut Caller, verb: Verb, number: u64) -> Answer
        requires { StandsAt self.now caller.old }
        ensures stands { StandsAt self.now caller.new }
        ensures answered { Leads self.now verb number caller.old result caller.new }
        ensures number { pass_number caller.new ≡ pass_number caller.old }
    {
        match self {
            Primitive::Semaphore(semaphore) => match caller {
                Caller::Semaphore(caller) => caller.call(semaphore, verb, number),
                Caller::Pool(_)
                | Caller::Latch(_)
                | Caller::Barrier(_)
                | Caller::SyncSemaphore(_) => unreachable!(),
            },
            Primitive::Pool(pool) => match caller {
                Caller::Pool(caller) => caller.call(pool, verb, number),
                Caller::Semaphore(_)
                | Caller::Latch(_)
                | Caller::Barrier(_)
                | Caller::SyncSemaphore(_) => unreachable!(),
            },
            Primitive::Latch(latch) => match caller {
                Caller::Latch(caller) => caller.call(latch, verb, number),
                Caller::Semaphore(_)
                | Caller::Pool(_)
                | Caller::Barrier(_)
                | Caller::SyncSemaphore(_) => unreachable!(),
            },
            Primitive::Barrier(barrier) => match caller {
                Caller::Barrier(caller) => caller.call(barrier, verb, number),
                Caller::Semaphore(_)
                | Caller::Pool(_)
                | Caller::Latch(_)
                | Caller::SyncSemaphore(_) => unreachable!(),
            },
            Primitive::SyncSemaphore(semaphore) => match caller {
                Caller::SyncSemaphore(caller) => caller.call(semaphore, verb, number),
                Caller::Semaphore(_) | Caller::Pool(_) | Caller::Latch(_) | Caller::Barrier(_) =>
                    unreachable!(),
            },
        }
    }

    /// A new caller, with room for so many waits. Of a barrier it gets so many parties.
    pub fn split(
        &self,
        caller: &mut Caller,
        alloc: Global,
        waits: u32,
        gives: u32,
    ) -> Result<Caller, Answer>
        requires { StandsAt self.now caller.old }
        ensures stands { StandsAt self.now caller.new }
        ensures made { IfOk result (λ made. StandsAt self.now made) }
        ensures split { IfOk result (HasSplit self.now gives caller.old caller.new) }
        ensures refused { IfErr result (RefusesSplit self.now gives caller.old caller.new) }
        ensures number { pass_number caller.new ≡ pass_number caller.old }
    {
        match self {
            Primitive::Semaphore(semaphore) => match caller {
                Caller::Semaphore(caller) => {
                    let Ok(room) = Vec::with_capacity(alloc, waits as usize) else {
                        return Err(Answer::Memory);
                    };
                    let made = caller.split(semaphore, room)?;
                    Ok(Caller::Semaphore(made))
                }
                Caller::Pool(_)
                | Caller::Latch(_)
                | Caller::Barrier(_)
                | Caller::SyncSemaphore(_) => unreachable!(),
            },
            Primitive::Pool(pool) => match caller {
                Caller::Pool(caller) => {
                    let Ok(room) = Vec::with_capacity(alloc, waits as usize) else {
                        return Err(Answer::Memory);
                    };
                    let Ok(elements) = Vec::with_capacity(alloc, caller.elements.capacity()) else {
                        return Err(Answer::Memory);
                    };
                    let made = caller.split(pool, room, elements)?;
                    Ok(Caller::Pool(made))
                }
                Caller::Semaphore(_)
                | Caller::Latch(_)
                | Caller::Barrier(_)
                | Caller::SyncSemaphore(_) => unreachable!(),
            },
            Primitive::Latch(latch) => match caller {
                Caller::Latch(caller) => {
                    let Ok(room) = Vec::with_capacity(alloc, waits as usize) else {
                        return Err(Answer::Memory);
                    };
                    let made = caller.split(latch, room)?;
                    Ok(Caller::Latch(made))
                }
                Caller::Semaphore(_)
                | Caller::Pool(_)
                | Caller::Barrier(_)
                | Caller::SyncSemaphore(_) => unreachable!(),
            },
            Primitive::Barrier(barrier) => match caller {
                Caller::Barrier(caller) => {
                    let Ok(room) = Vec::with_capacity(alloc, waits as usize) else {
                        return Err(Answer::Memory);
                    };
                    let made = caller.split(barrier, room, gives)?;
                    Ok(Caller::Barrier(made))
                }
                Caller::Semaphore(_)
                | Caller::Pool(_)
                | Caller::Latch(_)
                | Caller::SyncSemaphore(_) => unreachable!(),
            },
            Primitive::SyncSemaphore(semaphore) => match caller {
                Caller::SyncSemaphore(caller) => {
                    let Ok(room) = Vec::with_capacity(alloc, waits as usize) else {
                        return Err(Answer::Memory);
                    };
                    let made = caller.split(semaphore, room)?;
                    Ok(Caller::SyncSemaphore(made))
                }
                Caller::Semaphore(_) | Caller::Pool(_) | Caller::Latch(_) | Caller::Barrier(_) =>
                    unreachable!(),
            },
        }
    }

    /// The caller takes in the given one, which has no waits and owes nothing.
    pub fn meet(&self, caller: &mut Caller, given: Caller) -> Result<(), (Caller, Answer)>
        requires stands { StandsAt self.now caller.old }
        requires given { StandsAt self.now given }
        ensures stands { StandsAt self.now caller.new }
        ensures back { IfErr result (λ refused. refused.0 ≡ given) }
        ensures refused { IfErr result (λ refused. RefusesMeet caller.old given refused.1) }
        ensures unchanged { OnErr result (caller.new ≡ caller.old) }
        ensures met { OnOk result (TakesIn caller.old given caller.new) }
        ensures number { pass_number caller.new ≡ pass_number caller.old }
    {
        match self {
            Primitive::Semaphore(semaphore) => match caller {
                Caller::Semaphore(caller) => match given {
                    Caller::Semaphore(given) => match caller.meet(semaphore, given) {
                        Ok(()) => Ok(()),
                        Err((given, refused)) => Err((Caller::Semaphore(given), refused)),
                    },
                    Caller::Pool(_)
                    | Caller::Latch(_)
                    | Caller::Barrier(_)
                    | Caller::SyncSemaphore(_) => unreachable!(),
                },
                Caller::Pool(_)
                | Caller::Latch(_)
                | Caller::Barrier(_)
                | Caller::SyncSemaphore(_) => unreachable!(),
            },
            Primitive::Pool(pool) => match caller {
                Caller::Pool(caller) => match given {
                    Caller::Pool(given) => match caller.meet(pool, given) {
                        Ok(()) => Ok(()),
                        Err((given, refused)) => Err((Caller::Pool(given), refused)),
                    },
                    Caller::Semaphore(_)
                    | Caller::Latch(_)
                    | Caller::Barrier(_)
                    | Caller::SyncSemaphore(_) => unreachable!(),
                },
                Caller::Semaphore(_)
                | Caller::Latch(_)
                | Caller::Barrier(_)
                | Caller::SyncSemaphore(_) => unreachable!(),
            },
            Primitive::Latch(latch) => match caller {
                Caller::Latch(caller) => match given {
                    Caller::Latch(given) => match caller.meet(latch, given) {
                        Ok(()) => Ok(()),
                        Err((given, refused)) => Err((Caller::Latch(given), refused)),
                    },
                    Caller::Semaphore(_)
                    | Caller::Pool(_)
                    | Caller::Barrier(_)
                    | Caller::SyncSemaphore(_) => unreachable!(),
                },
                Caller::Semaphore(_)
                | Caller::Pool(_)
                | Caller::Barrier(_)
                | Caller::SyncSemaphore(_) => unreachable!(),
            },
            Primitive::Barrier(barrier) => match caller {
                Caller::Barrier(caller) => match given {
                    Caller::Barrier(given) => match caller.meet(barrier, given) {
                        Ok(()) => Ok(()),
                        Err((given, refused)) => Err((Caller::Barrier(given), refused)),
                    },
                    Caller::Semaphore(_)
                    | Caller::Pool(_)
                    | Caller::Latch(_)
                    | Caller::SyncSemaphore(_) => unreachable!(),
                },
                Caller::Semaphore(_)
                | Caller::Pool(_)
                | Caller::Latch(_)
                | Caller::SyncSemaphore(_) => unreachable!(),
            },
            Primitive::SyncSemaphore(semaphore) => match caller {
                Caller::SyncSemaphore(caller) => match given {
                    Caller::SyncSemaphore(given) => match caller.meet(semaphore, given) {
                        Ok(()) => Ok(()),
                        Err((given, refused)) => Err((Caller::SyncSemaphore(given), refused)),
                    },
                    Caller::Semaphore(_)
                    | Caller::Pool(_)
                    | Caller::Latch(_)
                    | Caller::Barrier(_) => unreachable!(),
                },
                Caller::Semaphore(_) | Caller::Pool(_) | Caller::Latch(_) | Caller::Barrier(_) =>
                    unreachable!(),
            },
        }
    }
}
