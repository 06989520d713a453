//! What it costs to ask, after each serve, whether anybody sleeps: rounds of a wait that is served,
//! on a semaphore whose callers may sleep and on one whose callers never do.

ghost use Rattle.std.specs.Prelude.{◌≡◌, false};
ghost use Rattle.cqs_semaphore.specs.Callers.{IsIdle};

use crate::primitives::rounds::served_rounds;
use cqs_bench_rows::nanoseconds_since;
use cqs_rule::{Carries, Config};
use cqs_semaphore::{Acquired, SemPass, Semaphore};
use std::rt::Clock;
use std::time::Instant;

/// One pass, and few slots, which are used again.
const CONFIG: Config = Config {
    passes: 1,
    limit: 1 << 20,
    slots: 4,
};

/// Whether callers of the semaphore may sleep.
#[derive(Clone, Copy, Drop)]
pub enum Wakes {
    /// They may: a serve looks at the count of those who do.
    Guarded,
    /// They never do: a serve wakes nobody.
    Never,
}

/// The nanoseconds of so many rounds, on a semaphore of one permit of its own.
pub fn time<R: Clock + AllocGlobal>(rt: &R, wakes: Wakes, count: u64) -> anyhow::Result<u64> {
    match wakes {
        Wakes::Guarded => match Semaphore::new(rt.alloc(), 1, CONFIG) {
            Ok((semaphore, pass)) => time_apart(rt, &semaphore, pass, count),
            Err(_) => anyhow::bail!("no memory for the semaphore"),
        },
        Wakes::Never => match Semaphore::unparked(rt.alloc(), 1, CONFIG) {
            Ok((semaphore, pass)) => time_apart(rt, &semaphore, pass, count),
            Err(_) => anyhow::bail!("no memory for the semaphore"),
        },
    }
}

/// The rounds, in a function of its own that gets the semaphore by its address: so nothing is known
/// there of who sleeps, and the count is loaded each time. The pass comes by value.
#[inline(never)]
fn time_apart<R: Clock, T: Carries + Send>(
    rt: &R,
    semaphore: &Semaphore<T>,
    pass: SemPass<T>,
    count: u64,
) -> anyhow::Result<u64>
    requires bare { T.kept ≡ false }
    requires idle { IsIdle semaphore.now pass }
{
    let mut pass = pass;
    let Ok(Acquired::Now(permit)) = semaphore.acquire(&mut pass) else {
        anyhow::bail!("no permit was free");
    };
    let start = Instant::now(rt)?;
    let done = served_rounds(semaphore, &mut pass, permit, count);
    nanoseconds_since(rt, start, done)
}
