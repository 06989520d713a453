//! The shortest use of a semaphore: one caller, who has three permits to take from.

use cqs_rule::{Config, MakeError};
use cqs_semaphore::{Acquired, Semaphore};
use std::alloc::Global;

/// Takes a permit and gives it back, or leaves the line again. Nobody else has a pass, so neither
/// answer has anything that is to be finished; and the acquire has found slots for the release too.
pub fn take_one(alloc: Global) -> Result<(), MakeError> {
    let config = Config {
        passes: 2,
        limit: 1024,
        slots: 6,
    };
    let (semaphore, mut pass) = Semaphore::new(alloc, 3, config)?;
    match semaphore.acquire(&mut pass) {
        Ok(Acquired::Now(permit)) => drop(semaphore.release(&mut pass, permit)),
        Ok(Acquired::Later(wait)) => drop(semaphore.cancel(&mut pass, wait)),
        Err(_) => {}
    }
    Ok(())
}
