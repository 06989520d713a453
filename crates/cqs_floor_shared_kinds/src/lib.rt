//! The resources of a plan that workers share: a semaphore, a mutex and a pool, each a primitive of
//! the running queue, to which each worker has a pass of its own. A worker's floor works on
//! whichever kind by one trait; the other kinds are in `cqs_floor_shared_any`.
#![tactic(auto)]

mod kinds;
mod resource;

pub use kinds::{SharedPermits, SharedPool};
pub use resource::{Came, ForEachKind, SharedResource};
