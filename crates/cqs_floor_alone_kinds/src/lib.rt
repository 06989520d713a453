//! The resources of a plan with one caller: each kind on the running queue, with the one pass that
//! its floor has to it, and a semaphore on a core too. A floor works on them all by one trait.
#![tactic(auto)]

mod any_sole;
mod core_sole;
mod latch_sole;
mod mutex_sole;
mod permits;
mod pool_sole;
mod queue_sole;
mod round_sole;
mod rounds_sole;
mod running_sole;
mod sole;
mod sole_resource;
mod waits;

pub use any_sole::AnySole;
pub use running_sole::RunningSole;
pub use sole::{ForPermits, SoleSemaphore, Stand};
pub use sole_resource::{ForEachKind, Left, Looked, SoleResource, Taken};
pub use waits::{Wait, WaitSlot};
