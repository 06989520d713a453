//! Floors of one caller: a floor carries out the steps of a plan's jobs, on resources of which it
//! is the only caller.
//!
//! A desk keeps who waits where and who holds what; each call of a floor makes one call of one
//! resource and writes down at the desk what became of it. `QueueFloor` has a desk over the running
//! queue, `CoreFloor` one over cores.
#![tactic(auto)]

mod core_floor;
mod desk;
mod opening;
mod queue_floor;
mod transfers;

pub use core_floor::CoreFloor;
pub use queue_floor::QueueFloor;
