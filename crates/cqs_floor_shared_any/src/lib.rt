//! Latches and rounds of barriers that workers share, and, with the semaphores, mutexes and pools
//! of `cqs_floor_shared_kinds`, all kinds of shared resource as one.
#![tactic(auto)]

mod kinds;

pub use kinds::{AnyShared, SharedLatch, SharedRound, SharedRounds};
