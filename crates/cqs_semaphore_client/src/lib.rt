//! The semaphore as a client of the queue: its object, the word that shows it, its events, and the
//! single steps that show them.
//!
//! The word is the state: above 0 it counts the free permits, and below 0 the callers who wait with
//! no permit on its way. A step that takes or gives a permit adds to it; what it found says whether
//! the caller has a permit, waits, or owes one to somebody who waits. `cqs_semaphore` makes its
//! calls of these steps and those of the queue.
#![tactic(auto)]

mod semaphore;

pub use semaphore::{
    Decide, Give, SemClient, Take, TryLoad, TrySwap, give_permit, load_state, next_wait,
    read_state, take_permit, try_take,
};
