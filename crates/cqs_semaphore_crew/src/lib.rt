//! A crew of threads on one semaphore, each with a pass of its own: what a thread does, and how the
//! crew begins and ends.
//!
//! A worker acquires, looks at its waits, gives every third of them up at once (in every other
//! hundred of rounds all of them) and each other one after some looks, tries, and gives back all
//! that it got. So at the end it holds what it held at first and has no wait, and its pass can be
//! taken in again.
#![tactic(auto)]

mod counts;
mod crew;
mod giving;
mod waiting;
mod worker;

pub use counts::{Acquires, Cancels, Counts, Polls, Releases, Tries};
pub use crew::{CrewError, together};
pub use worker::work;
