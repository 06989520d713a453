//! The count-down latch as a plain object: what it is to its users, the entries of its history, and
//! what a queue with a latch's words shows of it.
//!
//! The object has the count that is left, whether it is open, the resumptions that are on their way
//! to those who wait, and the line of waiters. Each law is a function that does nothing: a law is
//! proved where the contract of a function says it.
#![tactic(auto)]

mod entries;
mod laws;

pub use entries::LatchEntry;
pub use laws::{
    every_run_is_legal, nobody_comes_past_early, opening_resumes_all_who_wait,
    queue_steps_keep_the_latch, the_count_stays_in_range, waiters_are_few,
    word_steps_keep_the_latch,
};
