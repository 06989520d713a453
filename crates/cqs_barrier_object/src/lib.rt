//! The barrier as a plain object: what it is to its users, the entries of its history, and what a
//! queue with a remaining number shows of it.
//!
//! The object has how many parties are still to arrive, how many resumptions are on their way, the
//! line of waiters, and the waits of those who came too late to withdraw. Each law is a function
//! that does nothing: a law is proved where the contract of a function says it.
#![tactic(auto)]

mod entries;
mod law;
mod laws;

pub use entries::BarrierEntry;
pub use law::{
    barriers_open, handovers_keep_the_barrier, nothing_is_left_to_a_withdrawer,
    queue_steps_keep_the_barrier, word_steps_keep_the_barrier,
};
pub use laws::{nobody_goes_through_before_the_last, parties_are_conserved, the_last_is_the_last};
