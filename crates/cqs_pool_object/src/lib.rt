//! The blocking pool as a plain object: what it is to its users, the entries of its history, and
//! what it means that a queue shows it.
//!
//! The object has the elements on their way, in order of their puts, the line of waiters, the waits
//! that were served, each with its element, and the elements that callers have. Each law is a
//! function that does nothing: a law is proved where the contract of a function says it.
#![tactic(auto)]

mod entries;
mod laws;

pub use entries::PoolEntry;
pub use laws::{
    elements_are_conserved, hand_overs_keep_the_pool, numbers_are_left, pools_open,
    pools_open_in_order, steps_keep_the_order, steps_keep_the_pool, takers_have_the_first,
};
