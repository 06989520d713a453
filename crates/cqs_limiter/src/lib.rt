//! The limiter: a semaphore for each tenant, workers that serve them, and one shared list of
//! outcomes.
#![tactic(auto)]

mod limits;

pub use limits::{Limited, limit_run};
