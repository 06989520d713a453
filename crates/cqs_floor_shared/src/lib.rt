//! The floor of one worker, over resources that all workers share: what its calls are, and what
//! their answers mean.
#![tactic(auto)]

mod shared;

pub use shared::{SharedFloor, SharedGive, Turned};
