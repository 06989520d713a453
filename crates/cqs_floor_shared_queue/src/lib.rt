//! The floors of workers over the resources that they share: the floor of one worker, with a pass
//! of its own to each resource, and how as many are made as a plan's workers need.
#![tactic(auto)]

mod floors;

pub use floors::{ShareFloor, shared_floors, tell_passes};
