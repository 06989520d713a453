//! Plans from a number: the same plan for everybody who knows the number, so that a large input
//! needs no file.
#![tactic(auto)]

mod draws;
mod making;

pub use making::make_plan;
