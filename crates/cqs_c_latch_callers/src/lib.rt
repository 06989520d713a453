//! A caller who names passes and waits by numbers: the callers of a latch and of a barrier. What
//! the contracts of the primitive ask of a caller is tested here, and refused by an answer that
//! changes nothing.
#![tactic(auto)]

mod barrier_caller;
mod latch_caller;

pub use barrier_caller::{BarrierCaller, PartyOwes};
pub use latch_caller::LatchCaller;
