//! What a floor with one caller and that of a worker have in common: the elements of a pool that
//! jobs hold, each with its job, and how one is taken out for a job; how often the jobs of a plan
//! may begin to wait at each resource; and how an arrival at a barrier is taken back.
#![tactic(auto)]

mod held;
mod room;
mod rounds;

pub use held::{HeldElement, take_out, take_over};
pub use room::count_room;
pub use rounds::take_back;
