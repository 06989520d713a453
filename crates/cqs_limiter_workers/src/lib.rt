//! Workers beside each other that ask tenants, and record the outcomes in one list that they share.
#![tactic(auto)]

mod deals;
mod desks;
mod gate;
mod gathers;
mod notes;
mod runs;
mod tokens;
mod works;

pub use desks::Desk;
pub use gate::{Gate, OpenGate};
pub use notes::{Noted, Notes};
pub use runs::{Ran, run};
