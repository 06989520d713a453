//! One tenant: its semaphore on the running queue, with one pass that is alone, and where each of
//! its clients is.
#![tactic(auto)]

mod asking;
mod making;
mod sending;
mod tenant;

pub use tenant::Tenant;
