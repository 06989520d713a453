//! Requests of tenants' clients as texts, and what a semaphore for each tenant replies to them.
#![tactic(auto)]

mod asks;
mod reading;
mod requests;
mod telling;
mod verbs;

pub use asks::{Answer, Ask, LimitOutcome, Line};
pub use reading::read_requests;
pub use requests::{MOST_LINES, RequestError, Requests};
pub use telling::write_outcome;
pub use verbs::LineForm;
