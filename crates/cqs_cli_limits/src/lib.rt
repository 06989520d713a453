//! The command `limit` of the program, over any source and sink: workers reply to the requests of
//! tenants.
//!
//! ```text
//!  source --- judge ---> a verdict, with its text whole --- tell ---> sink, and a status
//! ```
//!
//! `judge` reads the source and has workers reply, and knows no sink; `tell` knows the sink alone.
//! What each status means stands on `limit`.
#![tactic(auto)]

mod judging;
mod limiting;
mod telling;
mod verdict;

pub use cqs_limiter::Limited;
pub use judging::WORKERS;
pub use limiting::limit;
