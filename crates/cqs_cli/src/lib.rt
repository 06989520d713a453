//! The commands `run`, `gen`, `replay`, `history` and `check` of the program `cqs`, over any source
//! and sink.
//!
//! ```text
//!  words, source --- judge ---> a verdict, with its text whole --- tell ---> sink, and a status
//! ```
//!
//! `judge` reads the words and the source and knows no sink; `tell` knows the sink alone. What each
//! status means stands on `top_alone`. `kept` is what a call leaves its caller of a run. A plan is
//! run on the floor of `cqs_floor_alone`; what a schedule or a history comes to is told by
//! `cqs_cli_histories`, and nothing is kept of it. The real streams are in `standard`, the trusted
//! edge. `Verdict`, `tell` and `read_number` are public for `cqs_cli_top`, which has the command
//! that needs workers.
#![tactic(auto)]

mod judging;
mod kept;
mod plans;
mod standard;
mod studying;
mod summaries;
mod telling;
mod top_call;
mod verdict;
mod words;

pub use cqs_cli_streams::{
    BAD_TEXT, DONE, NO_COMMAND, NO_MEMORY, NO_PLAN, NOT_LEGAL, SINK_FAILED, SOURCE_FAILED, TOO_LONG,
};
pub use cqs_floor_alone::{CoreFloor, QueueFloor};
pub use kept::Kept;
pub use standard::{StdinSource, StdoutSink};
pub use telling::tell;
pub use top_call::top_alone;
pub use verdict::Verdict;
pub use words::read_number;
