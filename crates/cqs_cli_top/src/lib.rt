//! The program `cqs` as one call, `top`: all its commands, over any source and sink.
//!
//! `top` does the words of `work` and of `limit` itself and calls `top_alone` of `cqs_cli` for all
//! others; what `limit` does is `limit` of `cqs_cli_limits`, by way of the gate of `top`. What each
//! status means stands on `top`. `judging` reads a plan, has workers run it on floors that
//! were all split from one, and makes the text of what they left; it knows no sink. `tell` of
//! `cqs_cli` writes that text, whole. `kept` is what a call leaves its caller of what was run.
#![tactic(auto)]

mod floors;
mod judging;
mod kept;
mod limiting;
mod lines;
mod texts;
mod top_call;
mod words;
mod working;

pub use floors::SharedQueueFloor;
pub use kept::Kept;
pub use texts::work_text;
pub use top_call::top;
pub use words::workers_of;
