//! What `main` of the program `cqs` does: the words of the command line, one call of `top`, the
//! line on standard error, the status that the process ends with.
//!
//! `run` does all of it, over any streams; `main` makes the real ones and hands them to it. It is a
//! library, so that the program's crate, which gives the binary its name, is `main` alone.
#![tactic(auto)]

mod explaining;
mod input_source;
mod messages;
mod running;
mod stderr_sink;
mod words;

pub use cqs_cli::{StdinSource, StdoutSink};
pub use cqs_cli_top::Kept;
pub use explaining::explain;
pub use input_source::{InputSource, Remembers};
pub use messages::{finish, message_of};
pub use running::run;
pub use stderr_sink::StderrSink;
pub use words::words_after_name;
