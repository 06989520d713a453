//! The streams that carry the bytes of a program.
//!
//! A `Source` gives the bytes of an input and a `Sink` takes the text that answers it. Each counts
//! its own faults, so that whoever reports one can show that it came. `read_input` and `write_all`
//! are the only loops over them. The statuses are those that a program's process ends with.
#![tactic(auto)]

mod statuses;
mod streams;

pub use statuses::{
    BAD_TEXT, DONE, NO_COMMAND, NO_MEMORY, NO_PLAN, NOT_LEGAL, SINK_FAILED, SOURCE_FAILED, TOO_LONG,
};
pub use streams::bytes_sink::BytesSink;
pub use streams::bytes_source::BytesSource;
pub use streams::failed::Failed;
pub use streams::reading::{LONGEST_INPUT, ReadError, read_input};
pub use streams::sink::Sink;
pub use streams::source::Source;
pub use streams::sure_sink::SureSink;
pub use streams::sure_source::SureSource;
pub use streams::tally::Tally;
pub use streams::writing::write_all;
