//! The standard streams: the trusted edge.
//!
//! What the streams give and take is outside all contracts. But each of their calls is a call of
//! one function in `counting`, which is proved of every reader and writer: that it moves just what
//! the stream moves, and that a failure is told and counted, and nothing else is.

mod counting;
mod stdin_source;
mod stdout_sink;

pub use stdin_source::StdinSource;
pub use stdout_sink::StdoutSink;
