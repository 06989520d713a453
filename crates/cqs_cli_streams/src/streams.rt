//! Sources and sinks, the loops over them, and those in memory.

pub mod bytes_sink;
pub mod bytes_source;
pub mod failed;
pub mod reading;
pub mod script;
pub mod sink;
pub mod source;
pub mod sure_sink;
pub mod sure_source;
pub mod tally;
pub mod writing;
