//! The statuses that a process ends with.

/// The input was what the command reads, and its whole text was written.
pub const DONE: u8 = 0;

/// The words are no command, and the usage text was written.
pub const NO_COMMAND: u8 = 2;

/// The input was no plan, and the line that says why was written.
pub const NO_PLAN: u8 = 3;

/// The source failed.
pub const SOURCE_FAILED: u8 = 4;

/// The sink failed.
pub const SINK_FAILED: u8 = 5;

/// There was no memory.
pub const NO_MEMORY: u8 = 6;

/// The input is too long.
pub const TOO_LONG: u8 = 7;

/// The input was no schedule, no history, or no requests, and the line that says where was written.
pub const BAD_TEXT: u8 = 8;

/// The input was a history that isn't legal, and the line that says where was written.
pub const NOT_LEGAL: u8 = 9;
