//! What a stream answers that could not do what it was asked.

/// A stream could not read or write. What went wrong is the stream's own affair; it has counted it.
#[derive(Clone, Copy)]
pub struct Failed;
