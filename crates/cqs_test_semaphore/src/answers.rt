//! What a caller is answered.

use cqs_rule::AcquireError;
use std::fmt;

/// What a call of a caller answers. Permits and tokens stay with the caller.
#[derive(Clone, Copy, Drop)]
pub enum Answer {
    /// The caller may not ask this now.
    Refused,
    Now(Option<u64>),
    Later(u64),
    Failed(AcquireError),
    Got,
    Busy,
    Contended { saw: i64, found: i64 },
    Granted,
    Pending,
    Cancelled,
    Owing(u64),
    TooLate,
    Freed,
    Sent(u64),
    Left(u64),
    Void(u64),
    Under(u64),
    State(i64),
    Sole(bool),
}

impl fmt::Display for Answer {
    fn fmt<W: fmt::Write>(&self, f: &mut fmt::Formatter<W>) -> fmt::Result {
        match self {
            Answer::Refused => write!(f, "Refused"),
            Answer::Now(None) => write!(f, "Now"),
            Answer::Now(Some(number)) => write!(f, "Now by {number}"),
            Answer::Later(number) => write!(f, "Later {number}"),
            Answer::Failed(error) => write!(f, "{error:?}"),
            Answer::Got => write!(f, "Got"),
            Answer::Busy => write!(f, "Busy"),
            Answer::Contended { saw, found } => write!(f, "Contended {saw} {found}"),
            Answer::Granted => write!(f, "Granted"),
            Answer::Pending => write!(f, "Pending"),
            Answer::Cancelled => write!(f, "Cancelled"),
            Answer::Owing(reached) => write!(f, "Cancelled, owing from {reached}"),
            Answer::TooLate => write!(f, "TooLate"),
            Answer::Freed => write!(f, "Freed"),
            Answer::Sent(number) => write!(f, "Sent {number}"),
            Answer::Left(number) => write!(f, "Left {number}"),
            Answer::Void(number) => write!(f, "Void {number}"),
            Answer::Under(reached) => write!(f, "Under {reached}"),
            Answer::State(state) => write!(f, "{state}"),
            Answer::Sole(sole) => write!(f, "{sole}"),
        }
    }
}
