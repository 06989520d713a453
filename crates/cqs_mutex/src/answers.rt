//! What the calls of a mutex answer.

use crate::guard::{Guard, LockWait};
use cqs_rule::Under;

/// What became of a lock.
#[derive(Drop)]
pub enum Locked<T> {
    /// The caller has the mutex.
    Now(Guard<T>),
    /// The caller waits in line.
    Later(LockWait),
}

/// What became of a try.
#[derive(Drop)]
pub enum TriedLock<T> {
    /// The caller has the mutex.
    Got(Guard<T>),
    /// It was held.
    Busy,
    /// It was free, and another caller was first: the state was loaded as the one, and then found
    /// as the other.
    Contended { saw: i64, found: i64 },
}

/// What a look at a wait found.
#[derive(Drop)]
pub enum PolledLock<T> {
    /// The mutex came.
    Granted(Guard<T>),
    /// The caller still waits.
    Pending(LockWait),
}

/// What became of a cancel.
#[derive(Drop)]
pub enum LockLeft<T> {
    /// The wait is over, and the mutex did not come of it. Where it was on its way to the wait and
    /// is still owed, `finish` goes on.
    Cancelled(Option<Under>),
    /// The mutex had come before.
    TooLate(Guard<T>),
}
