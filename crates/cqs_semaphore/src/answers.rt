//! What the calls of a semaphore answer.

ghost use Rattle.std.specs.Prelude.{◌≡◌};
ghost use Rattle.cqs_semaphore.specs.Owed.{owed_after};
ghost use Rattle.cqs_semaphore.specs.Permits.{number_of};

use cqs_rule::{Under, Wait};

/// A permit that a caller has. It is neither copied nor cloned; one that is dropped stays held for
/// good, unless `permit_of` makes another token of it.
#[derive(Drop)]
pub struct Permit {
    pub(crate) number: Option<u64>,
}

impl Permit {
    /// The number of the wait by which the permit came: none where it was free, and no number was
    /// drawn for it.
    pub fn number(&self) -> Option<u64>
        ensures { result ≡ number_of self.now }
    {
        self.number
    }
}

/// What became of an acquire.
#[derive(Drop)]
pub enum Acquired {
    /// The caller has a permit.
    Now(Permit),
    /// The caller waits in line.
    Later(Wait),
}

/// What became of a try.
#[derive(Drop)]
pub enum Tried {
    /// The caller has a permit.
    Got(Permit),
    /// None was free.
    Busy,
    /// One was free, and another caller was first: the state was loaded as the one, and then found
    /// as the other.
    Contended { saw: i64, found: i64 },
}

/// What became of a permit that was given back, or of one that was on its way.
#[derive(Drop)]
pub enum Released {
    /// It is free.
    Freed,
    /// It went to the waiter of this number.
    Sent(u64),
    /// It was left in the cell of this number, for the caller who is about to wait there, or who is
    /// about to leave.
    Left(u64),
    /// The waiter of this number had left, and was told that the permit would be free: it is.
    Void(u64),
    /// As many numbers were passed over as one call may, or there is no slot for the segment of the
    /// next; `finish` goes on.
    Under(Under),
}

impl Released {
    // The resumption that is still owed.
    pub(crate) fn into_under(self) -> Option<Under>
        ensures { result ≡ owed_after self }
    {
        match self {
            Released::Under(under) => Some(under),
            _ => None,
        }
    }
}

/// What a look at a wait found.
#[derive(Drop)]
pub enum Polled {
    /// The permit came.
    Granted(Permit),
    /// The caller still waits.
    Pending(Wait),
}

/// What became of a cancel.
#[derive(Drop)]
pub enum CancelAnswer {
    /// The wait is over, and no permit came of it. Where a permit was on its way to it and is still
    /// owed, `finish` goes on.
    Cancelled(Option<Under>),
    /// The permit had come before.
    TooLate(Permit),
}
