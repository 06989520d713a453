//! What the calls of a synchronous semaphore answer.

ghost use Rattle.std.specs.Prelude.{◌≡◌};
ghost use Rattle.cqs_rule.specs.Owed.{under_reached};
ghost use Rattle.cqs_sync_semaphore.specs.Owed.{number_under, token_of};

use cqs_rule::Wait;
use cqs_semaphore::Permit;

/// What became of an acquire.
#[derive(Drop)]
pub enum SyncAcquired {
    /// The caller has a permit.
    Now(Permit),
    /// The caller waits in line.
    Later(Wait),
    /// The permit for this number had been held out and taken back before the caller came to its
    /// cell. The caller has none and doesn't wait; it may acquire again.
    Broke(u64),
}

/// What became of a permit that was given back, or of one that was on its way.
#[derive(Drop)]
pub enum SyncReleased {
    /// It is free.
    Freed,
    /// The caller of this number has it.
    Sent(u64),
    /// The caller of this number had left, and was told that the permit would be free: it is.
    Void(u64),
    /// It was held out to the caller of this number, who didn't come while the release looked. Here
    /// it is again.
    Broke(u64, Permit),
    /// The caller of this number is about to leave. `finish` goes on, once it has.
    Handling(u64, Under),
    /// As many numbers were passed over as one call may, or there is no slot for the segment of the
    /// next; `finish` goes on.
    Under(Under),
}

/// What became of a cancel.
#[derive(Drop)]
pub enum SyncLeft {
    /// The wait is over, and no permit came of it.
    Cancelled,
    /// The permit had come before.
    TooLate(Permit),
}

/// A permit on its way, whose resumption was handed back. It is neither copied nor cloned, and is
/// spent by `finish`. It keeps the number of the permit that was given back, which a broken cell
/// gives back.
#[derive(Drop)]
pub struct Under {
    pub(crate) token: cqs_rule::Under,
    pub(crate) number: Option<u64>,
}

impl Under {
    /// The number of the wait by which the permit had come that was given back: none where it came
    /// without one.
    pub fn number(&self) -> Option<u64>
        ensures { result ≡ number_under self.now }
    {
        self.number
    }

    /// The last number that was drawn for the resumption, or 0 where none was.
    pub fn reached(&self) -> u64
        ensures { result ≡ under_reached (token_of self.now) }
    {
        self.token.reached()
    }
}
