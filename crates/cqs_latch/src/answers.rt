//! What the calls of a latch answer.

ghost use Rattle.std.specs.Prelude.{◌≡◌};
ghost use Rattle.cqs_latch.specs.Owed.{owed_reached};

use cqs_rule::{Under, Wait};

/// What became of a wait.
#[derive(Drop)]
pub enum LatchWait {
    /// The count was used up, and the caller is through.
    Passed,
    /// The caller waits in line.
    Later(Wait),
}

/// What a look at a wait found.
#[derive(Drop)]
pub enum LatchPolled {
    /// The latch was opened, and the caller is through.
    Through,
    /// The caller still waits.
    Pending(Wait),
}

/// What became of a cancel.
#[derive(Drop)]
pub enum LatchLeft {
    /// The wait is over.
    Gone,
    /// The wait is over. A resumption had left its value to it and is still owed: it passed over as
    /// many numbers as one call may, or there is no slot for the segment of the next.
    GoneOwing(Owed),
    /// The latch was opened, and the wait served before.
    TooLate,
}

/// What became of a count down.
#[derive(Drop)]
pub enum Down {
    /// So many are left.
    Left(u32),
    /// It was the last one: the latch is open, and each waiter was resumed.
    Last,
    /// It was the last one, and the latch is open. One resumption passed over as many numbers as
    /// one call may, or there is no slot for the segment of its next: it is still owed, with those
    /// after it.
    LastOwing(Owed),
    /// The count was used up before.
    Already,
}

/// The resumptions that are still owed of those that an opened latch is to make.
#[derive(Drop)]
pub struct Owed {
    /// The one that was handed back.
    pub(crate) under: Under,
    /// How many come after it.
    pub(crate) further: u32,
}

impl Owed {
    /// The last number that was drawn for the one that was handed back. A loop that goes on with
    /// what is owed until it ends can be measured by it.
    pub fn reached(&self) -> u64
        ensures { result ≡ owed_reached self.now }
    {
        self.under.reached()
    }
}
