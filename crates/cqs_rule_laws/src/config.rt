//! What a queue is made with, and why it may not be made.

ghost use Rattle.std.specs.Prelude.{◌≡◌};
ghost use Rattle.cqs_rule_laws.specs.Configured.{is_config, is_small_config};
ghost use Rattle.cqs_rule_laws.specs.declared.config.MakeError.TheVariants.{Memory};

use std::alloc::AllocError;

/// How a queue is made. In range are `passes` from 1 to 32, `limit` from 1 to 68,719,476,736, and
/// `slots` from `2 * passes + 2` to 65,535.
#[derive(Clone, Copy, Debug, PartialEq, Eq)]
pub struct Config {
    /// How many passes may be made in all, the first one included.
    pub passes: u32,
    /// From this suspend counter on no pass draws a further number.
    pub limit: u64,
    /// How many segments of cells the table has room for. A primitive takes more where these are
    /// fewer than all that can be wanted.
    pub slots: u32,
}

impl Config {
    /// Whether a queue may be made with it.
    pub fn is_in_range(&self) -> bool
        ensures { result ≡ is_config self.now }
    {
        let passes = 1 <= self.passes && self.passes <= 32;
        let limit = 1 <= self.limit && self.limit <= 68_719_476_736;
        let slots = 2 * u64::from(self.passes) + 2 <= u64::from(self.slots) && self.slots <= 65_535;
        passes && limit && slots
    }

    /// Whether a queue may be made with it that has a slot for each segment that can be wanted: the
    /// limit is at most 1,048,576 then.
    pub fn is_small(&self) -> bool
        ensures { result ≡ is_small_config self.now }
    {
        self.is_in_range() && self.limit <= 1_048_576
    }
}

/// What a resume does with a cell whose waiter has left.
#[derive(Clone, Copy, Debug, PartialEq, Eq)]
pub enum CancelMode {
    /// It answers that it missed.
    Simple,
    /// It passes the cell over, unless the primitive refused the cell.
    Smart,
}

/// Why no queue was made.
#[derive(Clone, Copy, Debug, PartialEq, Eq)]
pub enum MakeError {
    /// There was no memory for the table.
    Memory,
    /// The configuration is out of range.
    BadConfig,
}

/// As many passes were made as the queue allows.
#[derive(Clone, Copy, Debug, PartialEq, Eq)]
pub struct Crowd;

/// Why two passes did not meet.
#[derive(Clone, Copy, Debug, PartialEq, Eq)]
pub enum MeetError {
    /// The given pass has a wait, or owes something.
    Busy,
}

/// Why nothing was acquired. The primitive is as it was before.
#[derive(Clone, Copy, Debug, PartialEq, Eq)]
pub enum AcquireError {
    /// As many numbers were drawn as the queue's limit allows.
    Worn,
    /// No segment was free for a further cell.
    Crowded,
}

/// No segment was free for a further cell.
#[derive(Clone, Copy, Debug, PartialEq, Eq)]
pub struct Crowded;

/// Where the cell of a number stands in the table.
#[derive(Clone, Copy, Debug, PartialEq, Eq)]
pub struct Place {
    /// The number of its word.
    pub word: u32,
    /// The cell's number in the queue.
    pub index: u64,
}

impl From<AllocError> for MakeError {
    ghost from_gives = { λ _ e. e ≡ Memory };

    fn from(_error: AllocError) -> Self {
        MakeError::Memory
    }
}
