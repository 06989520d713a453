//! How often each answer came that only a synchronous semaphore gives.

use std::fmt;

/// What a worker counts.
#[derive(Clone, Copy, Debug, Default, Drop, PartialEq, Eq)]
pub struct Counts {
    /// Permits that were sent to a caller.
    pub sent: u64,
    /// Permits that were held out and taken back.
    pub broke: u64,
    /// Numbers that an acquire found broken.
    pub found_broken: u64,
    /// Callers who were about to leave when their permit came.
    pub handling: u64,
}

/// One more.
pub fn count(counted: &mut u64) {
    *counted = counted.saturating_add(1);
}

impl Counts {
    /// The sums of both.
    pub fn with(self, other: Counts) -> Counts {
        Counts {
            sent: self.sent.saturating_add(other.sent),
            broke: self.broke.saturating_add(other.broke),
            found_broken: self.found_broken.saturating_add(other.found_broken),
            handling: self.handling.saturating_add(other.handling),
        }
    }
}

impl fmt::Display for Counts {
    fn fmt<W: fmt::Write>(&self, f: &mut fmt::Formatter<W>) -> fmt::Result {
        let Counts {
            sent,
            broke,
            found_broken,
            handling,
        } = self;
        write!(
            f,
            "sent {sent}, taken back {broke}, found broken {found_broken}, leaving {handling}"
        )
    }
}
