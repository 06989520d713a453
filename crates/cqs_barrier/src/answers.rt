//! What the calls of a barrier answer.

ghost use Rattle.std.specs.Prelude.{◌≡◌};
ghost use Rattle.cqs_barrier.specs.Resuming.{owing_reached};
ghost use Rattle.cqs_barrier.specs.Waits.{wait_in};
ghost use Rattle.cqs_rule.specs.Waits.{place_of};

use cqs_rule::{Place, Under, Wait};

/// The wait of a party that has arrived. It is neither copied nor cloned.
#[derive(Drop)]
pub struct PartyWait {
    pub(crate) wait: Wait,
}

impl PartyWait {
    /// The number of the wait.
    pub fn number(&self) -> u64
        ensures { result ≡ (place_of (wait_in self.now)).index }
    {
        self.wait.number()
    }
}

/// What a look at a wait found.
#[derive(Drop)]
pub enum PartyPolled {
    /// All have arrived: the party goes through.
    Through,
    /// The party still waits.
    Pending(PartyWait),
}

/// A wait that its pass began to leave, and has still to leave. It is neither copied nor cloned.
#[derive(Drop)]
pub struct Leaving {
    pub(crate) at: Place,
}

/// What became of a cancel.
#[derive(Drop)]
pub enum PartyLeft {
    /// The wait is over, and the party is to arrive again.
    Withdrawn,
    /// All had arrived: the party counts as through.
    TooLate,
    /// Another party arrived or withdrew between the load of the remaining number and the exchange:
    /// the two numbers found, which differ. `leave_again` goes on.
    Contended {
        saw: u32,
        found: u32,
        leaving: Leaving,
    },
}

/// Resumptions that the last party still owes: one that was handed back, and so many behind it. It
/// is neither copied nor cloned.
#[derive(Drop)]
pub struct Owing {
    pub(crate) under: Under,
    pub(crate) left: u32,
}

impl Owing {
    /// The last number that was drawn for the one that was handed back. On an ample table a loop
    /// that goes on with what is owed until it ends can be measured by it.
    pub fn reached(&self) -> u64
        ensures { result ≡ owing_reached self.now }
    {
        self.under.reached()
    }
}

/// What became of an arrival.
#[derive(Drop)]
pub enum Arrived {
    /// The party was the last, or came when the last had arrived: it goes through.
    Last,
    /// The party was the last, and goes through. A resumption that it owes to the others was handed
    /// back: after 64 numbers that were passed over, or as there was no slot for the segment of its
    /// number; `finish` goes on.
    LastOwing(Owing),
    /// Others are still to arrive: the party waits.
    Later(PartyWait),
}
