//! A member of the rounds, and what it has in the middle of one.

ghost use Rattle.std.specs.Prelude.{◌≡◌};
ghost use Rattle.cqs_rule.specs.Waits.{place_of};
ghost use Rattle.cqs_barrier.specs.Waits.{wait_in};
ghost use Rattle.cqs_barrier_rounds.specs.Members.{round_of, wait_of};

use cqs_barrier::{Leaving, Owing, PartyWait};

/// One that goes through the rounds, one after the other. It is neither copied nor cloned.
#[derive(Drop)]
pub struct Member {
    pub(crate) round: u32,
}

impl Member {
    /// The round that it comes to next, or the number of rounds once it is through all of them.
    pub fn round(&self) -> u32
        ensures { result ≡ round_of self.now }
    {
        self.round
    }
}

/// The wait of a member that has arrived.
#[derive(Drop)]
pub struct MemberWait {
    pub(crate) round: u32,
    pub(crate) wait: PartyWait,
}

impl MemberWait {
    /// The number of the wait, in its round.
    pub fn number(&self) -> u64
        ensures { result ≡ (place_of (wait_in (wait_of self.now))).index }
    {
        self.wait.number()
    }
}

/// What a member that was the last of its round still owes to the others.
#[derive(Drop)]
pub struct MemberOwing {
    pub(crate) round: u32,
    pub(crate) owing: Owing,
}

/// A wait that was begun to be left, and has still to be left.
#[derive(Drop)]
pub struct MemberLeaving {
    pub(crate) round: u32,
    pub(crate) leaving: Leaving,
}
