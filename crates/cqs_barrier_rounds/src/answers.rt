//! What the calls of the rounds answer.

ghost use Rattle.std.specs.Prelude.{◌≡◌};
ghost use Rattle.cqs_barrier_rounds.specs.declared.answers.SplitError.TheVariants.{Memory};

use crate::members::{Member, MemberLeaving, MemberOwing, MemberWait};
use std::alloc::AllocError;

/// What became of an arrival.
#[derive(Drop)]
pub enum RoundArrived {
    /// The member was the last of its round, or came when the last had arrived: it goes through.
    Last(Member),
    /// The member was the last, and has still to resume some of the others; `finish` goes on.
    LastOwing(MemberOwing),
    /// Others are still to arrive in this round: the member waits.
    Later(MemberWait),
}

/// Why a member didn't arrive.
#[derive(Clone, Copy, Debug, PartialEq, Eq)]
pub enum RoundError {
    /// As many numbers were drawn in its round as the limit allows.
    Worn,
    /// No two slots were free in its round.
    Crowded,
    /// The member is through all rounds.
    Over,
}

/// What a look at a wait found.
#[derive(Drop)]
pub enum RoundPolled {
    /// All have arrived: the member goes through.
    Through(Member),
    /// The member still waits.
    Pending(MemberWait),
}

/// What became of a cancel.
#[derive(Drop)]
pub enum RoundLeft {
    /// The wait is over, and the member is to arrive again in the same round.
    Withdrawn(Member),
    /// All had arrived: the member counts as through.
    TooLate(Member),
    /// Another party arrived or withdrew in between: the two numbers found, which differ.
    /// `leave_again` goes on.
    Contended {
        saw: u32,
        found: u32,
        leaving: MemberLeaving,
    },
}

/// Why no pass was split off. What the pass holds is as before.
#[derive(Clone, Copy, Debug, PartialEq, Eq)]
pub enum SplitError {
    /// There was no memory for the new pass. No pass was made.
    Memory,
    /// In some round as many passes were made as its barrier allows. Those that were made for
    /// earlier rounds were met back, and they count as made.
    Crowd,
}

impl From<AllocError> for SplitError {
    ghost from_gives = { λ _ e. e ≡ Memory };

    fn from(_error: AllocError) -> Self {
        SplitError::Memory
    }
}
