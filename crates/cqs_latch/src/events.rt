//! The events of a latch's words: what a count down, a wait, an opening and a cancel show.

ghost use Rattle.std.specs.Prelude.{◌≡◌, ◌%◌, ◌^◌};
ghost use Rattle.cqs_words.specs.Waiters.{waiters_in};

use crate::client::LatchClient;
use cqs_rule::{Carries, Shown};
use cqs_words::WaitersWord;

/// A count down loads the count: it is used up, or the pass is about to take one from it.
pub struct LoadToCount;

impl<T: Carries> Shown<LatchClient<T>> for LoadToCount {
    ghost use Rattle.cqs_latch.specs.LatchEvents.{loads_to_count};

    ghost event = { loads_to_count };

    fn held_after(held: u32, _found: u64, _made: bool) -> u32 {
        held
    }

    fn owes_after(_owes: bool, _found: u64, _made: bool) -> bool {
        false
    }

    fn further_after(further: u32, _found: u64, _made: bool) -> u32 {
        further
    }
}

/// One is taken from the count.
pub struct CountDown;

impl<T: Carries> Shown<LatchClient<T>> for CountDown {
    ghost use Rattle.cqs_latch.specs.LatchEvents.{counts_down};

    ghost event = { counts_down };

    fn held_after(held: u32, _found: u64, _made: bool) -> u32 {
        held
    }

    fn owes_after(_owes: bool, _found: u64, _made: bool) -> bool {
        false
    }

    fn further_after(further: u32, _found: u64, _made: bool) -> u32 {
        further
    }
}

/// A wait loads the count: it is used up, and the pass is through, or it is about to come.
pub struct LoadToWait;

impl<T: Carries> Shown<LatchClient<T>> for LoadToWait {
    ghost use Rattle.cqs_latch.specs.LatchEvents.{loads_to_wait};

    ghost event = { loads_to_wait };

    fn held_after(held: u32, _found: u64, _made: bool) -> u32 {
        held
    }

    fn owes_after(_owes: bool, _found: u64, _made: bool) -> bool {
        false
    }

    fn further_after(further: u32, _found: u64, _made: bool) -> u32 {
        further
    }
}

/// One is added to the waiters: the latch is open by now, or the pass is at the door.
pub struct Come;

impl<T: Carries> Shown<LatchClient<T>> for Come {
    ghost use Rattle.cqs_latch.specs.LatchEvents.{comes};

    ghost event = { comes };

    fn held_after(held: u32, _found: u64, _made: bool) -> u32 {
        held
    }

    fn owes_after(_owes: bool, _found: u64, _made: bool) -> bool {
        false
    }

    fn further_after(further: u32, _found: u64, _made: bool) -> u32 {
        further
    }
}

/// A load by which a wait that may not draw a number turns back.
pub struct TurnBack;

impl<T: Carries> Shown<LatchClient<T>> for TurnBack {
    ghost use Rattle.cqs_latch.specs.LatchEvents.{turns_back};

    ghost event = { turns_back };

    fn held_after(held: u32, _found: u64, _made: bool) -> u32 {
        held
    }

    fn owes_after(_owes: bool, _found: u64, _made: bool) -> bool {
        false
    }

    fn further_after(further: u32, _found: u64, _made: bool) -> u32 {
        further
    }
}

/// The done bit is set: the pass owes a resumption for each waiter that was counted.
pub struct Open;

impl<T: Carries> Shown<LatchClient<T>> for Open {
    ghost use Rattle.cqs_latch.specs.LatchEvents.{opens};

    ghost event = { opens };

    fn held_after(held: u32, _found: u64, _made: bool) -> u32 {
        held
    }

    fn owes_after(_owes: bool, _found: u64, _made: bool) -> bool {
        false
    }

    fn further_after(_further: u32, found: u64, _made: bool) -> u32 {
        resumptions_for(found)
    }
}

/// How many resumptions the pass owes that found this word as it set the done bit.
pub fn resumptions_for(found: u64) -> u32
    ensures { result ≡ waiters_in found % 2 ^ 32 }
{
    (WaitersWord::waiters_in(found) % (1 << 32)) as u32
}

/// One is taken from the waiters: who cancels has left the line, or is refused.
pub struct Decide;

impl<T: Carries> Shown<LatchClient<T>> for Decide {
    ghost use Rattle.cqs_latch.specs.LatchEvents.{leaves};

    ghost event = { leaves };

    fn held_after(held: u32, _found: u64, _made: bool) -> u32 {
        held
    }

    fn owes_after(_owes: bool, _found: u64, _made: bool) -> bool {
        true
    }

    fn further_after(further: u32, _found: u64, _made: bool) -> u32 {
        further
    }
}
