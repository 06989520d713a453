//! The events of the state: what an acquire, a try, a release and a cancel show.

use crate::semaphore::SemClient;
use cqs_rule::{Carries, Shown};
use cqs_words::StateWord;

/// An acquire takes one from the state: it has a permit, or it is at the door.
pub struct Take;

impl<T: Carries> Shown<SemClient<T>> for Take {
    ghost use Rattle.cqs_semaphore_client.specs.Semaphore.{takes_one};

    ghost event = { takes_one };

    fn held_after(held: u32, found: u64, _made: bool) -> u32 {
        if StateWord::is_above_zero(found) {
            held + 1
        } else {
            held
        }
    }

    fn owes_after(_owes: bool, _found: u64, _made: bool) -> bool {
        false
    }

    fn further_after(further: u32, _found: u64, _made: bool) -> u32 {
        further
    }
}

/// A try loads the state: no permit is free, or the pass is about to exchange the state that it
/// loaded.
pub struct TryLoad;

impl<T: Carries> Shown<SemClient<T>> for TryLoad {
    ghost use Rattle.cqs_semaphore_client.specs.Semaphore.{loads_to_try};

    ghost event = { loads_to_try };

    fn held_after(held: u32, _found: u64, _made: bool) -> u32 {
        held
    }

    fn owes_after(_owes: bool, _found: u64, _made: bool) -> bool {
        false
    }

    fn further_after(further: u32, _found: u64, _made: bool) -> u32 {
        further
    }
}

/// A try exchanges the state that it loaded for one less: it has a permit, or another pass was
/// first and it has nothing.
pub struct TrySwap;

impl<T: Carries> Shown<SemClient<T>> for TrySwap {
    ghost use Rattle.cqs_semaphore_client.specs.Semaphore.{tries};

    ghost event = { tries };

    fn held_after(held: u32, _found: u64, made: bool) -> u32 {
        if made { held + 1 } else { held }
    }

    fn owes_after(_owes: bool, _found: u64, _made: bool) -> bool {
        false
    }

    fn further_after(further: u32, _found: u64, _made: bool) -> u32 {
        further
    }
}

/// A release adds one to the state: the permit is free, or the pass owes a resumption, whose
/// payload is 0.
pub struct Give;

impl<T: Carries> Shown<SemClient<T>> for Give {
    ghost use Rattle.cqs_semaphore_client.specs.Semaphore.{gives_one};

    ghost event = { gives_one };

    fn held_after(held: u32, _found: u64, _made: bool) -> u32 {
        held.saturating_sub(1)
    }

    fn owes_after(_owes: bool, found: u64, _made: bool) -> bool {
        StateWord::is_below_zero(found)
    }

    fn further_after(further: u32, _found: u64, _made: bool) -> u32 {
        further
    }
}

/// A canceller adds one to the state: its waiter has left the line, or it is refused and the permit
/// that was on its way to it is free.
pub struct Decide;

impl<T: Carries> Shown<SemClient<T>> for Decide {
    ghost use Rattle.cqs_semaphore_client.specs.Semaphore.{decides};

    ghost event = { decides };

    fn held_after(held: u32, _found: u64, _made: bool) -> u32 {
        held
    }

    fn owes_after(_owes: bool, _found: u64, _made: bool) -> bool {
        true
    }

    fn further_after(further: u32, _found: u64, _made: bool) -> u32 {
        further
    }
}
