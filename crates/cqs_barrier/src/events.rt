//! The events of the remaining number: what an arrival and a cancellation show.

use crate::client::BarrierClient;
use crate::word::{last, over, parties};
use cqs_rule::{Carries, Shown};

/// A party arrives: it is at the door, or it was the last and owes a resumption for each of the
/// others.
pub struct Arrive;

impl<T: Carries> Shown<BarrierClient<T>> for Arrive {
    ghost use Rattle.cqs_barrier.specs.Barrier.{arrives};

    ghost event = { arrives };

    fn held_after(held: u32, _found: u64, _made: bool) -> u32 {
        held.saturating_sub(1)
    }

    fn owes_after(_owes: bool, _found: u64, _made: bool) -> bool {
        false
    }

    fn further_after(further: u32, found: u64, _made: bool) -> u32 {
        if last(found) {
            parties(found).saturating_sub(1)
        } else {
            further
        }
    }
}

/// A canceller loads the remaining number: its party counts as through, or it is still leaving.
pub struct LookToLeave;

impl<T: Carries> Shown<BarrierClient<T>> for LookToLeave {
    ghost use Rattle.cqs_barrier.specs.Barrier.{looks_to_leave};

    ghost event = { looks_to_leave };

    fn held_after(held: u32, _found: u64, _made: bool) -> u32 {
        held
    }

    fn owes_after(owes: bool, found: u64, _made: bool) -> bool {
        over(found) || owes
    }

    fn further_after(further: u32, _found: u64, _made: bool) -> u32 {
        further
    }
}

/// A canceller exchanges the remaining number for one more: its party is to arrive again, or others
/// were first and it is still leaving.
pub struct Withdraw;

impl<T: Carries> Shown<BarrierClient<T>> for Withdraw {
    ghost use Rattle.cqs_barrier.specs.Barrier.{withdraws};

    ghost event = { withdraws };

    fn held_after(held: u32, _found: u64, made: bool) -> u32 {
        if made { held + 1 } else { held }
    }

    fn owes_after(owes: bool, _found: u64, made: bool) -> bool {
        made || owes
    }

    fn further_after(further: u32, _found: u64, _made: bool) -> u32 {
        further
    }
}
