//! A load of a word of any client that shows no event.

use crate::client::{ClientWords, Shown};

/// The word is loaded, and the pass goes on with what it was doing.
pub struct Silent;

impl<C: ClientWords> Shown<C> for Silent {
    ghost use Rattle.cqs_rule_laws.specs.Silent.{silent};

    ghost event = { silent };

    fn held_after(held: u32, _found: u64, _made: bool) -> u32 {
        held
    }

    fn owes_after(owes: bool, _found: u64, _made: bool) -> bool {
        owes
    }

    fn further_after(further: u32, _found: u64, _made: bool) -> u32 {
        further
    }
}
