//! The loads of the table, as type parameters of the call that makes them, and what a pass learns
//! by them.

ghost use Rattle.std.specs.Prelude.{◌≡◌};
ghost use Rattle.cqs_rule_laws.specs.Loads.{
  counts,
  watches,
  polls,
  cancels,
  meets,
  misses,
  sees,
  finds,
  learned_of,
  served_in,
  refused_in,
};
ghost use Rattle.cqs_words.specs.Cell.{unpacked_cell};

use cqs_words::{CellState, CellWord};

/// What a pass learns by a load.
pub enum Learned {
    /// Nothing that it has or owes changes.
    Nothing,
    /// Its wait was served: what it waited for is its own, and the wait is closed.
    Granted,
    /// The resumption that it owed ended at this cell.
    Ended,
    /// It is the last at the cell of the word found: the value that it left there was taken, or it
    /// came there to suspend and the cell is broken. It owes nothing then.
    Settled,
}

/// What a call loads, and the event that its load names.
pub trait Load {
    ghost use Rattle.std.specs.Prelude.{◌≡◌};
    ghost use Rattle.cqs_rule_laws.specs.Loads.{LoadStep, learns};

    ghost load: { LoadStep };

    /// What a load that found this word tells its pass, which works at this number.
    fn learns(found: u64, number: u64) -> Learned
        ensures { result ≡ learns load number found };
}

// What the owner of a wait learns from the word of its cell.
fn owner_learns(found: u64) -> Learned
    ensures { result ≡ learned_of served_in (unpacked_cell found) }
{
    match CellWord::unpack(found) {
        Some(cell) if cell.state == CellState::Resumed => Learned::Granted,
        _ => Learned::Nothing,
    }
}

// What a resume in smart mode learns from the word of its cell.
fn resume_learns(found: u64) -> Learned
    ensures { result ≡ learned_of refused_in (unpacked_cell found) }
{
    match CellWord::unpack(found) {
        Some(cell) if cell.state == CellState::Refused => Learned::Ended,
        _ => Learned::Nothing,
    }
}

/// The suspend counter.
pub struct Counts;

impl Load for Counts {
    ghost load = { counts };

    fn learns(_found: u64, _number: u64) -> Learned {
        Learned::Nothing
    }
}

/// A cell, with no event.
pub struct Watches;

impl Load for Watches {
    ghost load = { watches };

    fn learns(_found: u64, _number: u64) -> Learned {
        Learned::Nothing
    }
}

/// The cell of a wait, by its owner: the wait still stands, or it was served.
pub struct Polls;

impl Load for Polls {
    ghost load = { polls };

    fn learns(found: u64, _number: u64) -> Learned {
        owner_learns(found)
    }
}

/// The cell of a wait, by its owner who is about to cancel it: it was served, so it is too late;
/// where the wait still stands, this is no event.
pub struct Cancels;

impl Load for Cancels {
    ghost load = { cancels };

    fn learns(found: u64, _number: u64) -> Learned {
        owner_learns(found)
    }
}

/// The cell of a ticket, by its resume, in smart mode: it passes over a cancelled cell, and ends at
/// a refused one.
pub struct Meets;

impl Load for Meets {
    ghost load = { meets };

    fn learns(found: u64, number: u64) -> Learned {
        if CellWord::index_in(found) == number {
            resume_learns(found)
        } else {
            Learned::Nothing
        }
    }
}

/// The cell of a ticket, by its resume, in simple mode: it ends at a cancelled cell.
pub struct Misses;

impl Load for Misses {
    ghost load = { misses };

    fn learns(found: u64, _number: u64) -> Learned {
        match CellWord::unpack(found) {
            Some(cell) if cell.state == CellState::Cancelled => Learned::Ended,
            _ => Learned::Nothing,
        }
    }
}

/// The cell of a value, by the resume that left it and watches it: the value is there, or was
/// taken.
pub struct Sees;

impl Load for Sees {
    ghost load = { sees };

    fn learns(found: u64, _number: u64) -> Learned {
        match CellWord::unpack(found) {
            Some(cell) if cell.state == CellState::Taken => Learned::Settled,
            _ => Learned::Nothing,
        }
    }
}

/// The cell of a number, by its suspend: it may be broken.
pub struct Finds;

impl Load for Finds {
    ghost load = { finds };

    fn learns(found: u64, _number: u64) -> Learned {
        match CellWord::unpack(found) {
            Some(cell) if cell.state == CellState::Broken => Learned::Settled,
            _ => Learned::Nothing,
        }
    }
}
