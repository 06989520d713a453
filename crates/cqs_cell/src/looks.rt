//! A look at a cell.

ghost use Rattle.std.specs.Prelude.{◌≡◌, ◌<◌};
ghost use Rattle.cqs_cell.specs.Looks.{HasLookedAt, HasLookedAtWord, HasPolled, WatchedAt};
ghost use Rattle.cqs_rule_laws.specs.Loads.{LoadSuits, MayLook, polls};
ghost use Rattle.cqs_rule.specs.Passes.{pass_view, client_of, IsOf};
ghost use Rattle.cqs_rule_laws.specs.Placed.{KnowsPlace};

use crate::found::cell_found;
use cqs_rule::{ClientWords, Load, Pass, Place, Polls, Queue, Watches};
use cqs_words::{CellState, CellWord};

/// Loads the cell of a number, and answers it as it was found. By `L` the owner of a wait names
/// what it wants to learn there: `Polls`, whether it was served, and `Cancels`, whether it is too
/// late to cancel; a resume meets by `Meets` a cell that is settled. A cell that has left with its
/// segment is answered as Cancelled, with the payload 0: it leaves only after that.
#[inline(always)]
pub fn look<C: ClientWords, L: Load>(queue: &Queue<C>, pass: &mut Pass<C>, at: Place) -> CellWord
    requires belongs { IsOf queue.now pass.old }
    requires suits { LoadSuits (C.primitive (client_of queue.now)).manner L.load }
    requires place { KnowsPlace (pass_view pass.old) at }
    requires may { MayLook L.load (pass_view pass.old) at.index }
    ensures belongs { IsOf queue.now pass.new }
    ensures looks { HasLookedAt L.load at.index result pass.old pass.new }
{
    cell_found(load_cell::<C, L>(queue, pass, at), at.index)
}

/// Loads the cell of a number, whoever works there, and answers it as it was found. It shows no
/// event. A cell that has left with its segment is answered as Cancelled, whatever it had become.
#[inline(always)]
pub fn watch<C: ClientWords>(queue: &Queue<C>, pass: &mut Pass<C>, at: Place) -> CellWord
    requires belongs { IsOf queue.now pass.old }
    requires place { KnowsPlace (pass_view pass.old) at }
    requires number { at.index < (pass_view pass.old).cells }
    ensures belongs { IsOf queue.now pass.new }
    ensures watched { WatchedAt at result pass.old pass.new }
{
    cell_found(queue.load_table::<Watches>(pass, at.word), at.index)
}

/// Looks by its owner whether a wait was served, and answers what was left in the cell then; where
/// the wait goes on, nothing. It is the look by `Polls`, and asks the word that one question.
#[inline(always)]
pub fn look_for_grant<C: ClientWords>(
    queue: &Queue<C>,
    pass: &mut Pass<C>,
    at: Place,
) -> Option<u32>
    requires belongs { IsOf queue.now pass.old }
    requires place { KnowsPlace (pass_view pass.old) at }
    requires may { MayLook polls (pass_view pass.old) at.index }
    ensures belongs { IsOf queue.now pass.new }
    ensures polled { HasPolled at.index result pass.old pass.new }
{
    let word = load_cell::<C, Polls>(queue, pass, at);
    CellWord::payload_in(word, CellState::Resumed)
}

// The load itself. It answers the word found.
#[inline(always)]
fn load_cell<C: ClientWords, L: Load>(queue: &Queue<C>, pass: &mut Pass<C>, at: Place) -> u64
    requires belongs { IsOf queue.now pass.old }
    requires suits { LoadSuits (C.primitive (client_of queue.now)).manner L.load }
    requires place { KnowsPlace (pass_view pass.old) at }
    requires may { MayLook L.load (pass_view pass.old) at.index }
    ensures belongs { IsOf queue.now pass.new }
    ensures loaded { HasLookedAtWord L.load at.index result pass.old pass.new }
{
    queue.load_table::<L>(pass, at.word)
}
