//! The transitions of a synchronous queue: a resume watches the value that it leaves, and may break
//! the cell where nobody takes it.

ghost use Rattle.std.specs.Prelude.{◌≡◌, ℕ, ◌<◌, ◌^◌, true, IfOk, IfErr};
ghost use Rattle.cqs_core.specs.declared.doings.Doing.TheVariants as doing;
ghost use Rattle.cqs_core.specs.QueueSteps.{breaks, in_sync, leaves_watched, takes_watched};
ghost use Rattle.cqs_rule.specs.Passes.{pass_view, client_of, IsOf};
ghost use Rattle.cqs_rule_laws.specs.Placed.{KnowsPlace};
ghost use Rattle.cqs_cell.specs.Transitions.{
  HasMade,
  HasMadeAfter,
  HasMissed,
  HasMissedAfter,
  HasMissedCell,
};
ghost use Rattle.cqs_words.specs.declared.cell.CellState.TheVariants as shown;

use crate::cross::cross;
use cqs_rule::{Breaks, ClientWords, LeavesWatched, Pass, Place, Queue, TakesWatched};
use cqs_words::{CellState, CellWord};

/// An empty cell gets what its resume owes, which watches it from then on.
#[inline(always)]
pub fn leave_watched<C: ClientWords>(
    queue: &Queue<C>,
    pass: &mut Pass<C>,
    at: Place,
    payload: u32,
) -> Result<(), CellState>
    requires belongs { IsOf queue.now pass.old }
    requires sync { (C.primitive (client_of queue.now)).manner.watches ≡ true }
    requires ticket { (pass_view pass.old).facts.doing ≡ doing.Ticket at.index }
    requires place { KnowsPlace (pass_view pass.old) at }
    requires owes { (pass_view pass.old).facts.has.payload ≡ payload }
    ensures belongs { IsOf queue.now pass.new }
    ensures made { IfOk result
        (λ _. HasMade (in_sync leaves_watched) at.index 0 pass.old pass.new) }
    ensures missed { IfErr result
        (λ found. HasMissed (in_sync leaves_watched) at.index found pass.old pass.new) }
{
    let (empty, value) = (CellState::Empty, CellState::Value);
    match cross::<C, LeavesWatched>(queue, pass, at, empty, 0, value, payload) {
        Ok(()) => Ok(()),
        Err(cell) => Err(cell.state),
    }
}

/// A suspend takes the value with this payload that the resume of its number left and watches. It
/// answers the cell that was found where that is another: a value with another payload, or a cell
/// that was broken.
#[inline(always)]
pub fn take_watched<C: ClientWords>(
    queue: &Queue<C>,
    pass: &mut Pass<C>,
    at: Place,
    payload: u32,
) -> Result<(), CellWord>
    requires belongs { IsOf queue.now pass.old }
    requires sync { (C.primitive (client_of queue.now)).manner.watches ≡ true }
    requires drawn { (pass_view pass.old).facts.doing ≡ doing.Drawn at.index }
    requires place { KnowsPlace (pass_view pass.old) at }
    requires payload { payload < 2 ^ 20 }
    ensures belongs { IsOf queue.now pass.new }
    ensures took { IfOk result
        (λ _. HasMade (in_sync takes_watched) at.index payload pass.old pass.new) }
    ensures missed { IfErr result
        (λ cell. HasMissedCell (in_sync takes_watched) at.index payload cell pass.old pass.new) }
{
    let (value, taken) = (CellState::Value, CellState::Taken);
    cross::<C, TakesWatched>(queue, pass, at, value, payload, taken, payload)
}

/// A resume takes back the value that it left, and breaks the cell: nobody takes the value then,
/// and the suspend of the number finds the cell broken. It does so only after it found the value
/// there as often as the queue asks. Where its first exchange finds another payload than 0, it
/// makes a second. Where the value was taken, it answers so, and a look (`Sees`) is to tell that to
/// the pass.
#[inline(always)]
pub fn break_value<C: ClientWords>(
    queue: &Queue<C>,
    pass: &mut Pass<C>,
    at: Place,
) -> Result<(), CellState>
    requires belongs { IsOf queue.now pass.old }
    requires sync { (C.primitive (client_of queue.now)).manner.watches ≡ true }
    requires watching { (pass_view pass.old).facts.doing ≡ doing.Watching at.index }
    requires looked { (pass_view pass.old).facts.looked ≡ (pass_view pass.old).opening.looks }
    requires place { KnowsPlace (pass_view pass.old) at }
    ensures belongs { IsOf queue.now pass.new }
    ensures made { IfOk result (λ _. (payload : ℕ)
        × HasMadeAfter (in_sync breaks) at.index payload pass.old pass.new) }
    ensures missed { IfErr result (λ found. HasMissedAfter (in_sync breaks) at.index found pass.old
        pass.new × (found ≡ shown.Taken)) }
{
    let (value, broken) = (CellState::Value, CellState::Broken);
    match cross::<C, Breaks>(queue, pass, at, value, 0, broken, 0) {
        Ok(()) => Ok(()),
        Err(cell) => match cell.state {
            CellState::Value => {
                let payload = cell.payload;
                match cross::<C, Breaks>(queue, pass, at, value, payload, broken, payload) {
                    Ok(()) => Ok(()),
                    Err(cell) => Err(cell.state),
                }
            }
            state => Err(state),
        },
    }
}
