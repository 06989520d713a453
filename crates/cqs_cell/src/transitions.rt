//! The transitions of a suspend and of a resume.

ghost use Rattle.std.specs.Prelude.{◌≡◌, false, IfOk, IfErr};
ghost use Rattle.cqs_core.specs.declared.doings.Doing.TheVariants as doing;
ghost use Rattle.cqs_core.specs.QueueSteps.{installs, leaves, serves, delegates};
ghost use Rattle.cqs_rule_laws.specs.Manner.{Suits};
ghost use Rattle.cqs_rule.specs.Passes.{pass_view, client_of, IsOf};
ghost use Rattle.cqs_rule_laws.specs.Placed.{KnowsPlace};
ghost use Rattle.cqs_cell.specs.Transitions.{HasMade, HasMissed};

use crate::cross::cross;
use cqs_rule::{ClientWords, Delegates, Installs, Leaves, Pass, Place, Queue, Serves};
use cqs_words::CellState;

/// An empty cell gets a waiter, by the suspend of its number.
#[inline(always)]
pub fn install<C: ClientWords>(
    queue: &Queue<C>,
    pass: &mut Pass<C>,
    at: Place,
) -> Result<(), CellState>
    requires belongs { IsOf queue.now pass.old }
    requires drawn { (pass_view pass.old).facts.doing ≡ doing.Drawn at.index }
    requires place { KnowsPlace (pass_view pass.old) at }
    ensures belongs { IsOf queue.now pass.new }
    ensures made { IfOk result (λ _. HasMade installs at.index 0 pass.old pass.new) }
    ensures missed { IfErr result (λ found. HasMissed installs at.index found pass.old pass.new) }
{
    let (empty, waiter) = (CellState::Empty, CellState::Waiter);
    match cross::<C, Installs>(queue, pass, at, empty, 0, waiter, 0) {
        Ok(()) => Ok(()),
        Err(cell) => Err(cell.state),
    }
}

/// An empty cell gets what its resume owes, for good: in a queue that isn't synchronous.
#[inline(always)]
pub fn leave_value<C: ClientWords>(
    queue: &Queue<C>,
    pass: &mut Pass<C>,
    at: Place,
    payload: u32,
) -> Result<(), CellState>
    requires belongs { IsOf queue.now pass.old }
    requires plain { (C.primitive (client_of queue.now)).manner.watches ≡ false }
    requires ticket { (pass_view pass.old).facts.doing ≡ doing.Ticket at.index }
    requires place { KnowsPlace (pass_view pass.old) at }
    requires owes { (pass_view pass.old).facts.has.payload ≡ payload }
    ensures belongs { IsOf queue.now pass.new }
    ensures made { IfOk result (λ _. HasMade leaves at.index 0 pass.old pass.new) }
    ensures missed { IfErr result (λ found. HasMissed leaves at.index found pass.old pass.new) }
{
    let (empty, value) = (CellState::Empty, CellState::Value);
    match cross::<C, Leaves>(queue, pass, at, empty, 0, value, payload) {
        Ok(()) => Ok(()),
        Err(cell) => Err(cell.state),
    }
}

/// The waiter in a cell is served, by the resume of its number, and woken if it sleeps there.
#[inline(always)]
pub fn serve<C: ClientWords>(
    queue: &Queue<C>,
    pass: &mut Pass<C>,
    at: Place,
    payload: u32,
) -> Result<(), CellState>
    requires belongs { IsOf queue.now pass.old }
    requires ticket { (pass_view pass.old).facts.doing ≡ doing.Ticket at.index }
    requires place { KnowsPlace (pass_view pass.old) at }
    requires owes { (pass_view pass.old).facts.has.payload ≡ payload }
    ensures belongs { IsOf queue.now pass.new }
    ensures made { IfOk result (λ _. HasMade serves at.index 0 pass.old pass.new) }
    ensures missed { IfErr result (λ found. HasMissed serves at.index found pass.old pass.new) }
{
    let (waiter, resumed) = (CellState::Waiter, CellState::Resumed);
    match cross::<C, Serves>(queue, pass, at, waiter, 0, resumed, payload) {
        Ok(()) => {
            queue.wake_cell(at);
            Ok(())
        }
        Err(cell) => Err(cell.state),
    }
}

/// The canceller of a wait gets what the resume of its number owes, and is to go on with it.
#[inline(always)]
pub fn delegate<C: ClientWords>(
    queue: &Queue<C>,
    pass: &mut Pass<C>,
    at: Place,
    payload: u32,
) -> Result<(), CellState>
    requires belongs { IsOf queue.now pass.old }
    requires suits { Suits (C.primitive (client_of queue.now)).manner delegates }
    requires ticket { (pass_view pass.old).facts.doing ≡ doing.Ticket at.index }
    requires place { KnowsPlace (pass_view pass.old) at }
    requires owes { (pass_view pass.old).facts.has.payload ≡ payload }
    ensures belongs { IsOf queue.now pass.new }
    ensures made { IfOk result (λ _. HasMade delegates at.index 0 pass.old pass.new) }
    ensures missed { IfErr result (λ found. HasMissed delegates at.index found pass.old pass.new) }
{
    let (cancelling, delegated) = (CellState::Cancelling, CellState::Delegated);
    match cross::<C, Delegates>(queue, pass, at, cancelling, 0, delegated, payload) {
        Ok(()) => Ok(()),
        Err(cell) => Err(cell.state),
    }
}
