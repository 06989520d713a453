//! The value that a resume left in a cell for good: in a queue that isn't synchronous.

ghost use Rattle.std.specs.Prelude.{◌≡◌, ◌≢◌, false, IfOk, IfErr};
ghost use Rattle.cqs_core.specs.declared.doings.Doing.TheVariants as doing;
ghost use Rattle.cqs_core.specs.QueueSteps.{takes};
ghost use Rattle.cqs_rule.specs.Passes.{pass_view, client_of, IsOf};
ghost use Rattle.cqs_rule_laws.specs.Placed.{KnowsPlace};
ghost use Rattle.cqs_cell.specs.Transitions.{HasMadeAfter, HasMissed};
ghost use Rattle.cqs_words.specs.declared.cell.CellState.TheVariants as shown;

use crate::cross::{cross, cross_surely};
use cqs_rule::{ClientWords, Pass, Place, Queue, Takes};
use cqs_words::CellState;

/// A suspend takes the value that the resume of its number left, and answers its payload. Where its
/// first exchange finds another payload than 0, it makes a second. It is compiled into the suspend:
/// a call of it would have the pass lie in memory also where the suspend waits.
#[inline(always)]
#[tactic(auto, using(crate::proofs::Made::made_after_miss))]
pub fn take_value<C: ClientWords>(
    queue: &Queue<C>,
    pass: &mut Pass<C>,
    at: Place,
) -> Result<u32, CellState>
    requires belongs { IsOf queue.now pass.old }
    requires plain { (C.primitive (client_of queue.now)).manner.watches ≡ false }
    requires drawn { (pass_view pass.old).facts.doing ≡ doing.Drawn at.index }
    requires place { KnowsPlace (pass_view pass.old) at }
    ensures belongs { IsOf queue.now pass.new }
    ensures took { IfOk result (λ payload. HasMadeAfter takes at.index payload pass.old pass.new) }
    ensures missed { IfErr result
        (λ found. HasMissed takes at.index found pass.old pass.new × (found ≢ shown.Value)) }
{
    let (value, taken) = (CellState::Value, CellState::Taken);
    match cross::<C, Takes>(queue, pass, at, value, 0, taken, 0) {
        Ok(()) => Ok(0),
        Err(cell) => match cell.state {
            CellState::Value => {
                let payload = cell.payload;
                cross_surely::<C, Takes>(queue, pass, at, value, payload, taken, payload);
                Ok(payload)
            }
            state => Err(state),
        },
    }
}
