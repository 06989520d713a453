//! The transition by which a wait leaves at once, where resumes end at the cells of those who left.

ghost use Rattle.std.specs.Prelude.{◌≡◌, IfOk, IfErr};
ghost use Rattle.cqs_core.specs.declared.doings.Doing.TheVariants as doing;
ghost use Rattle.cqs_core.specs.QueueSteps.{leaves_at_once};
ghost use Rattle.cqs_rule_laws.specs.Lists.{Has};
ghost use Rattle.cqs_rule_laws.specs.Manner.{IsAtOnce};
ghost use Rattle.cqs_rule.specs.Passes.{pass_view, client_of, IsOf};
ghost use Rattle.cqs_rule_laws.specs.Placed.{KnowsPlace};
ghost use Rattle.cqs_cell.specs.Transitions.{HasMade, HasMissed};

use crate::cross::cross;
use cqs_rule::{ClientWords, LeavesAtOnce, Pass, Place, Queue};
use cqs_words::CellState;

/// The owner of a wait leaves: the wait is over, and the resume that comes to its cell ends there.
#[inline(always)]
pub fn leave_at_once<C: ClientWords>(
    queue: &Queue<C>,
    pass: &mut Pass<C>,
    at: Place,
) -> Result<(), CellState>
    requires belongs { IsOf queue.now pass.old }
    requires at_once { IsAtOnce (C.primitive (client_of queue.now)).manner.leaving }
    requires idle { (pass_view pass.old).facts.doing ≡ doing.Idle }
    requires wait { Has at.index (pass_view pass.old).facts.waits }
    requires place { KnowsPlace (pass_view pass.old) at }
    ensures belongs { IsOf queue.now pass.new }
    ensures made { IfOk result (λ _. HasMade leaves_at_once at.index 0 pass.old pass.new) }
    ensures missed { IfErr result
        (λ found. HasMissed leaves_at_once at.index found pass.old pass.new) }
{
    let (waiter, cancelled) = (CellState::Waiter, CellState::Cancelled);
    match cross::<C, LeavesAtOnce>(queue, pass, at, waiter, 0, cancelled, 0) {
        Ok(()) => Ok(()),
        Err(cell) => Err(cell.state),
    }
}
