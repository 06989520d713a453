//! The transitions of a canceller whose client isn't asked: the waiter leaves the line by the first
//! of them, and resumes pass over the cell.

ghost use Rattle.std.specs.Prelude.{◌≡◌, true, IfOk, IfErr};
ghost use Rattle.cqs_core.specs.declared.doings.Doing.TheVariants as doing;
ghost use Rattle.cqs_core.specs.QueueSteps.{leaves_line};
ghost use Rattle.cqs_rule_laws.specs.Lists.{Has};
ghost use Rattle.cqs_rule_laws.specs.Manner.{PassesOn};
ghost use Rattle.cqs_rule.specs.Passes.{pass_view, client_of, IsOf};
ghost use Rattle.cqs_rule_laws.specs.Placed.{KnowsPlace};
ghost use Rattle.cqs_cell.specs.Transitions.{HasMade, HasMissed, HasSettled};

use crate::cross::cross;
use crate::settling::settle_cancelled;
use cqs_rule::{ClientWords, LeavesLine, Pass, Place, Queue};
use cqs_words::CellState;

/// The owner of a wait leaves the line.
#[inline(always)]
pub fn leave_line<C: ClientWords>(
    queue: &Queue<C>,
    pass: &mut Pass<C>,
    at: Place,
) -> Result<(), CellState>
    requires belongs { IsOf queue.now pass.old }
    requires passes_on { PassesOn (C.primitive (client_of queue.now)).manner.leaving }
    requires idle { (pass_view pass.old).facts.doing ≡ doing.Idle }
    requires wait { Has at.index (pass_view pass.old).facts.waits }
    requires place { KnowsPlace (pass_view pass.old) at }
    ensures belongs { IsOf queue.now pass.new }
    ensures made { IfOk result (λ _. HasMade leaves_line at.index 0 pass.old pass.new) }
    ensures missed { IfErr result
        (λ found. HasMissed leaves_line at.index found pass.old pass.new) }
{
    let (waiter, cancelling) = (CellState::Waiter, CellState::Cancelling);
    match cross::<C, LeavesLine>(queue, pass, at, waiter, 0, cancelling, 0) {
        Ok(()) => Ok(()),
        Err(cell) => Err(cell.state),
    }
}

/// One who has left the line ends its leaving. It answers the payload that a resume had left for
/// it.
#[inline(always)]
pub fn settle_left<C: ClientWords>(queue: &Queue<C>, pass: &mut Pass<C>, at: Place) -> Option<u32>
    requires belongs { IsOf queue.now pass.old }
    requires passes_on { PassesOn (C.primitive (client_of queue.now)).manner.leaving }
    requires decided { (pass_view pass.old).facts.doing ≡ doing.Decided at.index true }
    requires place { KnowsPlace (pass_view pass.old) at }
    ensures belongs { IsOf queue.now pass.new }
    ensures settled { HasSettled true at.index result pass.old pass.new }
{
    settle_cancelled(queue, pass, at)
}
