//! The transitions of a canceller.

ghost use Rattle.std.specs.Prelude.{◌≡◌, IfOk, IfErr};
ghost use Rattle.cqs_core.specs.declared.doings.Doing.TheVariants as doing;
ghost use Rattle.cqs_core.specs.QueueSteps.{starts_leaving};
ghost use Rattle.cqs_rule_laws.specs.Lists.{Has};
ghost use Rattle.cqs_rule_laws.specs.Manner.{Asks};
ghost use Rattle.cqs_rule.specs.Passes.{pass_view, client_of, IsOf};
ghost use Rattle.cqs_rule_laws.specs.Placed.{KnowsPlace};
ghost use Rattle.cqs_cell.specs.Transitions.{HasMade, HasMissed, HasSettled};

use crate::cross::cross;
use crate::settling::{settle_cancelled, settle_refused};
use cqs_rule::{ClientWords, Pass, Place, Queue, StartsLeaving};
use cqs_words::CellState;

/// The owner of a wait begins to leave. Its client is to be asked next.
#[inline(always)]
pub fn begin_cancel<C: ClientWords>(
    queue: &Queue<C>,
    pass: &mut Pass<C>,
    at: Place,
) -> Result<(), CellState>
    requires belongs { IsOf queue.now pass.old }
    requires asks { Asks (C.primitive (client_of queue.now)).manner.leaving }
    requires idle { (pass_view pass.old).facts.doing ≡ doing.Idle }
    requires wait { Has at.index (pass_view pass.old).facts.waits }
    requires place { KnowsPlace (pass_view pass.old) at }
    ensures belongs { IsOf queue.now pass.new }
    ensures made { IfOk result (λ _. HasMade starts_leaving at.index 0 pass.old pass.new) }
    ensures missed { IfErr result
        (λ found. HasMissed starts_leaving at.index found pass.old pass.new) }
{
    let (waiter, cancelling) = (CellState::Waiter, CellState::Cancelling);
    match cross::<C, StartsLeaving>(queue, pass, at, waiter, 0, cancelling, 0) {
        Ok(()) => Ok(()),
        Err(cell) => Err(cell.state),
    }
}

/// A canceller ends its leaving by what was decided: resumes pass over the cell, or the one that
/// comes ends there. It answers the payload that a resume had left for it. It never fails: nobody
/// else ends what it began.
#[inline(always)]
pub fn settle<C: ClientWords>(
    queue: &Queue<C>,
    pass: &mut Pass<C>,
    at: Place,
    passes_on: bool,
) -> Result<Option<u32>, CellState>
    requires belongs { IsOf queue.now pass.old }
    requires asks { Asks (C.primitive (client_of queue.now)).manner.leaving }
    requires decided { (pass_view pass.old).facts.doing ≡ doing.Decided at.index passes_on }
    requires place { KnowsPlace (pass_view pass.old) at }
    ensures belongs { IsOf queue.now pass.new }
    ensures settled { IfOk result
        (λ payload. HasSettled passes_on at.index payload pass.old pass.new) }
    ensures never { IfErr result (λ found. ⊥) }
{
    if passes_on {
        Ok(settle_cancelled(queue, pass, at))
    } else {
        Ok(settle_refused(queue, pass, at))
    }
}
