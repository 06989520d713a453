//! How a canceller's cell is settled: by one exchange, or by a second one where a resume has left
//! its value there.

ghost use Rattle.std.specs.Prelude.{◌≡◌, true, false};
ghost use Rattle.cqs_core.specs.declared.doings.Doing.TheVariants as doing;
ghost use Rattle.cqs_rule_laws.specs.Manner.{Asks, IsSmart};
ghost use Rattle.cqs_rule.specs.Passes.{pass_view, client_of, IsOf};
ghost use Rattle.cqs_rule_laws.specs.Placed.{KnowsPlace};
ghost use Rattle.cqs_cell.specs.Transitions.{HasSettled};

use crate::cross::{cross, cross_surely};
use cqs_rule::{ClientWords, Pass, Place, Queue, Refuses, RefusesValue, Settles, SettlesOwing};
use cqs_words::CellState;

// Resumes pass over the cell.
#[inline(always)]
#[tactic(auto, using(crate::proofs::Made::made_after_miss))]
pub(crate) fn settle_cancelled<C: ClientWords>(
    queue: &Queue<C>,
    pass: &mut Pass<C>,
    at: Place,
) -> Option<u32>
    requires belongs { IsOf queue.now pass.old }
    requires smart { IsSmart (C.primitive (client_of queue.now)).manner.leaving }
    requires decided { (pass_view pass.old).facts.doing ≡ doing.Decided at.index true }
    requires place { KnowsPlace (pass_view pass.old) at }
    ensures belongs { IsOf queue.now pass.new }
    ensures settled { HasSettled true at.index result pass.old pass.new }
{
    let (cancelling, cancelled) = (CellState::Cancelling, CellState::Cancelled);
    match cross::<C, Settles>(queue, pass, at, cancelling, 0, cancelled, 0) {
        Ok(()) => None,
        Err(cell) => {
            let (delegated, left) = (CellState::Delegated, cell.payload);
            cross_surely::<C, SettlesOwing>(queue, pass, at, delegated, left, cancelled, left);
            Some(left)
        }
    }
}

// The resume that comes to the cell ends there.
#[inline(always)]
#[tactic(auto, using(crate::proofs::Made::made_after_miss))]
pub(crate) fn settle_refused<C: ClientWords>(
    queue: &Queue<C>,
    pass: &mut Pass<C>,
    at: Place,
) -> Option<u32>
    requires belongs { IsOf queue.now pass.old }
    requires asks { Asks (C.primitive (client_of queue.now)).manner.leaving }
    requires decided { (pass_view pass.old).facts.doing ≡ doing.Decided at.index false }
    requires place { KnowsPlace (pass_view pass.old) at }
    ensures belongs { IsOf queue.now pass.new }
    ensures settled { HasSettled false at.index result pass.old pass.new }
{
    let (cancelling, refused) = (CellState::Cancelling, CellState::Refused);
    match cross::<C, Refuses>(queue, pass, at, cancelling, 0, refused, 0) {
        Ok(()) => None,
        Err(cell) => {
            let (delegated, left) = (CellState::Delegated, cell.payload);
            cross_surely::<C, RefusesValue>(queue, pass, at, delegated, left, refused, left);
            Some(left)
        }
    }
}
