//! A value that a resume left in a cell, which it watches.

ghost use Rattle.std.specs.Prelude.{◌≡◌, true};
ghost use Rattle.cqs_core.specs.declared.doings.Doing.TheVariants as doing;
ghost use Rattle.cqs_rule.specs.Passes.{pass_view, client_of, IsOf};
ghost use Rattle.cqs_rule_laws.specs.Placed.{KnowsPlace};
ghost use Rattle.cqs_resume.specs.Watching.{HasWatchedTill};

use crate::sync_resumed::SyncResumed;
use core::hint::spin_loop;
use cqs_cell::{break_value, look};
use cqs_rule::{ClientWords, Pass, Place, Queue, Sees};
use cqs_words::CellState;

/// Watches the value that the pass has just left in a cell until it is taken. After as many looks
/// as the queue asks it takes the value back and breaks the cell, unless it was taken by then.
pub(crate) fn watch_value<C: ClientWords>(
    queue: &Queue<C>,
    pass: &mut Pass<C>,
    at: Place,
) -> SyncResumed
    requires belongs { IsOf queue.now pass.old }
    requires sync { (C.primitive (client_of queue.now)).manner.watches ≡ true }
    requires watching { (pass_view pass.old).facts.doing ≡ doing.Watching at.index }
    requires fresh { (pass_view pass.old).facts.looked ≡ 0 }
    requires place { KnowsPlace (pass_view pass.old) at }
    ensures belongs { IsOf queue.now pass.new }
    ensures watched { HasWatchedTill at.index pass.old result pass.new }
{
    for _look in 0..queue.looks() {
        match look::<C, Sees>(queue, pass, at).state {
            CellState::Taken => return SyncResumed::Served(at.index),
            _ => spin_loop(),
        }
    }
    match break_value(queue, pass, at) {
        Ok(()) => SyncResumed::Broke(at.index),
        Err(_) => match look::<C, Sees>(queue, pass, at).state {
            CellState::Taken => SyncResumed::Served(at.index),
            _ => unreachable!(),
        },
    }
}
