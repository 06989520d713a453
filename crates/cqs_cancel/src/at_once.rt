//! The cancel of a client whose waits leave at once.

ghost use Rattle.std.specs.Prelude.{◌≡◌};
ghost use Rattle.cqs_core.specs.declared.doings.Doing.TheVariants as doing;
ghost use Rattle.cqs_rule_laws.specs.Lists.{Has};
ghost use Rattle.cqs_rule_laws.specs.Manner.{IsAtOnce};
ghost use Rattle.cqs_rule.specs.Passes.{pass_view, client_of, IsOf};
ghost use Rattle.cqs_rule_laws.specs.Placed.{KnowsPlace};
ghost use Rattle.cqs_rule.specs.Waits.{place_of, HasWait};
ghost use Rattle.cqs_cancel.specs.AtOnce.{HasLeftAtOnce};

use cqs_cell::{leave_at_once, look};
use cqs_rule::{Cancels, ClientWords, Pass, Place, Queue, Wait};

/// What became of a wait that was to leave at once.
#[derive(Clone, Copy)]
pub enum AtOnce {
    /// The wait is over, and the resume that comes to its cell ends there.
    Gone,
    /// The waiter was served before, and has this payload.
    Late(u32),
}

/// Cancels a wait at once: its waiter leaves, and nobody is asked; or it was served before.
pub fn cancel_at_once<C: ClientWords>(queue: &Queue<C>, pass: &mut Pass<C>, wait: Wait) -> AtOnce
    requires belongs { IsOf queue.now pass.old }
    requires at_once { IsAtOnce (C.primitive (client_of queue.now)).manner.leaving }
    requires idle { (pass_view pass.old).facts.doing ≡ doing.Idle }
    requires has { HasWait (pass_view pass.old) wait }
    ensures belongs { IsOf queue.now pass.new }
    ensures left { HasLeftAtOnce (place_of wait).index pass.old result pass.new }
{
    let at = queue.spend_wait(pass, wait);
    cancel_at(queue, pass, at)
}

// The same, of the wait at this place.
#[inline]
#[tactic(auto, using(crate::proofs::AtOnceSteps::at_once_ends))]
fn cancel_at<C: ClientWords>(queue: &Queue<C>, pass: &mut Pass<C>, at: Place) -> AtOnce
    requires belongs { IsOf queue.now pass.old }
    requires at_once { IsAtOnce (C.primitive (client_of queue.now)).manner.leaving }
    requires idle { (pass_view pass.old).facts.doing ≡ doing.Idle }
    requires wait { Has at.index (pass_view pass.old).facts.waits }
    requires place { KnowsPlace (pass_view pass.old) at }
    ensures belongs { IsOf queue.now pass.new }
    ensures left { HasLeftAtOnce at.index pass.old result pass.new }
{
    match leave_at_once(queue, pass, at) {
        Ok(()) => AtOnce::Gone,
        Err(_) => AtOnce::Late(look::<C, Cancels>(queue, pass, at).payload),
    }
}
