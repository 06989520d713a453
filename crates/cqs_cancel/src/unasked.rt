//! The cancel of a client that isn't asked.

ghost use Rattle.std.specs.Prelude.{◌≡◌, true};
ghost use Rattle.cqs_core.specs.declared.doings.Doing.TheVariants as doing;
ghost use Rattle.cqs_rule_laws.specs.Lists.{Has};
ghost use Rattle.cqs_rule_laws.specs.Manner.{PassesOn};
ghost use Rattle.cqs_rule.specs.Passes.{pass_view, client_of, IsOf};
ghost use Rattle.cqs_rule_laws.specs.Placed.{KnowsPlace};
ghost use Rattle.cqs_rule.specs.Waits.{place_of, HasWait};
ghost use Rattle.cqs_cancel.specs.Alone.{OwesNone};
ghost use Rattle.cqs_cancel.specs.Unasked.{HasCancelledUnasked, left_of};

use crate::cancelling::Left;
use cqs_cell::{leave_line, look, settle_left};
use cqs_rule::{Cancels, ClientWords, Pass, Place, Queue, Wait};

/// Cancels a wait where resumes pass on in any case: its waiter leaves the line, or it was served
/// before.
pub fn cancel_unasked<C: ClientWords>(queue: &Queue<C>, pass: &mut Pass<C>, wait: Wait) -> Left
    requires belongs { IsOf queue.now pass.old }
    requires passes_on { PassesOn (C.primitive (client_of queue.now)).manner.leaving }
    requires idle { (pass_view pass.old).facts.doing ≡ doing.Idle }
    requires has { HasWait (pass_view pass.old) wait }
    ensures belongs { IsOf queue.now pass.new }
    ensures cancelled { HasCancelledUnasked (place_of wait).index pass.old result pass.new }
    ensures alone { (pass_view pass.old).alone ≡ true → OwesNone result }
{
    let at = queue.spend_wait(pass, wait);
    cancel_at(queue, pass, at)
}

// The same, of the wait at this place.
#[inline]
#[tactic(auto, using(crate::proofs::UnaskedSteps::unasked_ends))]
fn cancel_at<C: ClientWords>(queue: &Queue<C>, pass: &mut Pass<C>, at: Place) -> Left
    requires belongs { IsOf queue.now pass.old }
    requires passes_on { PassesOn (C.primitive (client_of queue.now)).manner.leaving }
    requires idle { (pass_view pass.old).facts.doing ≡ doing.Idle }
    requires wait { Has at.index (pass_view pass.old).facts.waits }
    requires place { KnowsPlace (pass_view pass.old) at }
    ensures belongs { IsOf queue.now pass.new }
    ensures cancelled { HasCancelledUnasked at.index pass.old result pass.new }
    ensures alone { (pass_view pass.old).alone ≡ true → OwesNone result }
{
    match leave_line(queue, pass, at) {
        Ok(()) => left_by(settle_left(queue, pass, at)),
        Err(_) => Left::Late(look::<C, Cancels>(queue, pass, at).payload),
    }
}

// What a settled cell comes to, by what a resume had left there.
fn left_by(payload: Option<u32>) -> Left
    ensures { result ≡ left_of payload }
{
    match payload {
        None => Left::Gone,
        Some(payload) => Left::GoneOwing(payload),
    }
}
