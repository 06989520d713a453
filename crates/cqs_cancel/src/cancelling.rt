//! The cancel.

ghost use Rattle.std.specs.Prelude.{◌≡◌, true};
ghost use Rattle.cqs_core.specs.declared.doings.Doing.TheVariants as doing;
ghost use Rattle.cqs_rule.specs.Callbacks.{IsAsked};
ghost use Rattle.cqs_rule_laws.specs.Lists.{Has};
ghost use Rattle.cqs_rule_laws.specs.Manner.{Asks};
ghost use Rattle.cqs_rule.specs.Passes.{pass_view, client_of, IsOf};
ghost use Rattle.cqs_rule_laws.specs.Placed.{KnowsPlace};
ghost use Rattle.cqs_rule.specs.Waits.{place_of, HasWait};
ghost use Rattle.cqs_cancel.specs.Alone.{OwesNone, IsAhead};
ghost use Rattle.cqs_cancel.specs.Cancels.{HasCancelled, HasLeft};

use cqs_cell::{begin_cancel, look, settle};
use cqs_rule::{Cancels, Client, Pass, Place, Queue, Wait};

/// What became of a cancel.
#[derive(Clone, Copy)]
pub enum Left {
    /// The wait is over, and nothing is owed for it: the waiter has left the line, or it was
    /// refused and what was on its way to it ended.
    Gone,
    /// The waiter has left the line. A resume had left this payload to it, and the pass owes that
    /// resumption now.
    GoneOwing(u32),
    /// The waiter was served before, and has this payload.
    Late(u32),
}

/// Cancels a wait: its waiter leaves the line, if its client says so, or it was served before. It
/// is compiled into its caller, which says what stands apart.
#[inline(always)]
pub fn cancel<C: Client>(queue: &Queue<C>, pass: &mut Pass<C>, wait: Wait) -> Left
    requires belongs { IsOf queue.now pass.old }
    requires asks { Asks (C.primitive (client_of queue.now)).manner.leaving }
    requires asked { IsAsked C.asking }
    requires idle { (pass_view pass.old).facts.doing ≡ doing.Idle }
    requires has { HasWait (pass_view pass.old) wait }
    ensures belongs { IsOf queue.now pass.new }
    ensures cancelled { HasCancelled C.asking (place_of wait).index pass.old result pass.new }
    ensures alone { (pass_view pass.old).alone ≡ true → OwesNone result }
{
    let at = queue.spend_wait(pass, wait);
    cancel_at(queue, pass, at)
}

// The same, of the wait at this place.
#[inline(always)]
#[tactic(auto, using(crate::proofs::Steps::cancel_ends))]
fn cancel_at<C: Client>(queue: &Queue<C>, pass: &mut Pass<C>, at: Place) -> Left
    requires belongs { IsOf queue.now pass.old }
    requires asks { Asks (C.primitive (client_of queue.now)).manner.leaving }
    requires asked { IsAsked C.asking }
    requires idle { (pass_view pass.old).facts.doing ≡ doing.Idle }
    requires wait { Has at.index (pass_view pass.old).facts.waits }
    requires place { KnowsPlace (pass_view pass.old) at }
    ensures belongs { IsOf queue.now pass.new }
    ensures cancelled { HasCancelled C.asking at.index pass.old result pass.new }
    ensures alone { (pass_view pass.old).alone ≡ true → OwesNone result }
{
    match begin_cancel(queue, pass, at) {
        Ok(()) => leave(queue, pass, at),
        Err(_) => Left::Late(look::<C, Cancels>(queue, pass, at).payload),
    }
}

// Ends what the owner of a wait began: its client is asked, and the cell is settled by the answer.
#[inline(always)]
#[tactic(auto, using(crate::proofs::Steps::leave_ends))]
fn leave<C: Client>(queue: &Queue<C>, pass: &mut Pass<C>, at: Place) -> Left
    requires belongs { IsOf queue.now pass.old }
    requires asks { Asks (C.primitive (client_of queue.now)).manner.leaving }
    requires asked { IsAsked C.asking }
    requires leaving { (pass_view pass.old).facts.doing ≡ doing.Leaving at.index }
    requires ahead { IsAhead at.index (pass_view pass.old) }
    requires place { KnowsPlace (pass_view pass.old) at }
    ensures belongs { IsOf queue.now pass.new }
    ensures left { HasLeft C.asking at.index pass.old result pass.new }
    ensures alone { (pass_view pass.old).alone ≡ true → OwesNone result }
{
    let passes_on = C::on_cancellation(queue, pass, at.index);
    match settle(queue, pass, at, passes_on) {
        Ok(None) => Left::Gone,
        Ok(Some(payload)) => {
            if passes_on {
                return Left::GoneOwing(payload);
            }
            C::complete_refused_resume(queue, pass, payload);
            Left::Gone
        }
        Err(_) => unreachable!(),
    }
}
