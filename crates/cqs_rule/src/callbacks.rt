//! What the queue calls back of its client, when a waiter leaves.

use crate::queue::{Pass, Queue};
use cqs_rule_laws::ClientWords;

/// A primitive, with what the queue calls back.
pub trait Client: ClientWords<Slot: Send> {
    ghost use Rattle.std.specs.Prelude.{◌≡◌};
    ghost use Rattle.cqs_rule.specs.Callbacks.{Asking, HasBegun, HasAnswered, EndedRefused};
    ghost use Rattle.cqs_rule.specs.Passes.{pass_view, IsOf};

    // How it is asked whether a waiter leaves the line.
    ghost asking: { Asking Self.Entry };

    /// Whether the waiter of this number leaves the line: resumes pass over its cell then. Else it
    /// is refused, and the resume that comes to it ends there.
    fn on_cancellation(queue: &Queue<Self>, pass: &mut Pass<Self>, wait: u64) -> bool
        requires belongs { IsOf queue.now pass.old }
        requires begun { HasBegun asking queue.now pass.old wait }
        ensures belongs { IsOf queue.now pass.new }
        ensures answered { HasAnswered asking wait result pass.old pass.new };

    /// What a client does with the payload of a resumption that ended at the cell of a waiter who
    /// was refused. It makes no step: that which refused the waiter took back what was on its way
    /// to it.
    fn complete_refused_resume(queue: &Queue<Self>, pass: &mut Pass<Self>, payload: u32)
        requires belongs { IsOf queue.now pass.old }
        requires ended { EndedRefused (pass_view pass.old).facts payload }
        ensures same { pass.new ≡ pass.old };
}
