//! A resumption whose first number an idle pass has drawn.

ghost use Rattle.std.specs.Prelude.{◌≡◌, true, Some, false};
ghost use Rattle.cqs_core.specs.declared.doings.Doing.TheVariants as doing;
ghost use Rattle.cqs_rule_laws.specs.Manner.{IsSmart};
ghost use Rattle.cqs_rule.specs.Passes.{ample_of, pass_view, client_of, IsOf};
ghost use Rattle.cqs_resume.specs.Resumes.{HasGoneOn, HasResumed, most_after_first};

use crate::meeting::meet;
use crate::resumed::Resumed;
use crate::resuming::{MOST_PASSED_OVER, go_on};
use cqs_rule::{Client, Pass, Queue};

/// Goes on with a resumption from the first number that was drawn for it, which counts among those
/// that one call passes over.
#[inline]
pub fn resume_from<C: Client>(
    queue: &Queue<C>,
    pass: &mut Pass<C>,
    number: u64,
    payload: u32,
) -> Resumed
    requires belongs { IsOf queue.now pass.old }
    requires smart { IsSmart (C.primitive (client_of queue.now)).manner.leaving }
    requires plain { (C.primitive (client_of queue.now)).manner.watches ≡ false }
    requires ticket { (pass_view pass.old).facts.doing ≡ doing.Ticket number }
    requires reached { (pass_view pass.old).facts.reached ≡ number }
    requires payload { (pass_view pass.old).facts.has.payload ≡ payload }
    ensures belongs { IsOf queue.now pass.new }
    ensures resumed { HasGoneOn most_after_first (Some number) payload pass.old result pass.new }
    ensures ample { ample_of queue.now ≡ true
        → HasResumed most_after_first (Some number) payload pass.old result pass.new }
{
    match meet(queue, pass, number, number, payload) {
        Ok(resumed) => resumed,
        Err(next) => go_on(queue, pass, payload, MOST_PASSED_OVER - 1, number + 1, next),
    }
}
