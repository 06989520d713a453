//! The next of several resumptions that a pass owes: it is begun by drawing its number.

ghost use Rattle.std.specs.Prelude.{◌≡◌, ◌<◌, true, false};
ghost use Rattle.cqs_core.specs.declared.doings.Doing.TheVariants as doing;
ghost use Rattle.cqs_rule_laws.specs.Manner.{IsSmart, OwesFurther};
ghost use Rattle.cqs_rule.specs.Passes.{ample_of, pass_view, client_of, IsOf};
ghost use Rattle.cqs_resume.specs.Begins.{HasBegun, HasBegunSo};

use crate::meeting::meet;
use crate::resumed::Resumed;
use crate::resuming::{MOST_PASSED_OVER, go_on};
use cqs_rule::{Begins, Client, Pass, Queue, RESUMES_WORD};

/// Draws a number for an idle pass that owes further resumptions, and goes on with that one as
/// `resume` does. The pass owes one fewer besides.
pub fn begin<C: Client>(queue: &Queue<C>, pass: &mut Pass<C>, payload: u32) -> Resumed
    requires belongs { IsOf queue.now pass.old }
    requires smart { IsSmart (C.primitive (client_of queue.now)).manner.leaving }
    requires plain { (C.primitive (client_of queue.now)).manner.watches ≡ false }
    requires several { OwesFurther (C.primitive (client_of queue.now)).manner.source }
    requires idle { (pass_view pass.old).facts.doing ≡ doing.Idle }
    requires further { 0 < (pass_view pass.old).facts.has.further }
    requires payload { (pass_view pass.old).facts.has.payload ≡ payload }
    ensures belongs { IsOf queue.now pass.new }
    ensures begun { HasBegunSo payload pass.old result pass.new }
    ensures ample { ample_of queue.now ≡ true → HasBegun payload pass.old result pass.new }
{
    let number = queue.add_table::<Begins>(pass, RESUMES_WORD, 1);
    match meet(queue, pass, number, number, payload) {
        Ok(resumed) => resumed,
        Err(next) => go_on(queue, pass, payload, MOST_PASSED_OVER - 1, number + 1, next),
    }
}
