//! The suspend of a client without a door.

ghost use Rattle.std.specs.Prelude.{◌≡◌, false, true};
ghost use Rattle.cqs_core.specs.declared.doings.Doing.TheVariants as doing;
ghost use Rattle.cqs_rule.specs.Claims.{CanExtend};
ghost use Rattle.cqs_rule.specs.Passes.{pass_view, client_of, IsOf};
ghost use Rattle.cqs_suspend.specs.Suspends.{HasEntered};

use crate::placing::place;
use crate::suspending::Suspended;
use cqs_cell::{install, take_value};
use cqs_rule::{ClientWords, Enters, Pass, Queue, SUSPENDS_WORD};

/// Draws a number for an idle pass that has seen the suspend counter below the limit, and waits
/// under it or takes the value that its resume left. A spare slot is needed as by `suspend`.
pub fn enter<C: ClientWords>(queue: &Queue<C>, pass: &mut Pass<C>) -> Suspended
    requires belongs { IsOf queue.now pass.old }
    requires plain { (C.primitive (client_of queue.now)).manner.watches ≡ false }
    requires spare { CanExtend queue.now pass.old }
    requires doorless { (C.primitive (client_of queue.now)).manner.has_door ≡ false }
    requires idle { (pass_view pass.old).facts.doing ≡ doing.Idle }
    requires room { (pass_view pass.old).facts.may_draw ≡ true }
    ensures belongs { IsOf queue.now pass.new }
    ensures entered { HasEntered pass.old result pass.new }
{
    let number = queue.add_table::<Enters>(pass, SUSPENDS_WORD, 1);
    let at = place(queue, pass, number);
    match install(queue, pass, at) {
        Ok(()) => Suspended::Waits(queue.wait_of(pass, at)),
        Err(_) => match take_value(queue, pass, at) {
            Ok(payload) => Suspended::Took { payload, number },
            Err(_) => unreachable!(),
        },
    }
}
