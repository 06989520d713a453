//! The suspend.

ghost use Rattle.std.specs.Prelude.{◌≡◌, false};
ghost use Rattle.cqs_core.specs.declared.doings.Doing.TheVariants as doing;
ghost use Rattle.cqs_rule.specs.Claims.{CanExtend};
ghost use Rattle.cqs_rule.specs.Passes.{pass_view, client_of, IsOf};
ghost use Rattle.cqs_suspend.specs.Suspends.{Suspends};

use crate::placing::place;
use cqs_cell::{install, take_value};
use cqs_rule::{ClientWords, Draws, Pass, Queue, SUSPENDS_WORD, Wait};

/// What became of a suspend.
#[derive(Drop)]
pub enum Suspended {
    /// The cell was empty, and the caller waits.
    Waits(Wait),
    /// The resume of this number came first, and left this payload.
    Took { payload: u32, number: u64 },
}

/// Draws a number for a pass at the door, and waits under it or takes the value that its resume
/// left. A spare slot is needed where the number's segment may not be made yet. It is compiled into
/// its caller, which says what stands apart.
#[inline(always)]
pub fn suspend<C: ClientWords>(queue: &Queue<C>, pass: &mut Pass<C>) -> Suspended
    requires belongs { IsOf queue.now pass.old }
    requires plain { (C.primitive (client_of queue.now)).manner.watches ≡ false }
    requires spare { CanExtend queue.now pass.old }
    requires door { (pass_view pass.old).facts.doing ≡ doing.Door }
    ensures belongs { IsOf queue.now pass.new }
    ensures suspends { Suspends pass.old result pass.new }
{
    let number = queue.add_table::<Draws>(pass, SUSPENDS_WORD, 1);
    let at = place(queue, pass, number);
    match install(queue, pass, at) {
        Ok(()) => Suspended::Waits(queue.wait_of(pass, at)),
        Err(_) => match take_value(queue, pass, at) {
            Ok(payload) => Suspended::Took { payload, number },
            Err(_) => unreachable!(),
        },
    }
}
