//! Where a pass suspends at the number that it drew.

ghost use Rattle.std.specs.Prelude.{◌≡◌};
ghost use Rattle.cqs_core.specs.declared.doings.Doing.TheVariants as doing;
ghost use Rattle.cqs_find.specs.Finds.{HasSearched};
ghost use Rattle.cqs_rule_laws.specs.Placed.{KnowsPlace};
ghost use Rattle.cqs_rule.specs.Claims.{CanExtend};
ghost use Rattle.cqs_rule.specs.Passes.{pass_view, IsOf};

use cqs_find::{Found, locate};
use cqs_rule::{ClientWords, Pass, Place, Queue};

// The place of the number's cell. Its segment isn't taken out, since the pass is to wait there, and
// where it isn't made the pass has a slot for it.
#[inline(always)]
pub(crate) fn place<C: ClientWords>(queue: &Queue<C>, pass: &mut Pass<C>, number: u64) -> Place
    requires belongs { IsOf queue.now pass.old }
    requires drawn { (pass_view pass.old).facts.doing ≡ doing.Drawn number }
    requires spare { CanExtend queue.now pass.old }
    ensures belongs { IsOf queue.now pass.new }
    ensures place { (result.index ≡ number) × KnowsPlace (pass_view pass.new) result }
    ensures searched { HasSearched number pass.old pass.new }
{
    match locate(queue, pass, number) {
        Ok(Found::At(at)) => at,
        Ok(Found::Over(_)) => unreachable!(),
        Err(_) => unreachable!(),
    }
}
