//! A permit on its way comes to the first of the line.

ghost use Rattle.std.specs.Prelude.{◌≡◌, ◌++◌, [], ◌∷◌, true};
ghost use Rattle.cqs_core.specs.declared.entries.Entry.TheVariants.{Deliver};
ghost use Rattle.cqs_rule.specs.Owed.{HasUnder};
ghost use Rattle.cqs_rule.specs.Passes.{ample_of, pass_view};
ghost use Rattle.cqs_rule_laws.specs.Views.{IsSame};
ghost use Rattle.cqs_semaphore.specs.Alone.{IsFirstOf};
ghost use Rattle.cqs_semaphore.specs.Calls.{IsMine, Rests, plain_after};

use cqs_rule::Under;
use cqs_semaphore::{Released, SemPass, Semaphore};

/// Goes on with a permit that is on its way, until it comes to the first of the line.
#[cold]
#[inline(never)]
pub(super) fn send(semaphore: &Semaphore, pass: &mut SemPass, under: Under) -> u64
    requires ample { ample_of semaphore.now.queue ≡ true }
    requires mine { IsMine semaphore.now pass.old }
    requires owes { HasUnder (pass_view pass.old).facts under }
    requires further { (pass_view pass.old).facts.has.further ≡ 0 }
    requires alone { (pass_view pass.old).alone ≡ true }
    requires way { (plain_after (pass_view pass.old)).way ≡ 1 }
    ensures mine { IsMine semaphore.now pass.new }
    ensures first { IsFirstOf (plain_after (pass_view pass.old)).line result }
    ensures seen { (pass_view pass.new).seen ≡ (pass_view pass.old).seen ++ Deliver result ∷ [] }
    ensures same { IsSame (pass_view pass.old) (pass_view pass.new) }
    ensures rests { Rests (pass_view pass.old) (pass_view pass.old).facts.has.held
        (pass_view pass.old).facts.waits (pass_view pass.new) }
{
    let mut reached = under.reached();
    let mut under = under;
    loop {
        match semaphore.finish(pass, under) {
            Released::Sent(number) => return number,
            Released::Under(next) => {
                reached = next.reached();
                under = next;
            }
            _ => unreachable!(),
        }
    }
}
