//! The reader of the state.

ghost use Rattle.std.specs.Prelude.{◌≡◌, [], ◌∷◌};
ghost use Rattle.cqs_core.specs.SemaphoreShown.{state_of};
ghost use Rattle.cqs_rule.specs.Passes.{pass_view, IsOf};
ghost use Rattle.cqs_rule_laws.specs.CallRule.{IsReady};
ghost use Rattle.cqs_semaphore.specs.Calls.{Rests, CallRule, plain_after};
ghost use Rattle.cqs_semaphore.specs.Causes.{FoundJust, StateWas};

use crate::semaphore::SemPass;
use cqs_rule::{Carries, Queue};
use cqs_semaphore_client::{SemClient, read_state};
use cqs_words::StateWord;

/// The state of a semaphore on this queue, synchronous or not: the free permits, less those who
/// wait with none on its way.
#[inline(always)]
pub fn state_now<T: Carries + Send>(queue: &Queue<SemClient<T>>, pass: &mut SemPass<T>) -> i64
    requires belongs { IsOf queue.now pass.old }
    requires ready { IsReady (pass_view pass.old).facts }
    ensures belongs { IsOf queue.now pass.new }
    ensures state { result ≡ state_of (plain_after (pass_view pass.new)) }
    ensures was { StateWas (pass_view pass.old) (state_of (plain_after (pass_view pass.new)))
        (pass_view pass.new).seen [] (pass_view pass.new) }
    ensures once { FoundJust (state_of (plain_after (pass_view pass.new)) ∷ [])
        (pass_view pass.old) (pass_view pass.new) }
    ensures called { CallRule (pass_view pass.old) [] [] (pass_view pass.new) }
    ensures rests { Rests (pass_view pass.old) (pass_view pass.old).facts.has.held
        (pass_view pass.old).facts.waits (pass_view pass.new) }
{
    StateWord::read(read_state(queue, pass).word).value
}
