//! The try.

ghost use Rattle.std.specs.Prelude.{◌≡◌, [], true};
ghost use Rattle.cqs_rule.specs.Passes.{pass_view, IsOf};
ghost use Rattle.cqs_semaphore.specs.Alone.{IsPlainTry};
ghost use Rattle.cqs_semaphore.specs.Answers.{Tries};
ghost use Rattle.cqs_rule_laws.specs.CallRule.{IsReady};
ghost use Rattle.cqs_semaphore.specs.Calls.{IsMine, CallRule};
ghost use Rattle.cqs_words.specs.State.{StateFits, count_in};
ghost use Rattle.cqs_semaphore.specs.declared.answers.Tried.TheVariants.{Contended};
ghost use Rattle.cqs_semaphore.specs.Entries.{tried_entries};

use crate::answers::{Permit, Tried};
use crate::semaphore::{SemPass, Semaphore};
use cqs_rule::{Carries, Queue};
use cqs_semaphore_client::{SemClient, load_state, try_take};
use cqs_words::{PackedState, StateWord};

impl<T: Carries + Send> Semaphore<T> {
    /// A permit where one is free. It never waits.
    #[inline(always)]
    pub fn try_acquire(&self, pass: &mut SemPass<T>) -> Tried
        requires belongs { IsMine self.now pass.old }
        requires ready { IsReady (pass_view pass.old).facts }
        ensures belongs { IsMine self.now pass.new }
        ensures called { CallRule (pass_view pass.old)
            (tried_entries (pass_view pass.old).number result) [] (pass_view pass.new) }
        ensures tries { Tries (pass_view pass.old) result (pass_view pass.new) }
        ensures ready { IsReady (pass_view pass.new).facts }
        ensures alone { (pass_view pass.old).alone ≡ true
            → IsPlainTry (pass_view pass.old) result }
    {
        try_permit(&self.queue, pass)
    }
}

/// A permit of a semaphore on this queue, synchronous or not, where one is free.
#[inline(always)]
pub fn try_permit<T: Carries + Send>(queue: &Queue<SemClient<T>>, pass: &mut SemPass<T>) -> Tried
    requires belongs { IsOf queue.now pass.old }
    requires ready { IsReady (pass_view pass.old).facts }
    ensures belongs { IsOf queue.now pass.new }
    ensures called { CallRule (pass_view pass.old)
        (tried_entries (pass_view pass.old).number result) [] (pass_view pass.new) }
    ensures tries { Tries (pass_view pass.old) result (pass_view pass.new) }
    ensures ready { IsReady (pass_view pass.new).facts }
    ensures alone { (pass_view pass.old).alone ≡ true → IsPlainTry (pass_view pass.old) result }
{
    let saw = load_state(queue, pass);
    if !saw.is_above_zero() {
        return Tried::Busy;
    }
    let found = try_take(queue, pass, saw);
    if found.word == saw.word {
        return Tried::Got(Permit { number: None });
    }
    contention(saw, found)
}

// The two states of a try by which another caller was first.
#[inline]
fn contention(saw: PackedState, found: PackedState) -> Tried
    requires saw { StateFits (record { value = count_in saw.word }) }
    requires found { StateFits (record { value = count_in found.word }) }
    ensures { result ≡ Contended (count_in saw.word) (count_in found.word) }
{
    Tried::Contended {
        saw: StateWord::read(saw.word).value,
        found: StateWord::read(found.word).value,
    }
}
