//! The steps of a semaphore on its state, each under the conditions in which its event may be
//! shown.

ghost use Rattle.std.specs.Prelude.{◌≡◌, ◌<◌, true, []};
ghost use Rattle.cqs_core.specs.declared.doings.Doing.TheVariants.{Idle, TryAt};
ghost use Rattle.cqs_rule.specs.Passes.{pass_view, IsOf};
ghost use Rattle.cqs_rule_laws.specs.Events.{in_any_case, where_found};
ghost use Rattle.cqs_semaphore_client.specs.Semaphore.{
  takes_one,
  loads_to_try,
  tries,
  gives_one,
};
ghost use Rattle.cqs_semaphore_client.specs.SemaphoreSlots.{IsFull, GivesValue};
ghost use Rattle.cqs_semaphore_client.specs.SemaphoreSteps.{OnState, NextIs};
ghost use Rattle.cqs_words.specs.State.{count_in, is_above_zero};
ghost use Rattle.cqs_rule_laws.specs.Silent.{silent};

use crate::semaphore::{Give, SemClient, Take, TryLoad, TrySwap};
use cqs_rule::{Carries, Counts, Pass, Queue, SUSPENDS_WORD, Silent};
use cqs_words::PackedState;

// The client's word in which the state stands.
pub(super) const STATE: u32 = 0;

/// Takes one from the state: the pass has a permit, or is at the door. It answers the state found.
#[tactic(auto, using(crate::proofs::StateFound::on_state))]
pub fn take_permit<T: Carries>(
    queue: &Queue<SemClient<T>>,
    pass: &mut Pass<SemClient<T>>,
) -> PackedState
    requires belongs { IsOf queue.now pass.old }
    requires idle { (pass_view pass.old).facts.doing ≡ Idle }
    requires may_draw { (pass_view pass.old).facts.may_draw ≡ true }
    ensures belongs { IsOf queue.now pass.new }
    ensures saw { OnState takes_one in_any_case (pass_view pass.old) result.word
        (pass_view pass.new) }
{
    PackedState {
        word: queue.add_word::<Take>(pass, STATE, -1),
    }
}

/// Loads the state for a try: no permit is free, or the pass may go on with `try_take`. It answers
/// the state found.
#[tactic(auto, using(crate::proofs::StateFound::on_state))]
pub fn load_state<T: Carries>(
    queue: &Queue<SemClient<T>>,
    pass: &mut Pass<SemClient<T>>,
) -> PackedState
    requires belongs { IsOf queue.now pass.old }
    requires idle { (pass_view pass.old).facts.doing ≡ Idle }
    ensures belongs { IsOf queue.now pass.new }
    ensures saw { OnState loads_to_try in_any_case (pass_view pass.old) result.word
        (pass_view pass.new) }
{
    PackedState {
        word: queue.load_word::<TryLoad>(pass, STATE),
    }
}

/// Exchanges the state that a try loaded for one less. It answers the state found: the pass has a
/// permit where that is `saw`.
#[tactic(auto, using(crate::proofs::StateFound::on_state))]
pub fn try_take<T: Carries>(
    queue: &Queue<SemClient<T>>,
    pass: &mut Pass<SemClient<T>>,
    saw: PackedState,
) -> PackedState
    requires belongs { IsOf queue.now pass.old }
    requires loaded { (pass_view pass.old).facts.doing ≡ TryAt (count_in saw.word) }
    requires free { is_above_zero saw.word ≡ true }
    ensures belongs { IsOf queue.now pass.new }
    ensures saw { OnState tries (where_found saw.word) (pass_view pass.old) result.word
        (pass_view pass.new) }
{
    PackedState {
        word: queue.swap_word::<TrySwap>(pass, STATE, saw.word, saw.one_less().word),
    }
}

/// Adds one to the state: the permit is free, or the pass owes a resumption of payload 0. It
/// answers the state found. Where a value moves with the permit, it must lie in the slot; it is
/// handed in.
#[tactic(auto, using(crate::proofs::StateFound::on_state))]
pub fn give_permit<T: Carries>(
    queue: &Queue<SemClient<T>>,
    pass: &mut Pass<SemClient<T>>,
) -> PackedState
    requires belongs { IsOf queue.now pass.old }
    requires idle { (pass_view pass.old).facts.doing ≡ Idle }
    requires holds { 0 < (pass_view pass.old).facts.has.held }
    requires full { IsFull T.kept (pass_view pass.old) }
    ensures belongs { IsOf queue.now pass.new }
    ensures saw { OnState gives_one in_any_case (pass_view pass.old) result.word
        (pass_view pass.new) }
    ensures handed { GivesValue T.kept (pass_view pass.old) (pass_view pass.new) }
{
    if T::slots() == 0 {
        return PackedState {
            word: queue.add_word::<Give>(pass, STATE, 1),
        };
    }
    PackedState {
        word: queue.give_word::<Give>(pass, STATE, 1, 0),
    }
}

/// Loads the state, whatever the pass is doing, and answers the word found. It shows no event.
#[tactic(auto, using(crate::proofs::StateFound::on_state))]
pub fn read_state<T: Carries>(
    queue: &Queue<SemClient<T>>,
    pass: &mut Pass<SemClient<T>>,
) -> PackedState
    requires belongs { IsOf queue.now pass.old }
    ensures belongs { IsOf queue.now pass.new }
    ensures saw { OnState silent in_any_case (pass_view pass.old) result.word (pass_view pass.new) }
{
    PackedState {
        word: queue.load_word::<Silent>(pass, STATE),
    }
}

/// Loads the suspend counter: the number that the next wait will have. A pass that finds it below
/// the limit may draw.
#[tactic(auto, using(crate::proofs::StateFound::next_is))]
pub fn next_wait<T: Carries>(queue: &Queue<SemClient<T>>, pass: &mut Pass<SemClient<T>>) -> u64
    requires belongs { IsOf queue.now pass.old }
    ensures belongs { IsOf queue.now pass.new }
    ensures saw { NextIs (pass_view pass.old) result (pass_view pass.new) }
{
    queue.load_table::<Counts>(pass, SUSPENDS_WORD)
}
