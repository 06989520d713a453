//! The steps of a latch on its words, each under the conditions in which its event may be shown.

ghost use Rattle.std.specs.Prelude.{◌≡◌, true, false, [], pos, ◌≤ℤ◌};
ghost use Rattle.cqs_core.specs.declared.doings.Doing.TheVariants.{Idle, TryAt};
ghost use Rattle.cqs_latch.specs.LatchEvents.{loads_to_count, counts_down, loads_to_wait, comes, turns_back, opens};
ghost use Rattle.cqs_latch.specs.LatchTold.{OnWord, ReadsCount, ReadsWaiters, NextIs};
ghost use Rattle.cqs_rule.specs.Passes.{pass_view, IsOf};
ghost use Rattle.cqs_words.specs.State.{count_in, is_above_zero};

use crate::client::LatchClient;
use crate::events::{Come, CountDown, LoadToCount, LoadToWait, Open, TurnBack};
use cqs_rule::{Carries, Counts, Pass, Queue, SUSPENDS_WORD};
use cqs_words::WaitersWord;

// The client's words in which the count stands, and the waiters with the done bit.
const COUNT: u32 = 0;

pub(crate) const WAITERS: u32 = 1;

/// Loads the count for a count down: it is used up, or the pass may go on with `count_down`. It
/// answers the word found.
#[tactic(auto, using(crate::proofs::WordsFound::on_count))]
pub(crate) fn load_to_count<T: Carries>(
    queue: &Queue<LatchClient<T>>,
    pass: &mut Pass<LatchClient<T>>,
) -> u64
    requires belongs { IsOf queue.now pass.old }
    requires idle { (pass_view pass.old).facts.doing ≡ Idle }
    ensures belongs { IsOf queue.now pass.new }
    ensures saw { OnWord 0 loads_to_count ReadsCount (pass_view pass.old) result
        (pass_view pass.new) }
{
    queue.load_word::<LoadToCount>(pass, COUNT)
}

/// Takes one from the count that was loaded above 0. It answers the word found.
#[tactic(auto, using(crate::proofs::WordsFound::on_count))]
pub(crate) fn count_down<T: Carries>(
    queue: &Queue<LatchClient<T>>,
    pass: &mut Pass<LatchClient<T>>,
    loaded: u64,
) -> u64
    requires belongs { IsOf queue.now pass.old }
    requires loaded { (pass_view pass.old).facts.doing ≡ TryAt (count_in loaded) }
    requires above { is_above_zero loaded ≡ true }
    ensures belongs { IsOf queue.now pass.new }
    ensures saw { OnWord 0 counts_down ReadsCount (pass_view pass.old) result
        (pass_view pass.new) }
{
    queue.add_word::<CountDown>(pass, COUNT, -1)
}

/// Loads the count for a wait: it is used up, or the pass may go on with `come` or `turn_back`. It
/// answers the word found.
#[tactic(auto, using(crate::proofs::WordsFound::on_count))]
pub(crate) fn load_to_wait<T: Carries>(
    queue: &Queue<LatchClient<T>>,
    pass: &mut Pass<LatchClient<T>>,
) -> u64
    requires belongs { IsOf queue.now pass.old }
    requires idle { (pass_view pass.old).facts.doing ≡ Idle }
    ensures belongs { IsOf queue.now pass.new }
    ensures saw { OnWord 0 loads_to_wait ReadsCount (pass_view pass.old) result
        (pass_view pass.new) }
{
    queue.load_word::<LoadToWait>(pass, COUNT)
}

/// Adds one to the waiters: the pass is at the door, or the latch is open by now. It answers the
/// word found.
#[tactic(auto, using(crate::proofs::WordsFound::on_waiters))]
pub(crate) fn come<T: Carries>(
    queue: &Queue<LatchClient<T>>,
    pass: &mut Pass<LatchClient<T>>,
    loaded: u64,
) -> u64
    requires belongs { IsOf queue.now pass.old }
    requires loaded { (pass_view pass.old).facts.doing ≡ TryAt (count_in loaded) }
    requires above { is_above_zero loaded ≡ true }
    requires may_draw { (pass_view pass.old).facts.may_draw ≡ true }
    ensures belongs { IsOf queue.now pass.new }
    ensures saw { OnWord 1 comes ReadsWaiters (pass_view pass.old) result (pass_view pass.new) }
{
    queue.add_word::<Come>(pass, WAITERS, 1)
}

/// Turns back, by a load of the count that shows nothing: the pass may not draw a number.
#[tactic(auto, using(crate::proofs::WordsFound::on_count))]
pub(crate) fn turn_back<T: Carries>(
    queue: &Queue<LatchClient<T>>,
    pass: &mut Pass<LatchClient<T>>,
    loaded: u64,
) -> u64
    requires belongs { IsOf queue.now pass.old }
    requires loaded { (pass_view pass.old).facts.doing ≡ TryAt (count_in loaded) }
    requires above { is_above_zero loaded ≡ true }
    ensures belongs { IsOf queue.now pass.new }
    ensures saw { OnWord 0 turns_back ReadsCount (pass_view pass.old) result
        (pass_view pass.new) }
{
    queue.load_word::<TurnBack>(pass, COUNT)
}

/// Sets the done bit, by a pass that counted down the last one. It answers the word found: the pass
/// owes a resumption for each waiter that was counted there.
#[tactic(auto, using(crate::proofs::WordsFound::on_waiters))]
pub(crate) fn open<T: Carries>(
    queue: &Queue<LatchClient<T>>,
    pass: &mut Pass<LatchClient<T>>,
) -> u64
    requires belongs { IsOf queue.now pass.old }
    requires last { (pass_view pass.old).facts.doing ≡ TryAt (pos 0) }
    ensures belongs { IsOf queue.now pass.new }
    ensures saw { OnWord 1 opens ReadsWaiters (pass_view pass.old) result (pass_view pass.new) }
{
    queue.or_word::<Open>(pass, WAITERS, WaitersWord::DONE_BIT)
}

/// Loads the suspend counter: the number that the next wait will have. A pass that finds it below
/// the limit may draw.
#[tactic(auto, using(crate::proofs::WordsFound::next_is))]
pub(crate) fn next_wait<T: Carries>(
    queue: &Queue<LatchClient<T>>,
    pass: &mut Pass<LatchClient<T>>,
) -> u64
    requires belongs { IsOf queue.now pass.old }
    ensures belongs { IsOf queue.now pass.new }
    ensures saw { NextIs (pass_view pass.old) result (pass_view pass.new) }
{
    queue.load_table::<Counts>(pass, SUSPENDS_WORD)
}
