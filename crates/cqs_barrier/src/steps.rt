//! The steps of a barrier on its remaining number, each under the conditions in which its event may
//! be shown. Each answers the word that it found.

ghost use Rattle.std.specs.Prelude.{◌≡◌, ◌+◌, ◌<◌, ◌^◌, true};
ghost use Rattle.cqs_core.specs.declared.doings.Doing.TheVariants.{Idle, Leaving};
ghost use Rattle.cqs_rule_laws.specs.Events.{in_any_case, where_found};
ghost use Rattle.cqs_rule.specs.Passes.{pass_view, IsOf};
ghost use Rattle.cqs_barrier.specs.Barrier.{arrives, looks_to_leave, withdraws};
ghost use Rattle.cqs_barrier.specs.BarrierWord.{OnWord};
ghost use Rattle.cqs_barrier.specs.Word.{remaining_in};

use crate::client::BarrierClient;
use crate::events::{Arrive, LookToLeave, Withdraw};
use crate::word::one_more;
use cqs_rule::{Carries, Pass, Queue};

// The client's word in which the remaining number stands.
const REMAINING: u32 = 0;

/// Has a party of the pass arrive: it is at the door, or it was the last and owes a resumption for
/// each of the others.
#[tactic(auto, using(crate::proofs::WordFound::on_word))]
pub fn arrive_once<T: Carries>(
    queue: &Queue<BarrierClient<T>>,
    pass: &mut Pass<BarrierClient<T>>,
) -> u64
    requires belongs { IsOf queue.now pass.old }
    requires idle { (pass_view pass.old).facts.doing ≡ Idle }
    requires may_draw { (pass_view pass.old).facts.may_draw ≡ true }
    requires holds { 0 < (pass_view pass.old).facts.has.held }
    ensures belongs { IsOf queue.now pass.new }
    ensures saw { OnWord arrives in_any_case (pass_view pass.old) result (pass_view pass.new) }
{
    queue.add_word::<Arrive>(pass, REMAINING, -1)
}

/// Loads the remaining number for a pass that is leaving a wait: where all have arrived its party
/// counts as through, and else it is still leaving.
#[tactic(auto, using(crate::proofs::WordFound::on_word))]
pub fn look_to_leave<T: Carries>(
    queue: &Queue<BarrierClient<T>>,
    pass: &mut Pass<BarrierClient<T>>,
    wait: u64,
) -> u64
    requires belongs { IsOf queue.now pass.old }
    requires leaving { (pass_view pass.old).facts.doing ≡ Leaving wait }
    ensures belongs { IsOf queue.now pass.new }
    ensures saw { OnWord looks_to_leave in_any_case (pass_view pass.old) result
        (pass_view pass.new) }
{
    let _wait = wait;
    queue.load_word::<LookToLeave>(pass, REMAINING)
}

/// Exchanges the number that was loaded for one more: the party is the pass's again where that was
/// still there, and else the pass is still leaving.
#[tactic(auto, using(crate::proofs::WordFound::on_word))]
pub fn withdraw_once<T: Carries>(
    queue: &Queue<BarrierClient<T>>,
    pass: &mut Pass<BarrierClient<T>>,
    wait: u64,
    saw: u64,
) -> u64
    requires belongs { IsOf queue.now pass.old }
    requires leaving { (pass_view pass.old).facts.doing ≡ Leaving wait }
    requires some { 0 < remaining_in saw }
    requires fits { saw + 1 < 2 ^ 64 }
    ensures belongs { IsOf queue.now pass.new }
    ensures saw { OnWord withdraws (where_found saw) (pass_view pass.old) result
        (pass_view pass.new) }
{
    let _wait = wait;
    queue.swap_word::<Withdraw>(pass, REMAINING, saw, one_more(saw))
}
