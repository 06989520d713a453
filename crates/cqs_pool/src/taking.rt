//! The take.

ghost use Rattle.std.specs.Prelude.{◌≡◌, true, IfOk, OnOk, IsErrOf};
ghost use Rattle.cqs_rule.specs.Passes.{ample_of, pass_view};
ghost use Rattle.cqs_pool.specs.Alone.{IsPlainTake, IsOnlyCaller, TakesFirst, TakesNew};
ghost use Rattle.cqs_pool.specs.Answers.{IsWorn, IsCrowded, IsBelow, Takes};
ghost use Rattle.cqs_rule_laws.specs.CallRule.{IsReady};
ghost use Rattle.cqs_pool.specs.Calls.{IsMine, CallRule};
ghost use Rattle.cqs_pool.specs.Entries.{took_entries, took_further};

use crate::answers::Taking;
use crate::element::Element;
use crate::pool::{Pool, PoolPass};
use cqs_rule::{AcquireError, Carries, Counts, SUSPENDS_WORD};
use cqs_suspend::{Suspended, enter};

impl<T: Carries + Send> Pool<T> {
    /// An element where the cell of the next number has one, or else a wait for one. It is refused
    /// as worn where as many numbers were drawn as the limit allows, even if an element is free;
    /// and else as crowded where it can't claim two spare slots, since each slot was seen not free.
    pub fn take(&self, pass: &mut PoolPass<T>) -> Result<Taking, AcquireError>
        requires belongs { IsMine self.now pass.old }
        requires ready { IsReady (pass_view pass.old).facts }
        ensures belongs { IsMine self.now pass.new }
        ensures called { CallRule (pass_view pass.old)
            (took_entries (pass_view pass.old).number result) (took_further result)
            (pass_view pass.new) }
        ensures worn { IsErrOf result AcquireError.Worn
            → IsWorn (pass_view pass.old) (pass_view pass.new) }
        ensures crowded { IsErrOf result AcquireError.Crowded
            → IsCrowded (pass_view pass.old) (pass_view pass.new) }
        ensures never_crowded { ample_of self.now.queue ≡ true
            → ¬ IsErrOf result AcquireError.Crowded }
        ensures below { OnOk result (IsBelow (pass_view pass.old) (pass_view pass.new)) }
        ensures took { IfOk result
            (λ taking. Takes (pass_view pass.old) taking (pass_view pass.new)) }
        ensures ready { IsReady (pass_view pass.new).facts }
        ensures alone { (pass_view pass.old).alone ≡ true
            → IfOk result (λ taking. IsPlainTake (pass_view pass.old) taking) }
        ensures new { IfOk result (λ taking. TakesNew (pass_view pass.old) taking) }
        ensures first { IsOnlyCaller (pass_view pass.old)
            → IfOk result (λ taking. TakesFirst (pass_view pass.old) taking) }
    {
        if self.queue.load_table::<Counts>(pass, SUSPENDS_WORD) >= self.queue.limit() {
            return Err(AcquireError::Worn);
        }
        let Ok(()) = self.queue.claim_spares(pass, 2) else {
            return Err(AcquireError::Crowded);
        };
        match enter(&self.queue, pass) {
            Suspended::Waits(wait) => Ok(Taking::Later(wait)),
            Suspended::Took { payload, number } => Ok(Taking::Took(Element {
                number: payload,
                wait: number,
            })),
        }
    }
}
