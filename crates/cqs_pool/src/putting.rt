//! The put, and the end of one that was handed back.

ghost use Rattle.std.specs.Prelude.{◌≡◌, [], true, IsOk, IfOk, IfErr, OnOk, OnErr};
ghost use Rattle.cqs_rule_laws.specs.Crew.{IsBetween};
ghost use Rattle.cqs_rule_laws.specs.Lists.{without};
ghost use Rattle.cqs_rule.specs.Claims.{WasCrowded};
ghost use Rattle.cqs_rule.specs.Owed.{HasUnder, under_payload, under_reached};
ghost use Rattle.cqs_rule.specs.Passes.{ample_of, pass_view};
ghost use Rattle.cqs_pool.specs.Alone.{CanEnd, IsPlainPut, IsPlainEnd};
ghost use Rattle.cqs_pool.specs.Answers.{Ends, IsInHand};
ghost use Rattle.cqs_rule_laws.specs.CallRule.{IsReady};
ghost use Rattle.cqs_pool.specs.Calls.{IsMine, CallRule, plain_after};
ghost use Rattle.cqs_pool.specs.Elements.{number_of};
ghost use Rattle.cqs_pool.specs.Entries.{put_entries, put_further, placed_further};
ghost use Rattle.cqs_pool.specs.Steps.{HasDrawnPast, IsFurther};
ghost use Rattle.cqs_pool.specs.Values.{IsFull, GaveValue};

use crate::answers::{Placed, placed_by};
use crate::element::Element;
use crate::pool::{Pool, PoolPass};
use cqs_resume::{finish, resume_from};
use cqs_rule::{Carries, Crowded, Under};

impl<T: Carries + Send> Pool<T> {
    /// Puts an element back that the pass has in hand, because it got it or met the pass that did:
    /// it goes to the first who waits, or is free in the next cell. An element that carries a value
    /// hands in the value that lies in its slot: something must lie there. It is refused as crowded
    /// where the pass has no spare slot and can't claim one, since each was seen not free. Then the
    /// element comes back, and what was laid into its slot lies there still.
    pub fn put(
        &self,
        pass: &mut PoolPass<T>,
        element: Element,
    ) -> Result<Placed, (Element, Crowded)>
        requires belongs { IsMine self.now pass.old }
        requires ready { IsReady (pass_view pass.old).facts }
        requires has { IsInHand (number_of element) (pass_view pass.old).facts }
        requires full { IsFull T.kept (number_of element) (pass_view pass.old) }
        ensures belongs { IsMine self.now pass.new }
        ensures called { CallRule (pass_view pass.old)
            (put_entries (pass_view pass.old).number (number_of element) result)
            (put_further (number_of element) result) (pass_view pass.new) }
        ensures handed { OnOk result (GaveValue T.kept (number_of element) (pass_view pass.old)
            (pass_view pass.new)) }
        ensures crowded { OnErr result (WasCrowded 1 (pass_view pass.old).facts
            (pass_view pass.old) (pass_view pass.new)) }
        ensures never_crowded { ample_of self.now.queue ≡ true → IsOk result }
        ensures back { IfErr result (λ refused. refused.0 ≡ element) }
        ensures laid { OnErr result
            ((pass_view pass.new).laid ≡ (pass_view pass.old).laid) }
        ensures ready { OnErr result (IsReady (pass_view pass.new).facts) }
        ensures ends { IfOk result (λ placed. Ends (pass_view pass.old) (number_of element)
            (without (number_of element) (pass_view pass.old).facts.has.slots)
            (pass_view pass.old).facts.waits placed (pass_view pass.new)) }
        ensures between { IsBetween (pass_view pass.new).facts }
        ensures alone { (pass_view pass.old).alone ≡ true
            → IfOk result (λ placed. IsPlainPut (pass_view pass.old) placed
            (pass_view pass.new)) }
    {
        let Ok(()) = self.queue.claim_spares(pass, 1) else {
            return Err((element, Crowded));
        };
        let payload = element.number;
        let number = self.queue.put_element(pass, payload);
        Ok(placed_by(resume_from(&self.queue, pass, number, payload)))
    }

    /// Goes on with an element that is on its way, and whose resumption was handed back. It may be
    /// handed back again: where as many numbers were passed over as one call may, or for want of a
    /// slot.
    pub fn finish(&self, pass: &mut PoolPass<T>, under: Under) -> Placed
        requires belongs { IsMine self.now pass.old }
        requires owes { HasUnder (pass_view pass.old).facts under }
        requires further { (pass_view pass.old).facts.has.further ≡ 0 }
        ensures belongs { IsMine self.now pass.new }
        ensures called { CallRule (pass_view pass.old) []
            (placed_further (under_payload under) result) (pass_view pass.new) }
        ensures ends { Ends (pass_view pass.old) (under_payload under)
            (pass_view pass.old).facts.has.slots (pass_view pass.old).facts.waits result
            (pass_view pass.new) }
        ensures further { ample_of self.now.queue ≡ true
            → IsFurther (under_reached under) result }
        ensures drawn_past { HasDrawnPast (under_reached under) result }
        ensures between { IsBetween (pass_view pass.new).facts }
        ensures alone { (pass_view pass.old).alone ≡ true
            → CanEnd (plain_after (pass_view pass.old))
            → IsPlainEnd (pass_view pass.old) result (pass_view pass.new) }
    {
        placed_by(finish(&self.queue, pass, under))
    }
}
