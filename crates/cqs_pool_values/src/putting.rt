//! The put, and the end of one.

ghost use Rattle.std.specs.Prelude.{◌≡◌, true, [], IsOk, IfOk, IfErr, OnErr, OnOk};
ghost use Rattle.cqs_rule_laws.specs.Crew.{IsBetween};
ghost use Rattle.cqs_rule.specs.Claims.{Crowds};
ghost use Rattle.cqs_rule.specs.Owed.{HasUnder, under_payload, under_reached};
ghost use Rattle.cqs_rule.specs.Passes.{ample_of, pass_view};
ghost use Rattle.cqs_rule_laws.specs.SlotSteps.{WasHandedBy};
ghost use Rattle.cqs_pool.specs.Pool.{pool_object};
ghost use Rattle.cqs_pool.specs.Alone.{CanEnd, IsPlainEnd};
ghost use Rattle.cqs_pool.specs.Answers.{Ends, IsInHand};
ghost use Rattle.cqs_rule_laws.specs.CallRule.{IsReady};
ghost use Rattle.cqs_pool.specs.Calls.{IsMine, CallRule, plain_after};
ghost use Rattle.cqs_pool.specs.Entries.{placed_further};
ghost use Rattle.cqs_pool.specs.Steps.{HasDrawnPast, IsFurther};
ghost use Rattle.cqs_pool_values.specs.Calls.{HasPut, PutLeaves};
ghost use Rattle.cqs_pool_values.specs.Items.{value_of, number_of, element_number};
ghost use Rattle.cqs_pool_values.specs.Pools.{Belongs};
ghost use Rattle.cqs_pool_values.specs.Values.{in_slot, LaidValue};

use crate::item::Item;
use crate::opening::{ValuePass, ValuePool};
use cqs_pool::{Element, Placed};
use cqs_rule::{Crowded, Kept, Under};

impl<T: Send + Drop> ValuePool<T> {
    /// Puts an item back that the pass has in hand, because it got it or met the pass that did,
    /// with the value that it has now: it goes to the first who waits, or is free in the next cell.
    /// It is refused as crowded where the pass has no slot spare and each was seen not free; the
    /// item comes back then, with its value.
    pub fn put(&self, pass: &mut ValuePass<T>, item: Item<T>) -> Result<Placed, (Item<T>, Crowded)>
        requires belongs { Belongs self.now pass.old }
        requires ready { IsReady (pass_view pass.old).facts }
        requires has { IsInHand (number_of item) (pass_view pass.old).facts }
        ensures belongs { Belongs self.now pass.new }
        ensures crowded { OnErr result (Crowds 1 (pass_view pass.old) (pass_view pass.new)) }
        ensures never_crowded { ample_of self.now.pool.queue ≡ true → IsOk result }
        ensures back { IfErr result (λ refused. refused.0 ≡ item) }
        ensures ready { OnErr result (IsReady (pass_view pass.new).facts) }
        ensures put { IfOk result (λ placed. HasPut (number_of item) (value_of item)
            (pass_view pass.old) placed (pass_view pass.new)) }
        ensures handed { OnOk result (WasHandedBy pool_object (number_of item)
            (in_slot (value_of item)) (pass_view pass.old) (pass_view pass.new)) }
        ensures between { IsBetween (pass_view pass.new).facts }
        ensures leaves { IfOk result (λ placed. PutLeaves (number_of item) (pass_view pass.old)
            placed (pass_view pass.new)) }
    {
        // Before the value leaves its item: a put that was refused would leave it in the slot.
        let Ok(()) = self.pool.queue().claim_spares(pass, 1) else {
            return Err((item, Crowded));
        };
        let Item { value, element } = item;
        self.lay(pass, &element, value);
        match self.pool.put(pass, element) {
            Ok(placed) => Ok(placed),
            Err(_) => unreachable!(),
        }
    }

    // Lays the value of an item into its slot.
    fn lay(&self, pass: &mut ValuePass<T>, element: &Element, value: T)
        requires belongs { IsMine self.now.pool pass.old }
        requires has { IsInHand (element_number element.now) (pass_view pass.old).facts }
        ensures belongs { IsMine self.now.pool pass.new }
        ensures laid { LaidValue (element_number element.now) value (pass_view pass.old)
            (pass_view pass.new) }
    {
        let _ = self
            .pool
            .queue()
            .swap_slot(pass, element.number(), Some(Kept { value }));
    }

    /// Goes on with an element that is on its way, and whose resumption was handed back. Its value
    /// lies in its slot. It may be handed back again: where as many numbers were passed over as one
    /// call may, or for want of a slot.
    pub fn finish(&self, pass: &mut ValuePass<T>, under: Under) -> Placed
        requires belongs { Belongs self.now pass.old }
        requires owes { HasUnder (pass_view pass.old).facts under }
        requires further { (pass_view pass.old).facts.has.further ≡ 0 }
        ensures belongs { Belongs self.now pass.new }
        ensures called { CallRule (pass_view pass.old) []
            (placed_further (under_payload under) result) (pass_view pass.new) }
        ensures ends { Ends (pass_view pass.old) (under_payload under)
            (pass_view pass.old).facts.has.slots (pass_view pass.old).facts.waits result
            (pass_view pass.new) }
        ensures further { ample_of self.now.pool.queue ≡ true
            → IsFurther (under_reached under) result }
        ensures drawn_past { HasDrawnPast (under_reached under) result }
        ensures between { IsBetween (pass_view pass.new).facts }
        ensures alone { (pass_view pass.old).alone ≡ true
            → CanEnd (plain_after (pass_view pass.old))
            → IsPlainEnd (pass_view pass.old) result (pass_view pass.new) }
    {
        self.pool.finish(pass, under)
    }
}
