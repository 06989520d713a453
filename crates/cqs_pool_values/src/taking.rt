//! The take, and how a value leaves its slot.

ghost use Rattle.std.specs.Prelude.{◌≡◌, true, None, IsErrOf};
ghost use Rattle.cqs_rule.specs.Passes.{ample_of, pass_view};
ghost use Rattle.cqs_rule_laws.specs.Slots.{laid_in};
ghost use Rattle.cqs_pool.specs.Answers.{IsInHand};
ghost use Rattle.cqs_rule_laws.specs.CallRule.{IsReady};
ghost use Rattle.cqs_pool.specs.Calls.{IsMine, size_of};
ghost use Rattle.cqs_pool.specs.Elements.{number_of};
ghost use Rattle.cqs_pool_values.specs.Calls.{HasTaken, TakenLeaves};
ghost use Rattle.cqs_pool_values.specs.Items.{value_of, element_of};
ghost use Rattle.cqs_pool_values.specs.Pools.{Belongs, AreFilled, IsTidy};
ghost use Rattle.cqs_pool_values.specs.Values.{TookValue};

use crate::answers::ItemTaking;
use crate::item::Item;
use crate::opening::{ValuePass, ValuePool};
use cqs_pool::{Element, Taking};
use cqs_rule::{AcquireError, Kept};

impl<T: Send + Drop> ValuePool<T> {
    /// An item where the cell of the next number has an element, or else a wait for one. It is
    /// refused as worn where as many numbers were drawn as the limit allows, even if one is free;
    /// and as crowded where the pass has fewer than two slots spare and each was seen not free.
    pub fn take(&self, pass: &mut ValuePass<T>) -> Result<ItemTaking<T>, AcquireError>
        requires belongs { Belongs self.now pass.old }
        requires ready { IsReady (pass_view pass.old).facts }
        ensures belongs { Belongs self.now pass.new }
        ensures taken { HasTaken (pass_view pass.old) result (pass_view pass.new) }
        ensures leaves { TakenLeaves (pass_view pass.old) result (pass_view pass.new) }
        ensures ready { IsReady (pass_view pass.new).facts }
        ensures never_crowded { ample_of self.now.pool.queue ≡ true
            → ¬ IsErrOf result AcquireError.Crowded }
    {
        match self.pool.take(pass) {
            Ok(Taking::Took(element)) => Ok(ItemTaking::Took(self.take_out(pass, element))),
            Ok(Taking::Later(wait)) => Ok(ItemTaking::Later(wait)),
            Err(error) => Err(error),
        }
    }

    // Takes the value of an element out of its slot, for a pass that has the element in hand and
    // hasn't opened the slot since it came.
    pub(crate) fn take_out(&self, pass: &mut ValuePass<T>, element: Element) -> Item<T>
        requires mine { IsMine self.now.pool pass.old }
        requires filled { AreFilled (size_of self.now.pool) (pass_view pass.old).handed }
        requires tidy { IsTidy (pass_view pass.old) }
        requires has { IsInHand (number_of element) (pass_view pass.old).facts }
        requires bare { laid_in (pass_view pass.old).laid (number_of element) ≡ None }
        ensures belongs { Belongs self.now pass.new }
        ensures element { element_of result ≡ element }
        ensures took { TookValue (number_of element) (value_of result) (pass_view pass.old)
            (pass_view pass.new) }
    {
        match self.pool.queue().swap_slot(pass, element.number(), None) {
            Some(Kept { value }) => Item { value, element },
            None => unreachable!(),
        }
    }
}
