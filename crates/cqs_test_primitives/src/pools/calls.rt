//! What a pass of a pool does in more tests than one, with what the pool must answer.

ghost use Rattle.std.specs.Prelude.{◌≡◌};
ghost use Rattle.cqs_rule.specs.Passes.{pass_view};
ghost use Rattle.cqs_pool.specs.Answers.{IsInHand};
ghost use Rattle.cqs_rule_laws.specs.CallRule.{IsReady};
ghost use Rattle.cqs_pool.specs.Calls.{IsMine};
ghost use Rattle.cqs_pool.specs.Elements.{number_of};

use cqs_pool::{Element, Placed, Pool, PoolPass, Taking};
use std::process::Abort;

/// The pass takes this element, which is free.
pub fn take_now(rt: &impl Abort, pool: &Pool, pass: &mut PoolPass, number: u32) -> Element
    requires belongs { IsMine pool.now pass.old }
    requires ready { IsReady (pass_view pass.old).facts }
    ensures belongs { IsMine pool.now pass.new }
    ensures ready { IsReady (pass_view pass.new).facts }
    ensures has { IsInHand (number_of result) (pass_view pass.new).facts }
    ensures number { number_of result ≡ number }
{
    let Ok(Taking::Took(element)) = pool.take(pass) else {
        panic!(rt; "an element stands in the cell of the number");
    };
    if element.number() != number {
        panic!(rt; "it is the first of those that are free");
    }
    element
}

/// Nobody waits, and the element is free in the cell of this number.
pub fn free(rt: &impl Abort, pool: &Pool, pass: &mut PoolPass, element: Element, number: u64)
    requires belongs { IsMine pool.now pass.old }
    requires ready { IsReady (pass_view pass.old).facts }
    requires has { IsInHand (number_of element) (pass_view pass.old).facts }
    ensures belongs { IsMine pool.now pass.new }
    ensures ready { IsReady (pass_view pass.new).facts }
{
    let Ok(Placed::Left(left)) = pool.put(pass, element) else {
        panic!(rt; "nobody waits");
    };
    assert!(rt; left == number);
}
