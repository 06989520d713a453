//! Several elements in one hand, and the order in which a lone caller takes them.

ghost use Rattle.std.specs.Prelude.{◌≡◌, ◌≢◌};
ghost use Rattle.cqs_rule.specs.Passes.{pass_view};
ghost use Rattle.cqs_pool.specs.Answers.{IsInHand};
ghost use Rattle.cqs_rule_laws.specs.CallRule.{IsReady};
ghost use Rattle.cqs_pool.specs.Calls.{IsMine};
ghost use Rattle.cqs_pool.specs.Elements.{number_of};

use super::calls::{free, take_now};
use cqs_pool::{Element, Placed, Pool, PoolPass, Taking};
use cqs_rule::Config;
use std::process::Abort;
use std::test::Fail;

const CONFIG: Config = Config {
    passes: 2,
    limit: 128,
    slots: 8,
};

// The pass takes this element, which is free, and keeps the one that it has.
fn take_beside(
    rt: &impl Abort,
    pool: &Pool,
    pass: &mut PoolPass,
    kept: &Element,
    number: u32,
) -> Element
    requires belongs { IsMine pool.now pass.old }
    requires ready { IsReady (pass_view pass.old).facts }
    requires kept { IsInHand (number_of kept.now) (pass_view pass.old).facts }
    ensures belongs { IsMine pool.now pass.new }
    ensures ready { IsReady (pass_view pass.new).facts }
    ensures kept { IsInHand (number_of kept.now) (pass_view pass.new).facts }
    ensures has { IsInHand (number_of result) (pass_view pass.new).facts }
    ensures number { number_of result ≡ number }
{
    let Ok(Taking::Took(element)) = pool.take(pass) else {
        panic!(rt; "an element stands in the cell of the number");
    };
    if element.number() != number {
        panic!(rt; "it is the first of those that are free");
    }
    element
}

// Nobody waits, and the element is free in the cell of this number; the pass keeps another one.
fn free_beside(
    rt: &impl Abort,
    pool: &Pool,
    pass: &mut PoolPass,
    kept: &Element,
    element: Element,
    number: u64,
)
    requires belongs { IsMine pool.now pass.old }
    requires ready { IsReady (pass_view pass.old).facts }
    requires kept { IsInHand (number_of kept.now) (pass_view pass.old).facts }
    requires has { IsInHand (number_of element) (pass_view pass.old).facts }
    requires apart { number_of kept.now ≢ number_of element }
    ensures belongs { IsMine pool.now pass.new }
    ensures ready { IsReady (pass_view pass.new).facts }
    ensures kept { IsInHand (number_of kept.now) (pass_view pass.new).facts }
{
    let Ok(Placed::Left(left)) = pool.put(pass, element) else {
        panic!(rt; "nobody waits");
    };
    assert!(rt; left == number);
}

#[test]
fn an_element_that_did_not_come_last_is_put(rt: HostRuntime) -> Result<(), Fail> {
    let (pool, mut pass) = Pool::new(rt.alloc(), 2, CONFIG)?;
    let zero = take_now(&rt, &pool, &mut pass, 0);
    let one = take_beside(&rt, &pool, &mut pass, &zero, 1);
    free_beside(&rt, &pool, &mut pass, &one, zero, 2);
    free(&rt, &pool, &mut pass, one, 3);
    Ok(())
}

#[test]
fn elements_come_in_the_order_in_which_they_were_put(rt: HostRuntime) -> Result<(), Fail> {
    let (pool, mut pass) = Pool::new(rt.alloc(), 3, CONFIG)?;
    let zero = take_now(&rt, &pool, &mut pass, 0);
    let one = take_beside(&rt, &pool, &mut pass, &zero, 1);
    free_beside(&rt, &pool, &mut pass, &zero, one, 3);
    free(&rt, &pool, &mut pass, zero, 4);
    let _two = take_now(&rt, &pool, &mut pass, 2);
    let _one = take_now(&rt, &pool, &mut pass, 1);
    let _zero = take_now(&rt, &pool, &mut pass, 0);
    Ok(())
}
