//! One pool, call by call.

ghost use Rattle.std.specs.Prelude.{◌≡◌};
ghost use Rattle.cqs_rule.specs.Passes.{pass_view};
ghost use Rattle.cqs_rule.specs.Waits.{HasWait};
ghost use Rattle.cqs_pool.specs.Answers.{IsInHand};
ghost use Rattle.cqs_rule_laws.specs.CallRule.{IsReady};
ghost use Rattle.cqs_pool.specs.Calls.{IsMine};
ghost use Rattle.cqs_pool.specs.Elements.{number_of};

use super::calls::{free, take_now};
use cqs_pool::{Element, Placed, Pool, PoolLeft, PoolPass, PoolPolled, Taking};
use cqs_rule::{AcquireError, Config, MakeError, Wait};
use std::process::Abort;
use std::test::Fail;

const CONFIG: Config = Config {
    passes: 2,
    limit: 128,
    slots: 8,
};

// None is free, and the pass waits in line under this number.
fn take_later(rt: &impl Abort, pool: &Pool, pass: &mut PoolPass, number: u64) -> Wait
    requires belongs { IsMine pool.now pass.old }
    requires ready { IsReady (pass_view pass.old).facts }
    ensures belongs { IsMine pool.now pass.new }
    ensures ready { IsReady (pass_view pass.new).facts }
    ensures elements { (pass_view pass.new).facts.has.slots
        ≡ (pass_view pass.old).facts.has.slots }
    ensures waits { HasWait (pass_view pass.new) result }
{
    let Ok(Taking::Later(wait)) = pool.take(pass) else {
        panic!(rt; "no element is free");
    };
    assert!(rt; wait.number() == number);
    wait
}

// The waiter leaves the line; nothing was left to it.
fn leave(rt: &impl Abort, pool: &Pool, pass: &mut PoolPass, wait: Wait)
    requires belongs { IsMine pool.now pass.old }
    requires ready { IsReady (pass_view pass.old).facts }
    requires waits { HasWait (pass_view pass.old) wait }
    ensures belongs { IsMine pool.now pass.new }
    ensures ready { IsReady (pass_view pass.new).facts }
    ensures elements { (pass_view pass.new).facts.has.slots
        ≡ (pass_view pass.old).facts.has.slots }
{
    let PoolLeft::Cancelled(None) = pool.cancel(pass, wait) else {
        panic!(rt; "nothing came for the waiter");
    };
}

// The element goes to the waiter of this number, whose own the pass is.
fn send(
    rt: &impl Abort,
    pool: &Pool,
    pass: &mut PoolPass,
    element: Element,
    wait: Wait,
    number: u64,
) -> Wait
    requires belongs { IsMine pool.now pass.old }
    requires ready { IsReady (pass_view pass.old).facts }
    requires has { IsInHand (number_of element) (pass_view pass.old).facts }
    requires waits { HasWait (pass_view pass.old) wait }
    ensures belongs { IsMine pool.now pass.new }
    ensures ready { IsReady (pass_view pass.new).facts }
    ensures waits { HasWait (pass_view pass.new) result }
{
    let Ok(Placed::Sent(sent)) = pool.put(pass, element) else {
        panic!(rt; "the first waiter stands in its cell");
    };
    assert!(rt; sent == number);
    wait
}

// The waiter was served with this element.
fn look(rt: &impl Abort, pool: &Pool, pass: &mut PoolPass, wait: Wait, number: u32) -> Element
    requires belongs { IsMine pool.now pass.old }
    requires ready { IsReady (pass_view pass.old).facts }
    requires waits { HasWait (pass_view pass.old) wait }
    ensures belongs { IsMine pool.now pass.new }
    ensures ready { IsReady (pass_view pass.new).facts }
    ensures has { IsInHand (number_of result) (pass_view pass.new).facts }
{
    let PoolPolled::Granted(element) = pool.poll(pass, wait) else {
        panic!(rt; "the element was sent to the waiter");
    };
    assert!(rt; element.number() == number);
    element
}

// The waiter still waits.
fn look_in_vain(rt: &impl Abort, pool: &Pool, pass: &mut PoolPass, wait: Wait) -> Wait
    requires belongs { IsMine pool.now pass.old }
    requires ready { IsReady (pass_view pass.old).facts }
    requires waits { HasWait (pass_view pass.old) wait }
    ensures belongs { IsMine pool.now pass.new }
    ensures ready { IsReady (pass_view pass.new).facts }
    ensures elements { (pass_view pass.new).facts.has.slots
        ≡ (pass_view pass.old).facts.has.slots }
    ensures waits { HasWait (pass_view pass.new) result }
{
    let PoolPolled::Pending(wait) = pool.poll(pass, wait) else {
        panic!(rt; "nothing came for the waiter");
    };
    wait
}

// So many come to the line and leave it, one after the other.
fn come_and_leave(rt: &impl Abort, pool: &Pool, pass: &mut PoolPass, first: u64, end: u64)
    requires belongs { IsMine pool.now pass.old }
    requires ready { IsReady (pass_view pass.old).facts }
    ensures belongs { IsMine pool.now pass.new }
    ensures ready { IsReady (pass_view pass.new).facts }
    ensures elements { (pass_view pass.new).facts.has.slots
        ≡ (pass_view pass.old).facts.has.slots }
{
    for number in first..end {
        let wait = take_later(rt, pool, pass, number);
        leave(rt, pool, pass, wait);
    }
}

#[test]
fn a_pool_in_order(rt: HostRuntime) -> Result<(), Fail> {
    let (pool, mut pass) = Pool::new(rt.alloc(), 2, CONFIG)?;
    let _zero = take_now(&rt, &pool, &mut pass, 0);
    let one = take_now(&rt, &pool, &mut pass, 1);
    let wait = take_later(&rt, &pool, &mut pass, 2);
    leave(&rt, &pool, &mut pass, wait);
    let wait = take_later(&rt, &pool, &mut pass, 3);
    let wait = send(&rt, &pool, &mut pass, one, wait, 3);
    let _one = look(&rt, &pool, &mut pass, wait, 1);
    Ok(())
}

#[test]
fn an_element_that_came_too_early_to_leave(rt: HostRuntime) -> Result<(), Fail> {
    let (pool, mut pass) = Pool::new(rt.alloc(), 1, CONFIG)?;
    let element = take_now(&rt, &pool, &mut pass, 0);
    let wait = take_later(&rt, &pool, &mut pass, 1);
    let wait = look_in_vain(&rt, &pool, &mut pass, wait);
    let wait = send(&rt, &pool, &mut pass, element, wait, 1);
    let PoolLeft::TooLate(element) = pool.cancel(&mut pass, wait) else {
        panic!(rt; "the element came first");
    };
    assert!(rt; element.number() == 0);
    free(&rt, &pool, &mut pass, element, 2);
    Ok(())
}

#[test]
fn an_element_put_by_who_met_its_taker(rt: HostRuntime) -> Result<(), Fail> {
    let (pool, mut pass) = Pool::new(rt.alloc(), 1, CONFIG)?;
    let Ok(mut other) = pool.split(&mut pass) else {
        panic!(rt; "two passes may be made");
    };
    assert!(rt; !pool.sole(&mut pass));
    let _element = take_now(&rt, &pool, &mut other, 0);
    let Ok(()) = pool.meet(&mut pass, other) else {
        panic!(rt; "the other pass waits for nothing");
    };
    assert!(rt; pool.sole(&mut pass));
    Ok(())
}

#[test]
fn a_put_passes_over_who_left(rt: HostRuntime) -> Result<(), Fail> {
    let (pool, mut pass) = Pool::new(rt.alloc(), 1, CONFIG)?;
    let element = take_now(&rt, &pool, &mut pass, 0);
    come_and_leave(&rt, &pool, &mut pass, 1, 71);
    let _wait = take_later(&rt, &pool, &mut pass, 71);
    let Ok(Placed::Sent(sent)) = pool.put(&mut pass, element) else {
        panic!(rt; "the last of the line stands in its cell");
    };
    assert!(rt; sent == 71);
    Ok(())
}

#[test]
fn a_pool_that_is_worn(rt: HostRuntime) -> Result<(), Fail> {
    let config = Config {
        passes: 1,
        limit: 1,
        slots: 8,
    };
    let (pool, mut pass) = Pool::new(rt.alloc(), 2, config)?;
    let _element = take_now(&rt, &pool, &mut pass, 0);
    let Err(refused) = pool.take(&mut pass) else {
        panic!(rt; "as many numbers were drawn as the limit allows");
    };
    assert!(rt; refused == AcquireError::Worn);
    Ok(())
}

#[test]
fn pools_out_of_range(rt: HostRuntime) {
    let few_slots = Config {
        passes: 1,
        limit: 4,
        slots: 4,
    };
    for (elements, config) in [(0, CONFIG), (4097, CONFIG), (1, few_slots)] {
        let made = Pool::new(rt.alloc(), elements, config);
        assert!(rt; made.err() == Some(MakeError::BadConfig));
    }
}
