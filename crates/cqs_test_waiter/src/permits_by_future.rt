//! A future that acquires: one that is polled until it is ready, and one that is given up.

use cqs_rule::Config;
use cqs_semaphore::{Acquired, Released, Semaphore};
use cqs_waiter::AcquireFuture;
use futures::FutureExt;
use futures::executor::block_on;
use futures::task::Poll;
use futures::test::MockTask;
use std::test::Fail;

const CONFIG: Config = Config {
    passes: 2,
    limit: 4,
    slots: 6,
};

#[test]
fn a_free_permit_is_ready_at_the_first_poll(rt: HostRuntime) -> Result<(), Fail> {
    let (semaphore, pass) = Semaphore::new(rt.alloc(), 1, CONFIG)?;
    let done = block_on(&rt, AcquireFuture::new(&semaphore, pass))?;
    let Ok(permit) = done.got else {
        panic!(rt; "it is free");
    };
    assert_eq!(rt; permit.number(), None);
    assert_eq!(rt; done.pass.held(), 1);
    Ok(())
}

#[test]
fn a_future_that_never_began_hands_its_pass_back(rt: HostRuntime) -> Result<(), Fail> {
    let (semaphore, pass) = Semaphore::new(rt.alloc(), 1, CONFIG)?;
    let (pass, answer) = AcquireFuture::new(&semaphore, pass).give_up();
    assert!(rt; answer.is_none());
    assert_eq!(rt; (pass.number(), pass.held(), pass.waits()), (0, 0, 0));
    Ok(())
}

#[test]
fn a_held_permit_is_not_ready_at_once(rt: HostRuntime) -> Result<(), Fail> {
    let (semaphore, mut pass) = Semaphore::new(rt.alloc(), 1, CONFIG)?;
    let Ok(second) = semaphore.split(&mut pass) else {
        panic!(rt; "one was made of two");
    };
    let Ok(Acquired::Now(_permit)) = semaphore.acquire(&mut pass) else {
        panic!(rt; "it is free");
    };
    let ready = AcquireFuture::new(&semaphore, second).now_or_never(&rt)?;
    assert!(rt; ready.is_none());
    assert_eq!(rt; semaphore.state(&mut pass), -1);
    Ok(())
}

#[test]
fn a_future_polled_by_hand_is_pending_until_a_permit_comes(rt: HostRuntime) -> Result<(), Fail> {
    let (semaphore, mut pass) = Semaphore::new(rt.alloc(), 1, CONFIG)?;
    let Ok(second) = semaphore.split(&mut pass) else {
        panic!(rt; "one was made of two");
    };
    let Ok(Acquired::Now(permit)) = semaphore.acquire(&mut pass) else {
        panic!(rt; "it is free");
    };
    let mut future = AcquireFuture::new(&semaphore, second);
    let task = MockTask::new(&rt)?;
    let Poll::Pending = task.poll(&mut future) else {
        panic!(rt; "the permit is held");
    };
    assert!(rt; task.is_woken());
    let Ok(Released::Sent(0)) = semaphore.release(&mut pass, permit) else {
        panic!(rt; "the future waits");
    };
    let Poll::Ready(done) = task.poll(&mut future) else {
        panic!(rt; "the permit has come");
    };
    assert_eq!(rt; done.got.ok().and_then(|permit| permit.number()), Some(0));
    Ok(())
}
