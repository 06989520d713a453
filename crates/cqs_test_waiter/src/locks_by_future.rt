//! A future that locks: one that is polled until it is ready, one that is dropped, and one that is
//! given up.

use cqs_mutex::{Locked, Mutex};
use cqs_rule::Config;
use cqs_semaphore::Released;
use cqs_waiter::{LockFuture, LockOutcome};
use futures::executor::block_on;
use futures::task::{Context, Poll};
use futures::test::MockTask;
use futures::{Future, FutureExt};
use std::test::Fail;
use std::thread;

const CONFIG: Config = Config {
    passes: 2,
    limit: 4,
    slots: 6,
};

/// A future for a mutex around a number, as a user writes it for an executor.
#[derive(Drop)]
struct NumberLock<'a> {
    lock: LockFuture<'a, u64>,
}

impl Future for NumberLock<'_> {
    type Output = LockOutcome<u64>;

    ghost use Rattle.cqs_waiter.specs.LockFutures.{CanPollLock, GivesLock};

    ghost can_poll = { λ f. CanPollLock f.lock };

    ghost gives = { λ f. GivesLock f.lock };

    fn poll(&mut self, cx: &mut Context<'_>) -> Poll<LockOutcome<u64>> {
        self.lock.poll(cx)
    }
}

#[test]
fn a_free_mutex_is_ready_at_the_first_poll(rt: HostRuntime) -> Result<(), Fail> {
    let Ok((mutex, pass)) = Mutex::new(rt.alloc(), 5, CONFIG) else {
        return Ok(());
    };
    let lock = LockFuture::new(&mutex, pass);
    let done = block_on(&rt, NumberLock { lock })?;
    let mut pass = done.pass;
    let Ok(guard) = done.got else {
        panic!(rt; "it is free");
    };
    assert_eq!(rt; (*guard.get(), pass.held()), (5, 1));
    let Ok(Released::Freed) = mutex.unlock(&mut pass, guard) else {
        panic!(rt; "nobody waits");
    };
    assert_eq!(rt; mutex.state(&mut pass), 1);
    Ok(())
}

#[test]
fn a_future_that_never_locked_hands_its_pass_back(rt: HostRuntime) -> Result<(), Fail> {
    let Ok((mutex, pass)) = Mutex::new(rt.alloc(), 5u64, CONFIG) else {
        return Ok(());
    };
    let (pass, answer) = LockFuture::new(&mutex, pass).give_up();
    assert!(rt; answer.is_none());
    assert_eq!(rt; (pass.number(), pass.held(), pass.waits()), (0, 0, 0));
    Ok(())
}

#[test]
fn a_dropped_future_leaves_its_wait_in_the_line(rt: HostRuntime) -> Result<(), Fail> {
    let Ok((mutex, mut pass)) = Mutex::new(rt.alloc(), 5, CONFIG) else {
        return Ok(());
    };
    let Ok(second) = mutex.split(&mut pass) else {
        panic!(rt; "one was made of two");
    };
    let Ok(Locked::Now(_guard)) = mutex.lock(&mut pass) else {
        panic!(rt; "it is free");
    };
    let lock = LockFuture::new(&mutex, second);
    let ready = NumberLock { lock }.now_or_never(&rt)?;
    assert!(rt; ready.is_none());
    assert_eq!(rt; mutex.state(&mut pass), -1);
    Ok(())
}

#[test]
fn a_future_is_ready_once_another_thread_unlocks(rt: HostRuntime) -> Result<(), Fail> {
    let Ok((mutex, mut pass)) = Mutex::new(rt.alloc(), 5, CONFIG) else {
        return Ok(());
    };
    let Ok(second) = mutex.split(&mut pass) else {
        panic!(rt; "one was made of two");
    };
    let Ok(Locked::Now(mut guard)) = mutex.lock(&mut pass) else {
        panic!(rt; "it is free");
    };
    *guard.get_mut() = 6;
    let lock = LockFuture::new(&mutex, second);
    let (host, shared) = (&rt, &mutex);
    let (came, gave) = thread::join(
        host,
        move || match block_on(host, NumberLock { lock }) {
            Ok(done) => done.got.ok().map(|guard| *guard.get()),
            Err(_) => None,
        },
        move || shared.unlock(&mut pass, guard).is_ok(),
    );
    assert!(rt; gave);
    assert_eq!(rt; came, Some(6));
    Ok(())
}

#[test]
fn a_future_polled_by_hand_is_pending_until_the_mutex_comes(rt: HostRuntime) -> Result<(), Fail> {
    let Ok((mutex, mut pass)) = Mutex::new(rt.alloc(), 5, CONFIG) else {
        return Ok(());
    };
    let Ok(second) = mutex.split(&mut pass) else {
        panic!(rt; "one was made of two");
    };
    let Ok(Locked::Now(mut guard)) = mutex.lock(&mut pass) else {
        panic!(rt; "it is free");
    };
    *guard.get_mut() = 6;
    let lock = LockFuture::new(&mutex, second);
    let mut future = NumberLock { lock };
    let task = MockTask::new(&rt)?;
    let Poll::Pending = task.poll(&mut future) else {
        panic!(rt; "the mutex is held");
    };
    assert!(rt; task.is_woken());
    let Ok(Released::Sent(0)) = mutex.unlock(&mut pass, guard) else {
        panic!(rt; "the future waits");
    };
    let Poll::Ready(done) = task.poll(&mut future) else {
        panic!(rt; "the mutex has come");
    };
    assert_eq!(rt; done.got.ok().map(|guard| *guard.get()), Some(6));
    Ok(())
}
