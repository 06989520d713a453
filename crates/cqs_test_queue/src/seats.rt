//! Two passes of one semaphore, and how they become one.

use cqs_rule::{Config, MeetError};
use cqs_semaphore::{Acquired, Semaphore};
use std::test::Fail;

const CONFIG: Config = Config {
    passes: 2,
    limit: 4,
    slots: 6,
};

#[test]
fn passes_split_and_meet(rt: HostRuntime) -> Result<(), Fail> {
    let (semaphore, mut pass) = Semaphore::new(rt.alloc(), 1, CONFIG)?;
    let Ok(mut second) = semaphore.split(&mut pass) else {
        panic!(rt; "one was made of two");
    };
    assert!(rt; second.number() == 1);
    assert!(rt; semaphore.split(&mut pass).is_err());
    assert!(rt; !semaphore.sole(&mut pass));
    let Ok(Acquired::Now(_permit)) = semaphore.acquire(&mut second) else {
        panic!(rt; "one is free");
    };
    assert!(rt; second.held() == 1);
    assert!(rt; semaphore.meet(&mut pass, second).is_ok());
    assert!(rt; pass.held() == 1);
    assert!(rt; semaphore.sole(&mut pass));
    Ok(())
}

#[test]
fn a_pass_with_a_wait_is_not_met_away(rt: HostRuntime) -> Result<(), Fail> {
    let (semaphore, mut pass) = Semaphore::new(rt.alloc(), 1, CONFIG)?;
    let Ok(mut second) = semaphore.split(&mut pass) else {
        panic!(rt; "one was made of two");
    };
    let Ok(Acquired::Now(_permit)) = semaphore.acquire(&mut pass) else {
        panic!(rt; "one is free");
    };
    let Ok(Acquired::Later(wait)) = semaphore.acquire(&mut second) else {
        panic!(rt; "none is free");
    };
    assert!(rt; (wait.number(), second.waits()) == (0, 1));
    let Err((second, MeetError::Busy)) = semaphore.meet(&mut pass, second) else {
        panic!(rt; "the second waits");
    };
    assert!(rt; (second.number(), second.waits()) == (1, 1));
    assert!(rt; !semaphore.sole(&mut pass));
    Ok(())
}
