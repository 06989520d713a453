//! How passes of a barrier are made and met, and the fewest and the most parties.

use cqs_barrier::{Arrived, Barrier};
use cqs_rule::{Config, MeetError};
use std::test::Fail;

const CONFIG: Config = Config {
    passes: 2,
    limit: 64,
    slots: 8,
};

#[test]
fn passes_are_made_and_met(rt: HostRuntime) -> Result<(), Fail> {
    let (barrier, mut pass) = Barrier::new(rt.alloc(), 3, CONFIG)?;
    let Ok(mut second) = barrier.split(&mut pass, 2) else {
        panic!(rt; "two passes may be made");
    };
    assert_eq!(rt; pass.held(), 1);
    assert_eq!(rt; second.held(), 2);
    assert_eq!(rt; barrier.sole(&mut pass), false);
    let Err(_) = barrier.split(&mut pass, 1) else {
        panic!(rt; "two passes were made");
    };
    let Ok(Arrived::Later(_wait)) = barrier.arrive(&mut second) else {
        panic!(rt; "two parties are still to arrive");
    };
    let Err((given, MeetError::Busy)) = barrier.meet(&mut pass, second) else {
        panic!(rt; "the second pass has a wait");
    };
    assert_eq!(rt; given.held(), 1);
    Ok(())
}

#[test]
fn one_pass_is_left(rt: HostRuntime) -> Result<(), Fail> {
    let (barrier, mut pass) = Barrier::new(rt.alloc(), 1, CONFIG)?;
    let Ok(second) = barrier.split(&mut pass, 1) else {
        panic!(rt; "two passes may be made");
    };
    let Ok(()) = barrier.meet(&mut pass, second) else {
        panic!(rt; "the second pass has no wait and owes nothing");
    };
    assert_eq!(rt; barrier.sole(&mut pass), true);
    assert_eq!(rt; pass.held(), 1);
    let Ok(Arrived::Last) = barrier.arrive(&mut pass) else {
        panic!(rt; "there is no other party");
    };
    Ok(())
}

#[test]
fn the_last_of_32_parties_lets_the_others_through(rt: HostRuntime) -> Result<(), Fail> {
    let (barrier, mut pass) = Barrier::new(rt.alloc(), 32, CONFIG)?;
    for number in 0..31 {
        let Ok(Arrived::Later(wait)) = barrier.arrive(&mut pass) else {
            panic!(rt; "further parties are still to arrive");
        };
        assert_eq!(rt; wait.number(), number);
    }
    let Ok(Arrived::Last) = barrier.arrive(&mut pass) else {
        panic!(rt; "the others have arrived");
    };
    Ok(())
}
