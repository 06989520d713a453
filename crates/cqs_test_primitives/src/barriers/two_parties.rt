//! One barrier of two parties, call by call.

use cqs_barrier::{Arrived, Barrier, PartyLeft, PartyPolled};
use cqs_rule::{Config, MakeError};
use std::test::Fail;

const CONFIG: Config = Config {
    passes: 2,
    limit: 8,
    slots: 8,
};

#[test]
fn the_last_of_two_lets_both_through(rt: HostRuntime) -> Result<(), Fail> {
    let (barrier, mut pass) = Barrier::new(rt.alloc(), 2, CONFIG)?;
    let Ok(mut second) = barrier.split(&mut pass, 1) else {
        panic!(rt; "two passes may be made");
    };
    let Ok(Arrived::Later(wait)) = barrier.arrive(&mut pass) else {
        panic!(rt; "another party is still to arrive");
    };
    assert_eq!(rt; wait.number(), 0);
    let PartyPolled::Pending(wait) = barrier.poll(&mut pass, wait) else {
        panic!(rt; "the other party has not arrived");
    };
    let Ok(Arrived::Last) = barrier.arrive(&mut second) else {
        panic!(rt; "both parties have arrived");
    };
    let PartyPolled::Through = barrier.poll(&mut pass, wait) else {
        panic!(rt; "the last party resumed the first");
    };
    Ok(())
}

#[test]
fn a_party_withdraws_and_comes_again(rt: HostRuntime) -> Result<(), Fail> {
    let (barrier, mut pass) = Barrier::new(rt.alloc(), 2, CONFIG)?;
    let Ok(mut second) = barrier.split(&mut pass, 1) else {
        panic!(rt; "two passes may be made");
    };
    let Ok(Arrived::Later(wait)) = barrier.arrive(&mut pass) else {
        panic!(rt; "another party is still to arrive");
    };
    let PartyLeft::Withdrawn = barrier.cancel(&mut pass, wait) else {
        panic!(rt; "the other party has not arrived");
    };
    let Ok(Arrived::Later(wait)) = barrier.arrive(&mut second) else {
        panic!(rt; "the first party has withdrawn");
    };
    assert_eq!(rt; wait.number(), 1);
    let Ok(Arrived::Last) = barrier.arrive(&mut pass) else {
        panic!(rt; "the second party waits");
    };
    let PartyLeft::TooLate = barrier.cancel(&mut second, wait) else {
        panic!(rt; "all have arrived");
    };
    Ok(())
}

#[test]
fn barriers_out_of_range(rt: HostRuntime) {
    for parties in [0, 33] {
        let made = Barrier::new(rt.alloc(), parties, CONFIG);
        assert_eq!(rt; made.err(), Some(MakeError::BadConfig));
    }
}
