//! A party withdraws, and comes again.

use cqs_barrier::{Arrived, Barrier, PartyLeft, PartyPolled};
use cqs_rule::Config;
use std::test::Fail;

const CONFIG: Config = Config {
    passes: 3,
    limit: 8,
    slots: 8,
};

// One pass arrives for both parties.
#[test]
fn one_of_two_parties_withdraws(rt: HostRuntime) -> Result<(), Fail> {
    let (barrier, mut pass) = Barrier::new(rt.alloc(), 2, CONFIG)?;
    let Ok(Arrived::Later(first)) = barrier.arrive(&mut pass) else {
        panic!(rt; "the other is still to arrive");
    };
    assert_eq!(rt; first.number(), 0);
    let PartyLeft::Withdrawn = barrier.cancel(&mut pass, first) else {
        panic!(rt; "the other is still to arrive");
    };
    let Ok(Arrived::Later(first)) = barrier.arrive(&mut pass) else {
        panic!(rt; "the other is still to arrive");
    };
    assert_eq!(rt; first.number(), 1);
    let Ok(Arrived::Last) = barrier.arrive(&mut pass) else {
        panic!(rt; "the first waits");
    };
    let PartyPolled::Through = barrier.poll(&mut pass, first) else {
        panic!(rt; "both have arrived");
    };
    Ok(())
}

// One pass arrives for all three parties.
#[test]
fn one_pass_arrives_for_three_parties(rt: HostRuntime) -> Result<(), Fail> {
    let (barrier, mut pass) = Barrier::new(rt.alloc(), 3, CONFIG)?;
    let Ok(Arrived::Later(first)) = barrier.arrive(&mut pass) else {
        panic!(rt; "two are still to arrive");
    };
    assert_eq!(rt; first.number(), 0);
    let PartyLeft::Withdrawn = barrier.cancel(&mut pass, first) else {
        panic!(rt; "two are still to arrive");
    };
    let Ok(Arrived::Later(second)) = barrier.arrive(&mut pass) else {
        panic!(rt; "two are still to arrive");
    };
    assert_eq!(rt; second.number(), 1);
    let Ok(Arrived::Later(first)) = barrier.arrive(&mut pass) else {
        panic!(rt; "the third is still to arrive");
    };
    assert_eq!(rt; first.number(), 2);
    let Ok(Arrived::Last) = barrier.arrive(&mut pass) else {
        panic!(rt; "the others wait");
    };
    if first.number() == second.number() {
        panic!(rt; "they are two waits");
    }
    let PartyLeft::TooLate = barrier.cancel(&mut pass, second) else {
        panic!(rt; "all have arrived");
    };
    let PartyPolled::Through = barrier.poll(&mut pass, first) else {
        panic!(rt; "all have arrived");
    };
    Ok(())
}

// Three parties, each with a pass of its own. The first withdraws, and is the second to arrive.
#[test]
fn one_of_three_passes_withdraws(rt: HostRuntime) -> Result<(), Fail> {
    let (barrier, mut a) = Barrier::new(rt.alloc(), 3, CONFIG)?;
    let Ok(mut b) = barrier.split(&mut a, 1) else {
        panic!(rt; "three passes may be made");
    };
    let Ok(mut c) = barrier.split(&mut a, 1) else {
        panic!(rt; "three passes may be made");
    };
    let Ok(Arrived::Later(first)) = barrier.arrive(&mut a) else {
        panic!(rt; "two are still to arrive");
    };
    let PartyLeft::Withdrawn = barrier.cancel(&mut a, first) else {
        panic!(rt; "two are still to arrive");
    };
    let Ok(Arrived::Later(second)) = barrier.arrive(&mut b) else {
        panic!(rt; "two are still to arrive");
    };
    let Ok(Arrived::Later(first)) = barrier.arrive(&mut a) else {
        panic!(rt; "the third is still to arrive");
    };
    assert_eq!(rt; first.number(), 2);
    let PartyPolled::Pending(second) = barrier.poll(&mut b, second) else {
        panic!(rt; "the third is still to arrive");
    };
    let Ok(Arrived::Last) = barrier.arrive(&mut c) else {
        panic!(rt; "the others wait");
    };
    let PartyLeft::TooLate = barrier.cancel(&mut b, second) else {
        panic!(rt; "all have arrived");
    };
    let PartyPolled::Through = barrier.poll(&mut a, first) else {
        panic!(rt; "all have arrived");
    };
    Ok(())
}
