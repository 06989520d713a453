//! A member that goes through its one round, and passes of the rounds that are made and met.

use cqs_barrier_rounds::{RoundArrived, RoundError, Rounds, SplitError};
use cqs_rule::{Config, MakeError};
use std::test::Fail;

const CONFIG: Config = Config {
    passes: 2,
    limit: 64,
    slots: 8,
};

#[test]
fn one_member_goes_through_one_round(rt: HostRuntime) -> Result<(), Fail> {
    let (rounds, mut pass, mut members) = Rounds::new(rt.alloc(), 1, 1, CONFIG)?;
    assert_eq!(rt; rounds.rounds(), 1);
    let Some(member) = members.pop() else {
        panic!(rt; "there is a member for each party");
    };
    assert_eq!(rt; members.is_empty(), true);
    let Ok(RoundArrived::Last(member)) = rounds.arrive(&mut pass, member) else {
        panic!(rt; "there is no other party");
    };
    if member.round() < rounds.rounds() {
        panic!(rt; "there is one round");
    }
    let Err((_, RoundError::Over)) = rounds.arrive(&mut pass, member) else {
        panic!(rt; "it went through all rounds");
    };
    Ok(())
}

#[test]
fn passes_are_made_in_all_rounds_or_in_none(rt: HostRuntime) -> Result<(), Fail> {
    let (rounds, mut pass, _members) = Rounds::new(rt.alloc(), 2, 3, CONFIG)?;
    let Ok(second) = rounds.split(rt.alloc(), &mut pass, 1) else {
        panic!(rt; "two passes may be made");
    };
    assert_eq!(rt; (pass.held(0), pass.held(2), pass.held(3)), (1, 1, 0));
    assert_eq!(rt; (second.held(0), second.held(2), second.held(3)), (1, 1, 0));
    let Err(SplitError::Crowd) = rounds.split(rt.alloc(), &mut pass, 1) else {
        panic!(rt; "two passes were made");
    };
    assert_eq!(rt; (pass.held(0), pass.held(2)), (1, 1));
    Ok(())
}

#[test]
fn passes_meet_in_all_rounds(rt: HostRuntime) -> Result<(), Fail> {
    let (rounds, mut pass, _members) = Rounds::new(rt.alloc(), 2, 3, CONFIG)?;
    let Ok(second) = rounds.split(rt.alloc(), &mut pass, 1) else {
        panic!(rt; "two passes may be made");
    };
    let Ok(()) = rounds.meet(&mut pass, second) else {
        panic!(rt; "the second pass has no wait and owes nothing");
    };
    assert_eq!(rt; (pass.held(0), pass.held(2)), (2, 2));
    assert_eq!(rt; rounds.sole(&mut pass), true);
    Ok(())
}

#[test]
fn rounds_out_of_range(rt: HostRuntime) {
    for (parties, count) in [(0, 1), (33, 1), (1, 0), (1, 65)] {
        let made = Rounds::new(rt.alloc(), parties, count, CONFIG);
        assert_eq!(rt; made.err(), Some(MakeError::BadConfig));
    }
}
