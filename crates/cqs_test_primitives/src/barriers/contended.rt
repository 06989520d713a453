//! A leaving where another caller was first.

use cqs_barrier::{Arrived, Barrier, PartyLeft, look_to_leave};
use cqs_cell::begin_cancel;
use cqs_rule::Config;
use std::test::Fail;

const CONFIG: Config = Config {
    passes: 2,
    limit: 8,
    slots: 8,
};

// The first pass begins to leave and loads the remaining number, and then the second withdraws.
#[test]
fn another_withdraws_between_the_load_and_the_exchange(rt: HostRuntime) -> Result<(), Fail> {
    let (barrier, mut first) = Barrier::new(rt.alloc(), 3, CONFIG)?;
    let Ok(mut second) = barrier.split(&mut first, 1) else {
        panic!(rt; "two passes may be made");
    };
    let Ok(Arrived::Later(wait)) = barrier.arrive(&mut first) else {
        panic!(rt; "two are still to arrive");
    };
    let Ok(Arrived::Later(other)) = barrier.arrive(&mut second) else {
        panic!(rt; "one is still to arrive");
    };
    let at = barrier.spend_wait(&mut first, wait);
    let Ok(()) = begin_cancel(barrier.queue(), &mut first, at) else {
        panic!(rt; "nobody has served it");
    };
    let loaded = look_to_leave(barrier.queue(), &mut first, at.index);
    let PartyLeft::Withdrawn = barrier.cancel(&mut second, other) else {
        panic!(rt; "one is still to arrive");
    };
    let PartyLeft::Contended {
        saw,
        found,
        leaving,
    } = barrier.leave_from(&mut first, at, loaded)
    else {
        panic!(rt; "the second pass was first");
    };
    assert_eq!(rt; saw, 1);
    assert_eq!(rt; found, 2);
    let PartyLeft::Withdrawn = barrier.leave_again(&mut first, leaving) else {
        panic!(rt; "two are still to arrive");
    };
    assert_eq!(rt; first.held(), 2);
    Ok(())
}
