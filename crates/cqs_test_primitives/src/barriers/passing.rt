//! The last party passes over 65 waiters who have left, in one call.

ghost use Rattle.std.specs.Prelude.{◌≡◌, ◌<◌, IsTrue};
ghost use Rattle.cqs_rule.specs.Passes.{pass_view};
ghost use Rattle.cqs_rule_laws.specs.CallRule.{IsReady};
ghost use Rattle.cqs_barrier.specs.Calls.{IsMine};

use cqs_barrier::{Arrived, Barrier, BarrierPass, PartyLeft, PartyPolled};
use cqs_rule::Config;
use std::test::Fail;

const CONFIG: Config = Config {
    passes: 2,
    limit: 128,
    slots: 8,
};

// A party of the pass arrives and withdraws. It answers whether it did.
fn come_and_go(barrier: &Barrier, pass: &mut BarrierPass) -> bool
    requires belongs { IsMine barrier.now pass.old }
    requires ready { IsReady (pass_view pass.old).facts }
    requires holds { 0 < (pass_view pass.old).facts.has.held }
    ensures belongs { IsMine barrier.now pass.new }
    ensures ready { IsTrue result → IsReady (pass_view pass.new).facts }
    ensures holds { IsTrue result → 0 < (pass_view pass.new).facts.has.held }
{
    let Ok(Arrived::Later(wait)) = barrier.arrive(pass) else {
        return false;
    };
    let PartyLeft::Withdrawn = barrier.cancel(pass, wait) else {
        return false;
    };
    true
}

#[test]
fn the_last_passes_over_65_who_left(rt: HostRuntime) -> Result<(), Fail> {
    let (barrier, mut pass) = Barrier::new(rt.alloc(), 2, CONFIG)?;
    let Ok(mut second) = barrier.split(&mut pass, 1) else {
        panic!(rt; "two passes may be made");
    };
    for _time in 0..65 {
        if !come_and_go(&barrier, &mut second) {
            panic!(rt; "the other party has not arrived");
        }
    }
    let Ok(Arrived::Later(wait)) = barrier.arrive(&mut second) else {
        panic!(rt; "the other party has not arrived");
    };
    assert_eq!(rt; wait.number(), 65);
    let Ok(Arrived::Last) = barrier.arrive(&mut pass) else {
        panic!(rt; "the one who waits is next");
    };
    let PartyPolled::Through = barrier.poll(&mut second, wait) else {
        panic!(rt; "it was served");
    };
    Ok(())
}
